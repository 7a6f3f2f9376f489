//! The looks that a reader keeps.
ghost use Rattle.std.specs.Prelude.{◌≡◌, Some, take, OnOk, OnErr};
ghost use Rattle.std.specs.Option.{option_copied};
ghost use Rattle.view_cell.specs.Looks.{newest_of};
ghost use Rattle.cluster_users.specs.Noting.{noted, no_notes, with_kept, up_to, told_last, last_noted, episode_noted, RiseStrictly};
ghost use Rattle.cluster_users.specs.inside.Readers.{IsUpTo};

use crate::looks::LookList;
use quota_table::{Listed, OutOfMemory};
use std::alloc::Global;
use view_cell::Look;

/// The looks that a reader keeps, and the number of its look before.
#[derive(Drop)]
pub struct Notes {
    /// None before the first look.
    pub before: Option<u64>,
    pub kept: LookList,
}

impl Notes {
    /// None yet. It takes no memory.
    pub fn new(alloc: Global) -> Notes
        ensures { result ≡ no_notes }
    {
        Notes {
            before: None,
            kept: Listed::new(alloc),
        }
    }

    /// Forgets all.
    pub fn clear(&mut self)
        ensures { self.new ≡ no_notes }
    {
        self.before = None;
        self.kept.clear();
    }

    /// Keeps a look, where its number is not that of the look before. At want of memory nothing changes.
    pub fn note(&mut self, look: Look) -> Result<(), OutOfMemory>
        ensures ok { OnOk result (self.new ≡ noted self.old look) }
        ensures err { OnErr result (self.new ≡ self.old) }
    {
        let number = look.ops;
        if self.before != Some(number) {
            self.kept.push(look)?;
        }
        self.before = Some(number);
        Ok(())
    }

    /// The look that was kept last.
    fn newest(&self) -> Option<&Look>
        ensures { option_copied result ≡ newest_of self.now.kept }
    {
        self.kept.as_slice().last()
    }

    /// Keeps what was told last, where it is not kept yet.
    fn keep_told(&mut self, told: Look) -> Result<(), OutOfMemory>
        ensures { OnOk result (self.new ≡ with_kept self.old (told_last told self.old.kept)) }
    {
        let is_new = match self.newest() {
            Some(newest) => newest.ops < told.ops,
            None => true,
        };
        if is_new {
            self.kept.push(told)?;
        }
        Ok(())
    }

    /// Takes an episode's last look, of which `met` says whether it was handed out. `begun` looks were kept as it began.
    fn note_last(&mut self, met: bool, begun: usize, last: Look) -> Result<(), OutOfMemory>
        ensures { OnOk result (self.new ≡ last_noted met begun self.old last) }
    {
        if met {
            return self.note(last);
        }
        self.before = Some(last.ops);
        self.kept.truncate(begun);
        Ok(())
    }

    /// Ends an episode with its last look. What was told is then the last that is kept.
    pub fn end_episode(
        &mut self,
        met: bool,
        begun: usize,
        told: Look,
        last: Look,
    ) -> Result<(), OutOfMemory>
        requires rise { RiseStrictly self.old.kept }
        requires up_to { IsUpTo self.old last.ops }
        ensures { OnOk result (self.new ≡ episode_noted met begun told self.old last) }
    {
        self.note_last(met, begun, last)?;
        self.kept
            .truncate(count_up_to(self.kept.as_slice(), told.ops));
        self.keep_told(told)
    }
}

/// How many of the looks, whose numbers rise, have a number up to one. It begins at the end, where none is above in any run.
fn count_up_to(looks: &[Look], number: u64) -> usize
    requires { RiseStrictly looks.now }
    ensures { take result looks.now ≡ up_to number looks.now }
{
    let mut left = looks.len();
    while left > 0 && looks[left - 1].ops > number {
        left -= 1;
    }
    left
}
