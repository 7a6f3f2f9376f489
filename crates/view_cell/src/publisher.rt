//! The end that publishes.
ghost use Rattle.std.specs.Prelude.{◌≡◌, ◌<◌, ◌∷◌, [], Some, IsOk, IfOk, OnOk, OnErr};
ghost use Rattle.view_cell.specs.Looks.{IsHistory, newest_of};
ghost use Rattle.view_cell.specs.Ends.{showing_next};

use crate::cell::{CellWriter, put};
use crate::history::{Head, written};
use crate::look::Look;
use crate::published::Published;
use core::mem::replace_with;
use quota_table::OutOfMemory;
use std::marker::Model;
use std::sync::Wait;

/// The end that publishes looks. Its drop waits for the readers that are inside.
pub struct Publisher<R: Wait + Drop> {
    pub(crate) writer: CellWriter,
    pub(crate) head: Head,
    pub(crate) rt: R,
}

impl<R: Wait + Drop> Model for Publisher<R> {
    ghost use Rattle.std.specs.Prelude.{◌≡◌, [], drop};
    ghost use Rattle.left_right.specs.Sides.{view as knows};
    ghost use Rattle.view_cell.specs.Looks.{IsHistory};
    ghost use Rattle.view_cell.specs.inside.History.{word_of};
    ghost use Rattle.view_cell.specs.Ends.{Showing};

    ghost Value = { Showing };

    ghost view = { λ p. record { cell = p.writer.desk.shown.value.seen.book; newest = p.writer.desk.shown.value.look; looks = p.writer.desk.shown.value.seen.log } };

    ghost invariant = { λ p. (p.head ≡ word_of p.writer.desk.shown.value.seen.book) × IsHistory p.writer.desk.shown.value.seen.log × (drop p.writer.behind p.writer.log.items ≡ []) × ((knows p.writer.desk.place).head ≡ word_of p.writer.desk.shown.value.seen.book) };
}

impl<R: Wait + Drop> Drop for Publisher<R> {
    fn drop(self) {
        let Self {
            writer,
            head: _,
            rt,
        } = self;
        writer.take(&rt);
    }
}

/// A note of what was published last, for one reader.
#[derive(Drop)]
pub struct Told {
    pub(crate) shown: Published,
}

impl Model for Told {
    ghost use Rattle.view_cell.specs.Ends.{Showing};

    ghost Value = { Showing };

    ghost view = { λ t. record { cell = t.shown.seen.book; newest = t.shown.look; looks = t.shown.seen.log } };
}

impl Told {
    /// The look that was published last, or the opening one.
    pub fn newest(&self) -> &Look
        ensures { result.now ≡ self.now.newest }
    {
        &self.shown.look
    }
}

impl<R: Wait + Drop> Publisher<R> {
    /// Publishes a look, whose number is above that of the last one. It waits for the readers that are inside.
    /// Where memory is wanted, readers see what they saw.
    pub fn publish(&mut self, next: Look) -> Result<(), OutOfMemory>
        requires next { self.old.newest.ops < next.ops }
        ensures ok { OnOk result (self.new ≡ showing_next next self.old) }
        ensures err { OnErr result (self.new ≡ self.old) }
        ensures newest { newest_of self.new.looks ≡ Some self.new.newest }
        ensures history { IsHistory self.new.looks }
    {
        match written(&self.head, self.writer.published(), next) {
            Some(next) => {
                let rt = &self.rt;
                replace_with(&mut self.writer, next, |writer, next| put(rt, writer, next))
            }
            None => Err(OutOfMemory),
        }
    }

    /// The number of the look that was published last, or 0.
    pub fn newest(&self) -> u64
        ensures { result ≡ self.now.newest.ops }
    {
        self.writer.published().look.ops
    }

    /// A note of the look that was published last, or of the opening one. It takes no memory, and the answer is always Ok.
    pub fn tell(&mut self) -> Result<Told, OutOfMemory>
        ensures told { IfOk result (λ told. told ≡ self.old) }
        ensures always { IsOk result }
        ensures kept { self.new ≡ self.old }
        ensures newest { newest_of self.new.looks ≡ Some self.new.newest }
        ensures history { IsHistory self.new.looks }
    {
        Ok(Told {
            shown: self.writer.published().copy(),
        })
    }
}
