ghost use Rattle.std.specs.Prelude.{◌≡◌, ◌++◌, ◌∷◌, [], length, drop, slice_get, OnOk};
ghost use Rattle.std.specs.Option.{option_copied};

use msg_wire::Command;
use quota_table::OutOfMemory;
use std::alloc::Global;
use std::collections::VecDeque;
use std::marker::Model;

/// What a sequencer is told to propose, the oldest first. Contracts see it as the list of the commands.
#[derive(Debug, Drop)]
pub struct Wishes(VecDeque<Command>);

impl Model for Wishes {
    ghost use Rattle.std.specs.Prelude.{List};
    ghost use Rattle.msg_wire.specs.declared.event.Command.{Command};

    ghost Value = { List Command };

    ghost view = { λ w. w.0.items };
}

impl Wishes {
    /// No wish. It takes no memory.
    pub fn new(alloc: Global) -> Wishes
        ensures { result ≡ [] }
    {
        Wishes(VecDeque::new(alloc))
    }

    pub fn len(&self) -> usize
        ensures { result ≡ length self.now }
    {
        self.0.len()
    }

    /// The oldest wish.
    pub fn first(&self) -> Option<&Command>
        ensures { option_copied result ≡ slice_get self.now 0 }
    {
        self.0.front()
    }

    /// Puts a wish last.
    pub fn push(&mut self, command: Command) -> Result<(), OutOfMemory>
        ensures { OnOk result (self.new ≡ self.old ++ command ∷ []) }
    {
        self.0.push_back(command)?;
        Ok(())
    }

    /// Drops the oldest wish, if there is one.
    pub fn drop_first(&mut self)
        ensures { self.new ≡ drop 1 self.old }
    {
        let _dropped = self.0.pop_front();
    }

    /// Drops all.
    pub fn clear(&mut self)
        ensures { self.new ≡ [] }
    {
        self.0.clear();
    }
}
