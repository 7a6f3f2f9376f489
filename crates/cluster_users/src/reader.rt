ghost use Rattle.std.specs.Prelude.{◌≡◌, true, Some, OnOk, OnErr};
ghost use Rattle.view_cell.specs.Looks.{newest_of};
ghost use Rattle.cluster_users.specs.Noting.{no_notes};
ghost use Rattle.cluster_users.specs.Reading.{GoesOn, Reads, Ends, reading};

use crate::gate::{Actor, Environment, Gate};
use crate::looks::Looks;
use crate::notes::Notes;
use quota_table::OutOfMemory;
use scoped_turns::TakesTurns;
use std::alloc::Global;
use std::marker::Model;
use view_cell::{ReaderPass, Told};

/// Looks at the view of one consumer, once a turn, and keeps the looks whose numbers differ from those before.
#[derive(Drop)]
pub struct Reader {
    number: u8,
    consumer: u8,
    pass: ReaderPass,
    notes: Notes,
    /// How many looks were kept as the episode began.
    begun: usize,
    /// Whether memory was wanted for a look.
    wanting: bool,
}

impl Model for Reader {
    ghost use Rattle.cluster_users.specs.Reading.{Reading, seen_as};
    ghost use Rattle.cluster_users.specs.inside.Readers.{IsReading};

    ghost Value = { Reading };

    ghost view = { λ r. seen_as r.number r.consumer r.pass r.notes r.begun r.wanting };

    ghost invariant = { λ r. IsReading (seen_as r.number r.consumer r.pass r.notes r.begun r.wanting) };
}

impl Reader {
    /// A reader of a consumer, with its end of that consumer's view.
    pub fn new(alloc: Global, number: u8, consumer: u8, pass: ReaderPass) -> Reader
        ensures { result ≡ reading number consumer pass }
    {
        Reader {
            number,
            consumer,
            pass,
            notes: Notes::new(alloc),
            begun: 0,
            wanting: false,
        }
    }

    /// Looks once. Where memory is wanted for the look, it looks no more.
    fn look(&mut self)
        ensures { Reads 1 self.old self.new }
    {
        if self.wanting {
            return;
        }
        let look = self.pass.look();
        match self.notes.note(look) {
            Ok(()) => {}
            Err(OutOfMemory) => self.wanting = true,
        }
    }

    /// Ends an episode: learns what was published last, and looks once more. Want of memory comes where it was wanted in the
    /// episode's turns, or is now. The reader keeps then no look, and looks no more.
    pub fn end_episode(&mut self, told: Told) -> Result<(), OutOfMemory>
        requires cell { told.cell ≡ self.old.pass.cell }
        requires newest { newest_of told.looks ≡ Some told.newest }
        ensures goes_on { GoesOn self.old self.new }
        ensures ends { OnOk result (Ends told self.old self.new) }
        ensures wanted { OnErr result ((self.new.wanting ≡ true) × (self.new.notes ≡ no_notes)) }
    {
        if self.wanting {
            self.notes.clear();
            return Err(OutOfMemory);
        }
        let newest = told.newest().copy();
        self.pass.learn(told);
        let last = self.pass.look();
        let met = self.pass.met();
        match self.notes.end_episode(met, self.begun, newest, last) {
            Ok(()) => {
                self.begun = self.notes.kept.len();
                Ok(())
            }
            Err(error) => {
                self.notes.clear();
                self.wanting = true;
                Err(error)
            }
        }
    }

    /// The looks that it kept.
    pub fn into_looks(self) -> Looks
        ensures of { (result.reader ≡ self.number) × (result.consumer ≡ self.consumer) }
        ensures list { result.list ≡ self.notes.kept }
    {
        let Self {
            number,
            consumer,
            pass: _,
            notes,
            begun: _,
            wanting: _,
        } = self;
        let Notes { before: _, kept } = notes;
        Looks {
            reader: number,
            consumer,
            list: kept,
        }
    }
}

impl<'a, R, G: Gate> TakesTurns<Environment<'a, R, G>> for Reader {
    ghost use Rattle.std.specs.Prelude.{⊤};
    ghost use Rattle.cluster_users.specs.Reading.{Reads};

    ghost ready = { λ _ _. ⊤ };

    ghost took = { λ _ turns before after. Reads turns before after };

    fn take_turns(mut self, env: &Environment<'a, R, G>, turns: u32) -> Reader {
        let number = self.number;
        for turn in 0..turns {
            env.gate.pass(Actor::Reader { number }, turn);
            self.look();
        }
        self
    }
}
