//! The end that looks.
ghost use Rattle.std.specs.Prelude.{◌≡◌, ◌≤◌, ◌++◌, ◌∷◌, [], Some, IsTrue, IsFalse};
ghost use Rattle.std.specs.List.{All, Contains};
ghost use mathlib.Core.List.{IsPrefix};
ghost use Rattle.left_right.specs.Sides.{view};
ghost use Rattle.view_cell.specs.Looks.{IsHistory, newest_of, last_number, later_of};
ghost use Rattle.view_cell.specs.inside.History.{word_of};

use crate::cell::{CellReader, glance, take_later};
use crate::history::Token;
use crate::look::Look;
use crate::publisher::Told;
use core::mem::replace_with;
use std::marker::Model;

/// The right to look, for one reader.
#[derive(Drop)]
pub struct ReaderPass {
    pub(crate) reader: CellReader,
    pub(crate) seen: Token,
    pub(crate) last: Look,
    pub(crate) met: bool,
}

impl Model for ReaderPass {
    ghost use Rattle.std.specs.Prelude.{◌≡◌, Some};
    ghost use Rattle.std.specs.List.{All, Contains};
    ghost use Rattle.left_right.specs.Sides.{view as knows};
    ghost use Rattle.view_cell.specs.Looks.{IsHistory, newest_of};
    ghost use Rattle.view_cell.specs.inside.History.{word_of};
    ghost use Rattle.view_cell.specs.Ends.{Watching};

    ghost Value = { Watching };

    ghost view = { λ p. record { cell = p.seen.book; seen = p.seen.log; last = p.last; met = p.met; handed = (knows p.reader.place).handed } };

    ghost invariant = { λ p. ((knows p.reader.place).head ≡ word_of p.seen.book) × (newest_of p.seen.log ≡ Some p.last) × IsHistory p.seen.log × All (Contains p.seen.log) (knows p.reader.place).handed };
}

impl ReaderPass {
    /// Looks. It takes no memory and waits for nobody.
    ///
    /// Where the cell hands nothing out, as once the publisher is gone, the look is the one before, or a later one that was learned since.
    pub fn look(&mut self) -> Look
        ensures look { result ≡ self.new.last }
        ensures cell { self.new.cell ≡ self.old.cell }
        ensures rises { self.old.last.ops ≤ self.new.last.ops }
        ensures goes_on { IsPrefix self.old.seen self.new.seen }
        ensures newest { newest_of self.new.seen ≡ Some self.new.last }
        ensures history { IsHistory self.new.seen }
        ensures handed { All (Contains self.new.seen) self.new.handed }
        ensures met { IsTrue self.new.met
            → (x : _) × (last_number 0 self.old.handed ≤ x.ops) × (self.new.handed ≡ self.old.handed ++ x ∷ []) × (self.new.last ≡ later_of self.old.last x) }
        ensures not_met { IsFalse self.new.met → (self.new.handed ≡ self.old.handed) × (self.new.seen ≡ self.old.seen) × (self.new.last ≡ self.old.last) }
    {
        let found = replace_with(
            &mut self.reader,
            &self.seen,
            |reader, seen| glance(reader, seen),
        );
        match found {
            Some(found) => {
                take_later(&mut self.seen, &mut self.last, &found);
                self.met = true;
            }
            None => self.met = false,
        }
        self.last.copy()
    }

    /// Takes in a note of the same view. Each later look has at least its number.
    pub fn learn(&mut self, told: Told)
        requires cell { told.cell ≡ self.old.cell }
        ensures cell { self.new.cell ≡ self.old.cell }
        ensures last { self.new.last ≡ later_of self.old.last told.newest }
        ensures rises { (self.old.last.ops ≤ self.new.last.ops) × (told.newest.ops ≤ self.new.last.ops) }
        ensures goes_on { IsPrefix self.old.seen self.new.seen }
        ensures told { IsPrefix told.looks self.new.seen }
        ensures newest { newest_of self.new.seen ≡ Some self.new.last }
        ensures up_to_the_told { (x : _) → Contains self.new.seen x → x.ops ≤ told.newest.ops → Contains told.looks x }
        ensures history { IsHistory self.new.seen }
        ensures handed { All (Contains self.new.seen) self.new.handed }
        ensures met { (self.new.met ≡ self.old.met) × (self.new.handed ≡ self.old.handed) }
    {
        take_later(&mut self.seen, &mut self.last, &told.shown);
    }

    /// Whether the cell handed something out at the last look. Before the first look it is false.
    pub fn met(&self) -> bool
        ensures { result ≡ self.now.met }
    {
        self.met
    }
}
