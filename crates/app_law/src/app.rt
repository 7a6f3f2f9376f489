ghost use Rattle.std.specs.Prelude.{◌≡◌, ◌≤◌, ℕ, List, [], length};
ghost use Rattle.record_codec.specs.declared.app_kind.AppKind.{AppKind};
ghost use Rattle.record_codec.specs.declared.record.Record.{Record};
ghost use Rattle.record_codec.specs.declared.record.Record.TheVariants.{Noop};

use record_codec::{AppKind, Output, Record, Shown};

/// An application: a state that records change, one after another, and that gives output for each.
///
/// Its members say what it means; none of its calls takes memory.
pub trait App: Drop {
    /// What takes one record back.
    type Undo: Drop;

    /// The state before any record.
    ghost fresh_state: { AppKind → Self };

    /// The state after one more record.
    ghost next_state: { Self → Record → Self };

    /// The bytes that a record gives, at most 64.
    ghost output_of: { Self → Record → List ℕ };

    /// The text that a state is shown as, at most 256 bytes.
    ghost shown_of: { Self → List ℕ };

    /// What taking a record back makes of a state.
    ghost restored: { Self.Undo → Self → Self };

    /// The state before any record, of an application of this kind.
    fn fresh(kind: AppKind) -> Self
        ensures { result ≡ fresh_state kind };

    /// Takes one record, and gives what undoes it and its output.
    fn apply(&mut self, rec: &Record) -> (Self::Undo, Output)
        ensures next { self.new ≡ next_state self.old rec.now }
        ensures output { result.1 ≡ output_of self.old rec.now }
        ensures short { length result.1 ≤ 64 }
        ensures undo { restored result.0 self.new ≡ self.old };

    /// Takes the last record back.
    fn revert(&mut self, undo: Self::Undo)
        ensures { self.new ≡ restored undo self.old };

    /// The state as text.
    fn show(&self) -> Shown
        ensures shown { result ≡ shown_of self.now }
        ensures short { length result ≤ 256 };

    /// A record that fills a place leaves the state.
    ghost noop_leaves: { (s : Self) → next_state s Noop ≡ s };

    /// A record that fills a place gives nothing.
    ghost noop_gives: { (s : Self) → output_of s Noop ≡ [] };
}
