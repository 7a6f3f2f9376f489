ghost use Rattle.std.specs.Prelude.{◌≡◌, ℕ, ◌<◌, List, [], length, take, IfOk};
ghost use Rattle.record_codec.specs.declared.record.Record.{Record};
ghost use Rattle.app_law.specs.Folds.{fold_of};
ghost use Rattle.app_law.specs.Positions.{below, from_on, IsPast};
ghost use Rattle.undo_points.specs.Points.{point_position, pushed, points_below, points_from, taken_back, Gave};
ghost use Rattle.undo_points.specs.inside.Steps.{TakesNewest, DropsOldest};

use app_law::App;
use quota_table::OutOfMemory;
use std::alloc::Global;
use std::collections::VecDeque;
use std::marker::Model;

/// What takes back the record that was applied at a position.
#[derive(Debug, Drop)]
struct UndoPoint<U> {
    position: u64,
    undo: U,
}

/// The undos of the records that may still be cut off, the oldest first. Contracts see their list and the room.
#[derive(Debug, Drop)]
pub struct UndoPoints<U> {
    held: VecDeque<UndoPoint<U>>,
}

impl<U> Model for UndoPoints<U> {
    ghost use Rattle.std.specs.VecDeque.{deque_capacity};
    ghost use Rattle.app_law.specs.Positions.{IsRising};
    ghost use Rattle.undo_points.specs.Points.{Points, point_position};

    ghost Value = { Points U };

    ghost view = { λ p. record { room = deque_capacity p.held; held = p.held.items } };

    ghost invariant = { λ p. IsRising point_position p.held.items };
}

impl<U: Drop> UndoPoints<U> {
    /// Room for `n` undos, and none of them yet. It takes all the memory.
    pub fn with_room(alloc: Global, n: usize) -> Result<UndoPoints<U>, OutOfMemory>
        ensures { IfOk result (λ points. points ≡ record { room = n; held = [] }) }
    {
        Ok(UndoPoints {
            held: VecDeque::with_capacity(alloc, n)?,
        })
    }

    /// How many undos are held.
    pub fn len(&self) -> usize
        ensures { result ≡ length self.now.held }
    {
        self.held.len()
    }

    /// Holds what undoes the record that was applied at a position past all that are held.
    pub fn push(&mut self, position: u64, undo: U)
        requires room { length self.old.held < self.old.room }
        requires past { IsPast point_position self.old.held position }
        ensures { self.new ≡ pushed self.old position undo }
    {
        self.held.push_back_reserved(UndoPoint { position, undo });
    }

    /// Takes an application back to the state that stood before a position, and drops the undos from there on.
    ///
    /// Where the records of a log gave the held undos, one after another, it is then the fold of those below the position.
    pub fn back_to<A: App<Undo = U>>(&mut self, position: u64, app: &mut A)
        ensures points { self.new ≡ points_below self.old position }
        ensures state { app.new ≡ taken_back A.restored (from_on point_position position self.old.held) app.old }
        ensures before { (s : A) (log : List Record) → Gave A.next_state A.restored s log self.old.held → app.old ≡ fold_of A.next_state s log
            → app.new ≡ fold_of A.next_state s (take (length (below point_position position self.old.held)) log) }
    {
        let _ = &self.held;
        self.take_back(position, app);
    }

    /// Reverts from the newest undo down to a position.
    fn take_back<A: App<Undo = U>>(&mut self, position: u64, app: &mut A)
        ensures points { self.new ≡ points_below self.old position }
        ensures state { app.new ≡ taken_back A.restored (from_on point_position position self.old.held) app.old }
    {
        while let Some(undo) = self.take_newest(position) {
            app.revert(undo);
        }
    }

    /// The newest undo, where it stands at a position or past it.
    fn take_newest(&mut self, position: u64) -> Option<U>
        ensures { TakesNewest position self.old self.new result }
    {
        match self.held.pop_back_if(|point| point.position >= position) {
            Some(newest) => Some(newest.undo),
            None => None,
        }
    }

    /// Drops the undos below a position.
    pub fn forget_below(&mut self, position: u64)
        ensures { self.new ≡ points_from self.old position }
    {
        while self.drop_oldest(position) {}
    }

    /// Drops the oldest undo, where it stands below a position.
    fn drop_oldest(&mut self, position: u64) -> bool
        ensures { DropsOldest position self.old self.new result }
    {
        match self.held.pop_front_if(|point| point.position < position) {
            Some(_) => true,
            None => false,
        }
    }
}
