ghost use Rattle.std.specs.Prelude.{◌≡◌, ◌≤◌, ◌<◌, ◌++◌, ◌∷◌, [], true, List, length, IfOk, OnOk, IfErr, IfSome, IfNone};
ghost use Rattle.crossbeam_queue.specs.Fifo.{Held};
ghost use Rattle.submit_desk.specs.declared.item.DeskItem.{DeskItem};
ghost use Rattle.submit_desk.specs.Passes.{items_of, taker, submitter, seated, closed_by};
ghost use Rattle.submit_desk.specs.Rule.{EndsWith, Accounts};

use crate::item::{DeskItem, Full};
use crate::knows::Knows;
use crate::pass::DeskPass;
use crate::rule::{Comes, InOrder, Number, Seats, Submits, Takes};
use crossbeam_queue::RuledArrayQueue;
use quota_table::OutOfMemory;
use std::alloc::Global;
use std::marker::{Brand, Model};
use std::sync::Wait;

/// A desk with room for a fixed number of items. Threads share it by `&`; each has a pass of its own.
///
/// Items that are submitted are one list, whose beginning was taken and whose rest lies on the desk. So each item is taken at
/// most once, and each submitter's in its order, with the number and the body that it was submitted with.
#[derive(Drop)]
pub struct Desk {
    queue: RuledArrayQueue<DeskItem, Knows, InOrder>,
}

impl Model for Desk {
    ghost use Rattle.submit_desk.specs.Passes.{DeskView};

    ghost Value = { DeskView };

    ghost view = { λ d. record { desk = d.queue.table.shared.table_id; capacity = d.queue.cap } };
}

impl Desk {
    /// An empty desk with room for `capacity` items, and its taking pass. It takes all the memory.
    pub fn new(alloc: Global, capacity: usize) -> Result<(Desk, DeskPass), OutOfMemory>
        requires { 0 < capacity }
        ensures capacity { IfOk result (λ made. made.0.capacity ≡ capacity) }
        ensures desk { IfOk result (λ made. made.1.desk ≡ made.0.desk) }
        ensures taking { IfOk result (λ made. made.1.knows ≡ taker [] 0 []) }
    {
        let (queue, pass) = RuledArrayQueue::ruled(alloc, capacity)?;
        Ok((Desk { queue }, DeskPass { pass }))
    }

    /// Submits the next item of the pass's submitter: its number is the count of those that the pass has submitted. `Full`
    /// gives the item back, and comes only where the desk was full at a moment of this call.
    pub fn submit<R: Wait>(&self, rt: &R, pass: &mut DeskPass, item: DeskItem) -> Result<(), Full>
        requires desk { pass.old.desk ≡ self.now.desk }
        requires submits { pass.old.knows.submits ≡ true }
        requires by { item.by ≡ pass.old.knows.by }
        requires number { item.number ≡ length pass.old.knows.put }
        ensures desk { pass.new.desk ≡ pass.old.desk }
        ensures submitted { OnOk result (pass.new.knows ≡ submitter pass.old.knows.by (pass.old.knows.put ++ item ∷ [])) }
        ensures back { IfErr result (λ full. (full.0 ≡ item) × (pass.new.knows ≡ pass.old.knows)) }
        ensures full { IfErr result (λ _. Held self.now.capacity (EndsWith pass.old.knows)) }
    {
        let pushed = self.queue.push_as::<Submits, R>(rt, &mut pass.pass, item);
        pushed.map_err(Full)
    }

    /// Takes the oldest item. It is the next one of its submitter. `None` comes only where the desk was empty at a moment of
    /// this call.
    pub fn take<R: Wait>(&self, rt: &R, pass: &mut DeskPass) -> Option<DeskItem>
        requires desk { pass.old.desk ≡ self.now.desk }
        requires takes { pass.old.knows.takes ≡ true }
        ensures desk { pass.new.desk ≡ pass.old.desk }
        ensures taken { IfSome result (λ item. pass.new.knows ≡ taker (pass.old.knows.got ++ item ∷ []) pass.old.knows.next pass.old.knows.closed) }
        ensures next { IfSome result (λ item. item.number ≡ length (items_of item.by pass.old.knows.got)) }
        ensures by { IfSome result (λ item. (item.by < pass.old.knows.next) × (item.by ≤ 7)) }
        ensures none { IfNone result (pass.new.knows ≡ pass.old.knows) }
        ensures empty { IfNone result (Held 0 (Accounts pass.old.knows)) }
    {
        self.queue.pop_as::<Takes, R>(rt, &mut pass.pass)
    }

    /// Makes the pass of submitter `by`, which has had none and is above all that have.
    pub fn split<R: Wait>(&self, _rt: &R, pass: &mut DeskPass, by: u8) -> DeskPass
        requires desk { pass.old.desk ≡ self.now.desk }
        requires takes { pass.old.knows.takes ≡ true }
        requires by { (by ≤ 7) × (pass.old.knows.next ≤ by) }
        ensures desk { (pass.new.desk ≡ pass.old.desk) × (result.desk ≡ pass.old.desk) }
        ensures stays { pass.new.knows ≡ seated pass.old.knows by }
        ensures made { result.knows ≡ submitter by [] }
    {
        self.split_as::<Brand>(pass, by)
    }

    /// The same, by a type that has the submitter's number.
    fn split_as<N: Number>(&self, pass: &mut DeskPass, by: u8) -> DeskPass
        requires desk { pass.old.desk ≡ self.now.desk }
        requires number { by ≡ N.by }
        requires takes { pass.old.knows.takes ≡ true }
        requires by { (by ≤ 7) × (pass.old.knows.next ≤ by) }
        ensures desk { (pass.new.desk ≡ pass.old.desk) × (result.desk ≡ pass.old.desk) }
        ensures stays { pass.new.knows ≡ seated pass.old.knows by }
        ensures made { result.knows ≡ submitter by [] }
    {
        DeskPass {
            pass: self.queue.another::<Seats<N>>(&mut pass.pass),
        }
    }

    /// Gives a submitter's pass back to the taking one. What was taken of each submitter that is back, and what lies on the
    /// desk of it, is then all that it submitted.
    pub fn join<R: Wait>(&self, _rt: &R, pass: &mut DeskPass, other: DeskPass)
        requires desk { (pass.old.desk ≡ self.now.desk) × (other.desk ≡ self.now.desk) }
        requires takes { pass.old.knows.takes ≡ true }
        requires submits { other.knows.submits ≡ true }
        ensures desk { pass.new.desk ≡ pass.old.desk }
        ensures joined { pass.new.knows ≡ closed_by pass.old.knows other.knows }
        ensures accounts { (waiting : List DeskItem) × Accounts pass.new.knows waiting }
    {
        self.queue.absorb::<Comes>(&mut pass.pass, other.pass);
        self.queue.learn_as::<Takes>(&mut pass.pass);
    }
}
