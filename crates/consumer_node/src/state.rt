ghost use Rattle.std.specs.Prelude.{◌≡◌, ◌+◌, ◌<◌, ◌≤◌, ◌^◌, ◌++◌, ◌∷◌, [], length, IfOk, OnOk, OnErr};
ghost use Rattle.std.specs.Option.{option_copied};
ghost use Rattle.spec_delivery.specs.Buffers.{record_at, answer_to, with_record, with_end};
ghost use Rattle.spec_delivery.specs.Lanes.{is_kept};
ghost use Rattle.app_law.specs.Positions.{below};
ghost use Rattle.undo_points.specs.Points.{pushed};
ghost use Rattle.output_gate.specs.Gates.{out_position, holding, gate_from};
ghost use Rattle.consumer_node.specs.Apps.{meaning};
ghost use Rattle.consumer_node.specs.States.{fresh_consumer, applied_of, app_state, with_lanes, with_pending, cut_off};
ghost use Rattle.consumer_node.specs.Restart.{reset_own};
ghost use Rattle.consumer_node.specs.Speculation.{with_confirmed};
ghost use Rattle.consumer_node.specs.inside.Kept.{HasRoom};
ghost use Rattle.consumer_node.specs.inside.Confirming.{ConfirmsOldest, HasOutput};

use app_law::App;
use fix_ante::Owner;
use node_rules::Node;
use output_gate::OutputGate;
use quota_table::OutOfMemory;
use record_codec::{AppKind, Output, Record, Shown};
use spec_delivery::Buffer;
use std::alloc::Global;
use std::collections::VecDeque;
use std::marker::Model;
use undo_points::UndoPoints;

/// The greatest number of records that are applied beyond the confirmed ones: as many as are held, 640 of each of 6
/// shards at most.
const MOST_PENDING: usize = 3840;

/// What a consumer has, beside what every node has. Contracts see it as a `ConsumerState`, whose `base` is the
/// application taken back to the confirmed records.
#[derive(Drop)]
pub struct ConsumerOwn<A: App> {
    /// The records that were delivered and are not confirmed yet.
    buffer: Buffer,
    /// What takes each record back that is applied beyond the confirmed ones.
    undos: UndoPoints<A::Undo>,
    /// The output of each of these records.
    gate: OutputGate,
    /// The application, after all applied records.
    app: A,
    /// The records that are applied beyond the confirmed ones, in order of position.
    pending: VecDeque<Record>,
    /// How many positions are confirmed, at most 2^48.
    confirmed: u64,
}

/// A consumer: a node with the state of its kind.
pub(crate) type Consumer<A> = Node<ConsumerOwn<A>>;

impl<A: App> Model for ConsumerOwn<A> {
    ghost use Rattle.consumer_node.specs.States.{ConsumerState};

    ghost Value = { ConsumerState A };

    ghost use Rattle.undo_points.specs.Points.{taken_back};
    ghost use Rattle.consumer_node.specs.inside.Kept.{IsAppliedAhead, AreLanes};

    ghost view = { λ o. record { lanes = o.buffer; confirmed = o.confirmed; base = taken_back A.restored o.undos.held o.app; pending = o.pending.items } };

    ghost invariant = { λ o. IsAppliedAhead A.next_state A.output_of A.restored o.undos o.gate o.app o.pending.items o.confirmed × AreLanes o.confirmed o.buffer };
}

impl<A: App> ConsumerOwn<A> {
    /// Nothing is held, applied or confirmed. It takes the memory of all undos and outputs that there can be.
    pub(crate) fn new(alloc: Global, kind: AppKind) -> Result<ConsumerOwn<A>, OutOfMemory>
        ensures { IfOk result (λ own. own ≡ fresh_consumer (meaning A.fresh_state A.next_state A.output_of) kind) }
    {
        Ok(ConsumerOwn {
            buffer: Buffer::new(alloc)?,
            undos: UndoPoints::with_room(alloc, MOST_PENDING)?,
            gate: OutputGate::with_room(alloc, MOST_PENDING)?,
            app: A::fresh(kind),
            pending: VecDeque::new(alloc),
            confirmed: 0,
        })
    }

    /// How many positions are confirmed, at most 2^48.
    pub(crate) fn confirmed(&self) -> u64
        ensures confirmed { result ≡ self.now.confirmed }
        ensures most { result ≤ 2 ^ 48 }
        ensures shards { length self.now.lanes ≡ 6 }
    {
        self.confirmed
    }

    /// How many positions are applied: the confirmed ones, and at most 3,840 beyond them.
    pub(crate) fn applied(&self) -> u64
        ensures applied { result ≡ applied_of self.now }
        ensures most { result ≤ 2 ^ 48 + 3840 }
    {
        self.confirmed + self.pending.len() as u64
    }

    /// The record that is held of an owner; None exactly where none is.
    pub(crate) fn held(&self, shard: u8, local: u64) -> Option<&Record>
        requires { shard ≤ 5 }
        ensures { option_copied result ≡ record_at self.now.lanes shard local }
    {
        self.buffer.at(shard, local)
    }

    /// Whether a record that is put at a shard's local would be held from then on.
    pub(crate) fn wants(&self, shard: u8, local: u64) -> bool
        requires { shard ≤ 5 }
        ensures { result ≡ is_kept (answer_to self.now.lanes shard local) }
    {
        self.buffer.wants(shard, local)
    }

    /// The application's state after all applied records, as text.
    pub(crate) fn show(&self) -> Shown
        ensures { result ≡ A.shown_of (app_state (meaning A.fresh_state A.next_state A.output_of) self.now) }
    {
        self.app.show()
    }

    /// Holds a record, where it is wanted. At an error all is as before.
    pub(crate) fn put(&mut self, shard: u8, local: u64, rec: &Record) -> Result<(), OutOfMemory>
        requires { shard ≤ 5 }
        ensures ok { OnOk result (self.new ≡ with_lanes (with_record self.old.lanes shard local rec.now) self.old) }
        ensures err { OnErr result (self.new ≡ self.old) }
    {
        let _put = self.buffer.put(shard, local, rec)?;
        Ok(())
    }

    /// Sets a shard's end, and drops what is held at or past it. Where it has that end already, it costs O(1).
    pub(crate) fn close(&mut self, shard: u8, end: u64)
        requires { shard ≤ 5 }
        ensures { self.new ≡ with_lanes (with_end self.old.lanes shard end) self.old }
    {
        close_lane(&mut self.buffer, shard, end);
    }

    /// Applies the record of the next position. At an error all is as before.
    pub(crate) fn apply(&mut self, rec: Record) -> Result<(), OutOfMemory>
        requires room { length self.old.pending < 3840 }
        ensures ok { OnOk result (self.new ≡ with_pending (self.old.pending ++ rec ∷ []) self.old) }
        ensures err { OnErr result (self.new ≡ self.old) }
    {
        self.pending.reserve(1)?;
        let position = self.confirmed + self.pending.len() as u64;
        let (undo, output) = self.app.apply(&rec);
        keep(&mut self.undos, &mut self.gate, position, undo, output);
        self.pending.push_back_reserved(rec);
        Ok(())
    }

    /// Takes back what is applied from a position on, at the cost of what is taken back. What is confirmed stays.
    pub(crate) fn cut_to(&mut self, first: u64)
        ensures { self.new ≡ cut_off first self.old }
    {
        self.undos.back_to(first, &mut self.app);
        self.gate.drop_from(first);
        let stay = first.saturating_sub(self.confirmed);
        self.pending.truncate(stay as usize);
    }

    /// Confirms the oldest record that is applied and not confirmed, which is this owner's, and gives it with its output.
    pub(crate) fn confirm(&mut self, owner: Owner) -> Option<(Record, Output)>
        requires shard { owner.shard ≤ 5 }
        requires more { self.old.confirmed < 2 ^ 48 }
        ensures { ConfirmsOldest (meaning A.fresh_state A.next_state A.output_of) owner self.old self.new result }
    {
        let rec = self.pending.pop_front()?;
        self.confirmed += 1;
        self.undos.forget_below(self.confirmed);
        let output = release(&mut self.gate, self.confirmed);
        self.buffer.raise(owner.shard);
        Some((rec, output))
    }

    /// Counts a record as confirmed that was confirmed before a restart.
    pub(crate) fn confirm_stored(&mut self, rec: &Record, owner: Owner)
        requires shard { owner.shard ≤ 5 }
        requires more { self.old.confirmed < 2 ^ 48 }
        requires none { self.old.pending ≡ [] }
        ensures { self.new ≡ with_confirmed (meaning A.fresh_state A.next_state A.output_of) rec.now owner self.old }
    {
        let (_undo, _output) = self.app.apply(rec);
        self.confirmed += 1;
        self.buffer.raise(owner.shard);
    }

    /// Drops what is held, and takes back all that is not confirmed.
    pub(crate) fn reset(&mut self)
        ensures { self.new ≡ reset_own self.old }
    {
        self.cut_to(self.confirmed);
        self.buffer.clear();
    }
}

/// Keeps what takes the record of a position back, and its output, until it is confirmed.
fn keep<U: Drop>(
    undos: &mut UndoPoints<U>,
    gate: &mut OutputGate,
    position: u64,
    undo: U,
    output: Output,
)
    requires { HasRoom undos.old gate.old position }
    ensures undos { undos.new ≡ pushed undos.old position undo }
    ensures gate { gate.new ≡ holding gate.old position output }
{
    undos.push(position, undo);
    gate.hold(position, output);
}

/// Closes a shard of a buffer, unless it has that end already: then all that it holds is before it.
fn close_lane(buffer: &mut Buffer, shard: u8, end: u64)
    requires { shard ≤ 5 }
    ensures { buffer.new ≡ with_end buffer.old shard end }
{
    let _reach = buffer.floor(shard);
    if buffer.end(shard) != Some(end) {
        buffer.close(shard, end);
    }
}

/// The output of the oldest position, which alone is below this one; the outputs from there on stay.
fn release(gate: &mut OutputGate, position: u64) -> Output
    requires { length (below out_position position gate.old.held) ≡ 1 }
    ensures gate { gate.new ≡ gate_from gate.old position }
    ensures output { HasOutput (below out_position position gate.old.held) result }
{
    match gate.take_oldest(position) {
        Some(kept) => {
            // That it has at most 64 bytes.
            let _len = kept.out.len();
            kept.out
        }
        None => Output::new(),
    }
}
