//! The steps of a history, as small as their numbers allow.

ghost use Rattle.std.specs.Prelude.{◌≡◌, ◌++◌, ◌∷◌, [], length, slice_get, IfSome, OnOk, OnErr};
ghost use Rattle.net_model.specs.inside.Steps.{wide_taken, wide_step};

use quota_table::OutOfMemory;
use spec_base::NodeId;
use std::alloc::Global;
use std::marker::Model;

/// What a step took, as it is kept.
#[derive(Clone, Copy)]
pub enum Taken {
    /// The message of this number.
    Message(usize),
    /// The event at this place among those that are kept whole.
    Whole(usize),
    Tick,
    Restart,
}

/// One step, as it is kept. Its sends and marks begin where those of the step before it end.
#[derive(Clone, Copy)]
pub struct KeptStep {
    /// The node that made the step.
    pub node: NodeId,
    /// What it took.
    pub taken: Taken,
    /// How many messages were sent by this step and those before it.
    pub sends_end: usize,
    /// How many marks were shown by this step and those before it.
    pub marks_end: usize,
}

/// As `Taken`, of a number or a place below 2^32.
#[derive(Clone, Copy)]
enum SmallTaken {
    Message(u32),
    Whole(u32),
    Tick,
    Restart,
}

/// As `KeptStep`, where each number is below 2^32.
#[derive(Clone, Copy)]
struct SmallStep {
    node: NodeId,
    taken: SmallTaken,
    sends_end: u32,
    marks_end: u32,
}

/// Steps in their order. Contracts see the list of them.
#[derive(Drop)]
pub struct Steps {
    /// The steps before the first that has a greater number.
    small: Vec<SmallStep>,
    /// That one and all after it.
    wide: Vec<KeptStep>,
}

impl Model for Steps {
    ghost use Rattle.std.specs.Prelude.{◌++◌, List, map};
    ghost use Rattle.net_model.specs.declared.steps.KeptStep.{KeptStep};

    ghost Value = { List KeptStep };

    ghost use Rattle.net_model.specs.inside.Steps.{wide_step};

    ghost view = { λ s. map wide_step s.small.items ++ s.wide.items };
}

impl Steps {
    /// No step. It takes no memory.
    pub fn new(alloc: Global) -> Steps
        ensures { result ≡ [] }
    {
        Steps {
            small: Vec::new(alloc),
            wide: Vec::new(alloc),
        }
    }

    pub fn len(&self) -> usize
        ensures { result ≡ length self.now }
    {
        self.small.len() + self.wide.len()
    }

    /// The step at an index; None at or past the end.
    pub fn get(&self, index: usize) -> Option<KeptStep>
        ensures { result ≡ slice_get self.now index }
    {
        match index.checked_sub(self.small.len()) {
            None => self.small.get(index).map(|step| widened(*step)),
            Some(after) => self.wide.get(after).copied(),
        }
    }

    /// Puts a step at the end. At an error the steps are as before.
    #[inline(always)]
    pub fn push(&mut self, step: KeptStep) -> Result<(), OutOfMemory>
        ensures ok { OnOk result (self.new ≡ self.old ++ step ∷ []) }
        ensures err { OnErr result (self.new ≡ self.old) }
    {
        if self.wide.is_empty() {
            if let Some(small) = narrowed(step) {
                self.small.push(small)?;
                return Ok(());
            }
        }
        self.wide.push(step)?;
        Ok(())
    }
}

fn widened(step: SmallStep) -> KeptStep
    ensures { result ≡ wide_step step }
{
    KeptStep {
        node: step.node,
        taken: match step.taken {
            SmallTaken::Message(number) => Taken::Message(number as usize),
            SmallTaken::Whole(place) => Taken::Whole(place as usize),
            SmallTaken::Tick => Taken::Tick,
            SmallTaken::Restart => Taken::Restart,
        },
        sends_end: step.sends_end as usize,
        marks_end: step.marks_end as usize,
    }
}

/// The small step of a step; None where one of its numbers is greater.
#[inline(always)]
fn narrowed(step: KeptStep) -> Option<SmallStep>
    ensures { IfSome result (λ small. wide_step small ≡ step) }
{
    let taken = narrowed_taken(step.taken)?;
    let sends_end = u32::try_from(step.sends_end).ok()?;
    let marks_end = u32::try_from(step.marks_end).ok()?;
    Some(SmallStep {
        node: step.node,
        taken,
        sends_end,
        marks_end,
    })
}

#[inline(always)]
fn narrowed_taken(taken: Taken) -> Option<SmallTaken>
    ensures { IfSome result (λ small. wide_taken small ≡ taken) }
{
    match taken {
        Taken::Message(number) => Some(SmallTaken::Message(u32::try_from(number).ok()?)),
        Taken::Whole(place) => Some(SmallTaken::Whole(u32::try_from(place).ok()?)),
        Taken::Tick => Some(SmallTaken::Tick),
        Taken::Restart => Some(SmallTaken::Restart),
    }
}
