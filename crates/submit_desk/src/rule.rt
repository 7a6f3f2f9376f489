//! The rule of a desk, as the queue asks for it, and what each call tells and learns.
ghost use Rattle.std.specs.Prelude.{ℕ};
ghost use Rattle.submit_desk.specs.Rule.{Accounts, EndsWith, Gets, Puts};

use crate::item::DeskItem;
use crate::knows::Knows;
use crossbeam_queue::protocol::{Join, Lesson, Outcome, Protocol, Split};
use std::marker::{Brand, PhantomData};

/// One history of all that was submitted: what was taken, and then what the desk holds.
pub(crate) struct InOrder;

impl Protocol<DeskItem, Knows> for InOrder {
    ghost use Rattle.std.specs.Prelude.{[]};
    ghost use Rattle.submit_desk.specs.Passes.{taker};
    ghost use Rattle.submit_desk.specs.Rule.{Delivers};

    ghost holds = { Delivers };

    ghost first = { taker [] 0 [] };
}

/// An item is submitted.
pub(crate) struct Submits;

impl Outcome<DeskItem, Knows> for Submits {
    ghost then = { Puts };
}

impl Lesson<DeskItem, Knows> for Submits {
    ghost fact = { EndsWith };
}

/// An item is taken.
pub(crate) struct Takes;

impl Outcome<DeskItem, Knows> for Takes {
    ghost then = { Gets };
}

impl Lesson<DeskItem, Knows> for Takes {
    ghost fact = { Accounts };
}

/// A submitter's number, which is known only as the program runs. The call that makes a pass picks it.
pub(crate) trait Number {
    ghost by: { ℕ };
}

impl Number for Brand {
    ghost by = { 0 };
}

/// A pass is made of the taking one for submitter `N.by`.
pub(crate) struct Seats<N: Number> {
    of: PhantomData<N>,
}

impl<N: Number> Split<Knows> for Seats<N> {
    ghost use Rattle.std.specs.Prelude.{[]};
    ghost use Rattle.submit_desk.specs.Passes.{seated, submitter};

    ghost left = { λ v. seated v N.by };

    ghost right = { λ v. submitter N.by [] };
}

/// A submitter's pass comes back.
pub(crate) struct Comes;

impl Join<Knows> for Comes {
    ghost use Rattle.submit_desk.specs.Passes.{closed_by, spent};

    ghost both = { closed_by };

    ghost spent = { spent };
}
