//! A consumer's view, as the consumer publishes it step by step.
ghost use Rattle.std.specs.Prelude.{◌≡◌, ◌≤◌, false, length, Some, IfOk, OnOk, OnErr};
ghost use Rattle.view_cell.specs.Looks.{newest_of};
ghost use Rattle.cluster_crew.specs.Marks.{no_marks, counts_in};
ghost use Rattle.cluster_crew.specs.Shown.{Publishes, Shows, on_show};

use crate::marks::{Counts, count_steps};
use net_model::{Stamped, View, Viewed};
use quota_table::OutOfMemory;
use std::marker::Model;
use std::sync::Wait;
use view_cell::{Look, Publisher, Told};

/// The end on which a consumer publishes its view, and what of its steps was shown.
#[derive(Drop)]
pub struct Showing<P: Wait + Drop> {
    publisher: Publisher<P>,
    /// The counts of the marks of those steps.
    counts: Counts,
    /// How many steps of the consumer's journal were shown.
    steps: usize,
    /// Whether memory was wanted for a look, or a count had no room.
    wanting: bool,
}

impl<P: Wait + Drop> Model for Showing<P> {
    ghost use Rattle.std.specs.Prelude.{◌≡◌};
    ghost use Rattle.cluster_crew.specs.Marks.{counts_in};
    ghost use Rattle.cluster_crew.specs.Shown.{OnShow, on_show};

    ghost Value = { OnShow };

    ghost view = { λ s. on_show s.publisher s.steps s.wanting };

    ghost invariant = { λ s. s.counts ≡ counts_in s.publisher.newest };
}

impl<P: Wait + Drop> Showing<P> {
    /// A consumer that took no step yet, with the end of its view on which it publishes.
    pub fn new(publisher: Publisher<P>) -> Showing<P>
        requires { counts_in publisher.newest ≡ no_marks }
        ensures { result ≡ on_show publisher 0 false }
    {
        Showing {
            publisher,
            counts: Counts { ops: 0, epoch: 0 },
            steps: 0,
            wanting: false,
        }
    }

    /// Whether memory was wanted for a look, or a count had no room. Nothing is shown any more then.
    pub fn is_wanting(&self) -> bool
        ensures { result ≡ self.now.wanting }
    {
        self.wanting
    }

    /// A note of the look that was published last. It takes no memory, and the answer is always Ok.
    pub fn tell(&mut self) -> Result<Told, OutOfMemory>
        ensures told { IfOk result (λ told. told ≡ self.old.published) }
        ensures newest { newest_of self.old.published.looks ≡ Some self.old.published.newest }
        ensures kept { self.new ≡ self.old }
    {
        self.publisher.tell()
    }

    /// Publishes the view of a node whose journal has these steps, where those that weren't shown yet made marks.
    ///
    /// Where memory is wanted for it, where a count has no room, and where the node has no view, the showing is wanting from then on.
    pub fn show<N: Viewed>(&mut self, node: &N, steps: &[Stamped])
        requires { self.old.wanting ≡ false → self.old.steps ≤ length steps.now }
        ensures { Shows (N.shows node.now) steps.now self.old self.new }
    {
        if self.wanting {
            return;
        }
        let Some(counts) = count_steps(self.counts, &steps[self.steps..]) else {
            self.wanting = true;
            return;
        };
        match self.publish(node.view(), counts) {
            Ok(()) => self.steps = steps.len(),
            Err(OutOfMemory) => self.wanting = true,
        }
    }

    /// Publishes a view with these counts, where marks are among them that no look told.
    fn publish(&mut self, view: Option<View>, counts: Counts) -> Result<(), OutOfMemory>
        ensures ok { OnOk result (Publishes view counts self.old.published self.new.published) }
        ensures err { OnErr result (self.new.published ≡ self.old.published) }
        ensures rest { (self.new.steps ≡ self.old.steps) × (self.new.wanting ≡ self.old.wanting) }
    {
        if counts.ops <= self.counts.ops {
            return Ok(());
        }
        let Some(
            View {
                applied,
                confirmed,
                shown,
            },
        ) = view
        else {
            return Err(OutOfMemory);
        };
        self.publisher.publish(Look {
            ops: counts.ops,
            epoch: counts.epoch,
            applied,
            confirmed,
            shown,
        })?;
        self.counts = counts;
        Ok(())
    }
}
