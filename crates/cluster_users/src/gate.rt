ghost use Rattle.std.specs.Prelude.{◌≡◌, slice_get};
ghost use Rattle.std.specs.Option.{option_copied};

use spec_base::NodeId;
use std::alloc::Global;
use submit_desk::Desk;

/// What takes turns in an episode.
#[derive(Clone, Copy, Debug, PartialEq, Eq)]
pub enum Actor {
    /// A node of the cluster.
    Node { node: NodeId },
    /// A reader, by its number, 0 to 7.
    Reader { number: u8 },
    /// A submitter, by its number, 0 to 7.
    Submitter { number: u8 },
}

/// What is called before each turn of each actor of an episode. A test holds actors up there.
pub trait Gate {
    /// An actor is about to take this turn, counted from 0 in each episode.
    fn pass(&self, actor: Actor, turn: u32);
}

/// A gate that does nothing.
#[derive(Clone, Copy, Debug)]
pub struct Open;

impl Gate for Open {
    fn pass(&self, _actor: Actor, _turn: u32) {}
}

/// What all actors of an episode share.
pub struct Environment<'a, R, G> {
    pub rt: &'a R,
    pub alloc: Global,
    pub gate: &'a G,
    /// The desk of each client, at the client's number.
    pub desks: &'a [Desk],
}

impl<'a, R, G> Drop for Environment<'a, R, G> {
    fn drop(self) {
        let Self {
            rt: _,
            alloc: _,
            gate: _,
            desks: _,
        } = self;
    }
}

impl<'a, R, G> Environment<'a, R, G> {
    /// The desk of a client, if there is such a client.
    pub fn desk(&self, client: u8) -> Option<&'a Desk>
        ensures { option_copied result ≡ slice_get self.now.desks.now client }
    {
        self.desks.get(usize::from(client))
    }
}
