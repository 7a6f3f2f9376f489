ghost use Rattle.std.specs.Prelude.{◌≡◌, ◌<◌, ◌≤◌, ◌^◌, length, OnOk, OnErr};
ghost use Rattle.std.specs.List.{slice_get};
ghost use Rattle.std.specs.Option.{option_copied};
ghost use Rattle.client_node.specs.States.{fresh_client};
ghost use Rattle.client_node.specs.Sound.{IsOwn};
ghost use Rattle.client_node.specs.Rules.{with_body, with_ack, with_home};

use node_rules::Node;
use quota_table::OutOfMemory;
use record_codec::Body;
use std::alloc::Global;
use std::marker::Model;

/// The number at which numbers end.
pub(crate) const MOST_NUMBERS: u64 = 1 << 48;

/// What a client has, beside what every node has. Contracts see it as a `ClientState`, of which `IsOwn` holds.
#[derive(Debug, Drop)]
pub struct ClientOwn {
    /// What was submitted, by number; at most 2^48 bodies.
    bodies: Vec<Body>,
    /// How many of them are acknowledged, at most 2^48.
    acked: u64,
    /// The shard that the client sends to, 0 to 5.
    home: u8,
    /// The first number that the client sends there, at most 2^48.
    first: u64,
}

/// A client: a node with the state of its kind.
pub(crate) type Client = Node<ClientOwn>;

impl Model for ClientOwn {
    ghost use Rattle.client_node.specs.States.{ClientState};

    ghost Value = { ClientState };

    ghost use Rattle.client_node.specs.Sound.{IsOwn};

    ghost view = { λ o. record { bodies = o.bodies.items; acked = o.acked; home = o.home; first = o.first } };

    ghost invariant = { λ o. IsOwn (record { bodies = o.bodies.items; acked = o.acked; home = o.home; first = o.first }) };
}

impl ClientOwn {
    /// Nothing is submitted, and the home is this shard. It takes no memory.
    pub(crate) fn new(alloc: Global, home: u8) -> ClientOwn
        requires { home ≤ 5 }
        ensures { result ≡ fresh_client home }
    {
        ClientOwn {
            bodies: Vec::new(alloc),
            acked: 0,
            home,
            first: 0,
        }
    }

    /// How many bodies were submitted: the number of the next one, at most 2^48.
    pub(crate) fn count(&self) -> u64
        ensures count { result ≡ length self.now.bodies }
        ensures sound { IsOwn self.now }
    {
        self.bodies.len() as u64
    }

    /// The body of a number. None exactly where it was not submitted.
    pub(crate) fn body(&self, number: u64) -> Option<&Body>
        ensures { option_copied result ≡ slice_get self.now.bodies number }
    {
        self.bodies.get(number as usize)
    }

    /// How many bodies are acknowledged, at most 2^48.
    pub(crate) fn acked(&self) -> u64
        ensures acked { result ≡ self.now.acked }
        ensures sound { IsOwn self.now }
    {
        self.acked
    }

    /// The shard that the client sends to, 0 to 5.
    pub(crate) fn home(&self) -> u8
        ensures home { result ≡ self.now.home }
        ensures sound { IsOwn self.now }
    {
        self.home
    }

    /// The first number that the client sends to its home, at most 2^48.
    pub(crate) fn first(&self) -> u64
        ensures first { result ≡ self.now.first }
        ensures sound { IsOwn self.now }
    {
        self.first
    }

    /// Takes the body of the next number. At an error all is as before.
    pub(crate) fn push(&mut self, body: Body) -> Result<(), OutOfMemory>
        requires { length self.old.bodies < 2 ^ 48 }
        ensures ok { OnOk result (self.new ≡ with_body body self.old) }
        ensures err { OnErr result (self.new ≡ self.old) }
    {
        let _within = body.len();
        self.bodies.push(body)?;
        Ok(())
    }

    /// One number more is acknowledged.
    pub(crate) fn acknowledge(&mut self)
        requires { self.old.acked < 2 ^ 48 }
        ensures { self.new ≡ with_ack self.old }
    {
        self.acked += 1;
    }

    /// The client sends to this shard from now on, beginning with the number `first`.
    pub(crate) fn move_to(&mut self, home: u8, first: u64)
        requires home { home ≤ 5 }
        requires first { first ≤ 2 ^ 48 }
        ensures { self.new ≡ with_home home first self.old }
    {
        self.home = home;
        self.first = first;
    }
}
