/// What an acceptor answers to a prepare.
#[derive(Debug, Drop, PartialEq)]
pub enum PrepareAnswer<V> {
    /// A greater ballot is promised; nothing changed.
    Lower {
        /// The greater ballot.
        promised: u32,
    },
    /// The ballot is promised: none below it is taken from now on.
    Promised {
        /// The acceptance of the greatest ballot so far, with its ballot.
        accepted: Option<(u32, V)>,
    },
}

/// What an acceptor answers to an accept.
#[derive(Clone, Copy, Debug, Drop, PartialEq, Eq)]
pub enum AcceptAnswer {
    /// A greater ballot is promised; nothing changed.
    Lower {
        /// The greater ballot.
        promised: u32,
    },
    /// The value is accepted at the ballot, which is promised too.
    Taken,
}

/// What a proposer answers to a promise.
#[derive(Debug, Drop, PartialEq)]
pub enum PromiseAnswer<V> {
    /// A value is being sent already; nothing changed.
    Late,
    /// The own acceptor has promised a greater ballot; nothing changed.
    Lower {
        /// The greater ballot.
        promised: u32,
    },
    /// The promises are no majority yet.
    Waiting {
        /// Distinct replicas that have promised, the own one included.
        have: u8,
    },
    /// A majority has promised. The own acceptor has accepted this value, which the others are to be sent now.
    Send {
        /// The value of the greatest ballot reported, or the wish where none was.
        value: V,
    },
}

/// What a proposer answers to an acceptance.
#[derive(Clone, Copy, Debug, Drop, PartialEq, Eq)]
pub enum AcceptedAnswer {
    /// No value is being sent; nothing changed.
    Early,
    /// The acceptances are no majority yet.
    Waiting {
        /// Distinct replicas that have accepted, the own one included.
        have: u8,
    },
    /// A majority has accepted the value at this ballot: it is chosen.
    Chosen,
}
