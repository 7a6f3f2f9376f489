//! What holds of every run of a valid cluster by its step tables alone.
ghost use Rattle.safety_frame.specs.Sound.{StatesAreSound};
ghost use Rattle.safety_frame.specs.StableItems.{StableIsItems};
ghost use Rattle.safety_frame.specs.Steps.{StepsLeaveStates};
ghost use Rattle.safety_frame.specs.AgreedList.{AgreedListsAreLongest, KnownFolds};
ghost use Rattle.safety_frame.specs.Heeded.{MessagesAreHeeded};
ghost use Rattle.safety_frame.specs.Replicates.{ReplicatesTell};

/// Every valid run has sound states: each node's state is one of its kind and within its limits, and what is sent and stored is valid.
pub fn states_are_sound()
    ensures { StatesAreSound }
{}

/// The stable part of a node's state is what its items give, none of them passed over: known entries, acceptors, logs, submissions,
/// acknowledgements, homes, and what is confirmed.
pub fn stable_is_items()
    ensures { StableIsItems }
{}

/// An entry leaves its node what the node's table makes of its state, a restart too.
pub fn steps_leave_states()
    ensures { StepsLeaveStates }
{}

/// What entries agree on that begin what any node knows is consistent, and goes on as more of them come: of two known lists, one of which
/// begins the other, the maps agree below the removals between.
pub fn known_folds_hold()
    ensures { KnownFolds }
{}

/// The agreed list of a past is the longest that a sequencer knows.
pub fn agreed_is_longest()
    ensures { AgreedListsAreLongest }
{}

/// Every message is sent in its sender's name, from a node of the cluster to another node, between the classes of its kind, and is heeded
/// where it comes.
pub fn messages_are_heeded()
    ensures { MessagesAreHeeded }
{}

/// What a Replicate tells stands in its sender's log.
pub fn replicates_tell()
    ensures { ReplicatesTell }
{}
