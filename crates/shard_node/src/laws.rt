//! Laws of every life of a replica, over the step table alone.
ghost use Rattle.shard_node.specs.Laws.{RestartIsTheItems, StepsAreValid};
ghost use Rattle.shard_node.specs.Messages.{MessagesAreTrue};

/// After any valid events, what a restart in place leaves of a replica is what its stored items alone give.
pub fn restart_is_the_items()
    ensures { RestartIsTheItems }
{}

/// Every message that the step of any replica with any event sends is true of the log after it: a report, to a sequencer or to
/// the primary, tells at most the log's length, and a record that is replicated or delivered stands in the log at its local.
pub fn messages_are_true()
    ensures { MessagesAreTrue }
{}

/// After any valid events, what the step of one more valid event stores and sends is valid.
pub fn steps_are_valid()
    ensures { StepsAreValid }
{}
