//! Laws of every life of a sequencer, over the step table alone.
ghost use Rattle.seq_node.specs.Laws.{RestartIsTheItems, StepsAreValid};
ghost use Rattle.seq_node.specs.Messages.{MessagesAreTrue};

/// After any valid events, what a restart in place leaves of a sequencer is what its stored items alone give.
pub fn restart_is_the_items()
    ensures { RestartIsTheItems }
{}

/// After any valid events, what the step of one more valid event stores and sends is valid.
pub fn steps_are_valid()
    ensures { StepsAreValid }
{}

/// Every message that the step of any sequencer with any event sends is true of the entries that it knows after it: a decided
/// entry is the known one of its slot, and its count is above the slot and at most the number of known entries.
pub fn messages_are_true()
    ensures { MessagesAreTrue }
{}
