//! What holds of every life of a client: each function's contract is the law, and it does nothing.

ghost use Rattle.client_node.specs.Laws.{RestartIsTheItems, StepsAreValid};

/// A restart in place leaves what the stored items alone give.
pub fn restart_is_the_items()
    ensures { RestartIsTheItems }
{}

/// What a step stores and sends is valid.
pub fn steps_are_valid()
    ensures { StepsAreValid }
{}
