//! Laws of every life of a consumer, over any application: each function's contract is the law, and it does nothing.
ghost use Rattle.consumer_node.specs.Apps.{meaning};
ghost use Rattle.consumer_node.specs.Laws.{RestartIsTheItems, StepsAreValid, AnyStepsAreValid};

use app_law::App;

/// After any valid events, what a restart in place leaves of a consumer is what its stored items alone give.
pub fn restart_is_the_items<A: App>()
    ensures { RestartIsTheItems (meaning A.fresh_state A.next_state A.output_of) }
{}

/// After any valid events, what the step of one more valid event stores and sends is valid.
pub fn steps_are_valid<A: App>()
    ensures { StepsAreValid (meaning A.fresh_state A.next_state A.output_of) }
{}

/// So of the application of any kind, with nothing asked of what it writes: after whatever records that has at most 64 bytes.
pub fn any_steps_are_valid()
    ensures { AnyStepsAreValid }
{}
