ghost use Rattle.client_node.specs.Worked.{Worked};

/// The worked rows of `specs/Rows.antt`: what the step table gives in each.
#[tactic(auto, unfolding(crate::specs::States::reach))]
pub fn worked_compute()
    ensures { Worked }
{}
