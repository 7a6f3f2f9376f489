//! What is shown of journals, over any step tables.
ghost use Rattle.net_model.specs.Names.{NodeId};
ghost use Rattle.net_model.specs.Tables.{StepTable};
ghost use Rattle.net_model.specs.Sources.{MergesFollow};

/// Whatever the nodes' step tables are: where each journal follows its node's table, and each delivered message was sent by
/// a step with a smaller stamp, the merge follows the tables, and what is delivered in it was sent before.
pub fn merges_follow<S>()
    ensures { (tables : NodeId → StepTable S) → MergesFollow {S = λ _. S} tables }
{}
