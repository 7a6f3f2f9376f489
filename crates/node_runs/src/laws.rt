//! What is shown of the journals of nodes.
ghost use Rattle.runs.specs.Names.{Config};
ghost use Rattle.node_runs.specs.NodeRuns.{NodesMakeRuns};
ghost use Rattle.node_runs.specs.SeatedRuns.{SeatedNodesMakeRuns};

use net_model::NodeModel;
use spec_base::Disk;
use world::AnyNode;

/// The merge of journals of nodes is a run of the cluster: where each is a list of steps of a `world::AnyNode` from its start, its stamps rise, and
/// each delivered message was sent by a step with a smaller stamp.
pub fn merged_nodes_are_a_run()
    ensures { (cfg : Config) → NodesMakeRuns cfg }
{}

/// The merge of the journals of all nodes of a cluster, each at its seat, is a run, whatever the links lost, repeated, held or cut: once no node is
/// stopped and all links are settled.
pub fn seated_nodes_are_a_run<D: Disk + Drop>()
    ensures { SeatedNodesMakeRuns ⟦<AnyNode as NodeModel>⟧ ⟦<D as Disk>⟧ }
{}
