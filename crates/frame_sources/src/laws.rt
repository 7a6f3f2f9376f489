//! What is shown of frames and steps.
ghost use Rattle.std.specs.Prelude.{◌≡◌, ◌++◌, List, Option};
ghost use Rattle.std.specs.List.{AllByRecursion};
ghost use Rattle.link_faults.specs.declared.plan.FaultPlan.{FaultPlan};
ghost use Rattle.msg_wire.specs.declared.config.Config.{Config};
ghost use Rattle.msg_wire.specs.Steps.{AreValidMessages};
ghost use Rattle.net_model.specs.declared.journal.Stamped.{Stamped};
ghost use Rattle.node_actor.specs.Lanes.{Lane, send_steps};
ghost use Rattle.frame_sources.specs.Frames.{CarrySteps, ReceivedMeansSent};

/// Links that carry what a node's steps sent carry so what these and further steps sent, once those are sent, whatever the faults.
pub fn links_carry_steps()
    ensures { (cfg : Config) (plan : Option FaultPlan) (steps more : List Stamped) (lanes : List Lane)
        → AllByRecursion (λ (x : Stamped). AreValidMessages x.entry.sends) more → CarrySteps steps lanes
        → CarrySteps (steps ++ more) (send_steps cfg plan more lanes) }
{}

/// What is delivered was sent by a step with a smaller stamp, where each node takes what it received, and received what the nodes' steps sent.
/// A frame that was cut short is never taken for a message.
pub fn deliveries_are_sent()
    ensures { ReceivedMeansSent }
{}
