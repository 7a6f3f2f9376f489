//! Links between two actors that are both at hand: all that was queued is brought to the receiver's end.

ghost use Rattle.std.specs.Prelude.{◌≡◌, OnOk};
ghost use Rattle.node_actor.specs.Settling.{AreEnds, AreSettledEnds, HaveAll, with_outs_of, with_ins_of};

use crate::actor::NodeActor;
use net_model::NodeModel;
use node_links::{LinkIn, LinkOut, settle};
use quota_table::OutOfMemory;
use spec_base::Disk;

/// Brings all that the sender queued for the receiver to the receiver's end of their link. `to` is the receiver's place, and `from` the
/// sender's. Where memory is refused no frame is lost, and a further call goes on.
pub fn settle_between<N: NodeModel + Drop, D: Disk + Drop>(
    sender: &mut NodeActor<N, D>,
    to: usize,
    receiver: &mut NodeActor<N, D>,
    from: usize,
) -> Result<(), OutOfMemory>
    requires { AreEnds sender.old.outs.items to receiver.old.ins.items from }
    ensures sender { sender.new ≡ with_outs_of sender.new sender.old }
    ensures receiver { receiver.new ≡ with_ins_of receiver.new receiver.old }
    ensures settled { AreSettledEnds sender.old.outs.items sender.new.outs.items to receiver.old.ins.items receiver.new.ins.items from }
    ensures all { OnOk result (HaveAll sender.new.outs.items to receiver.new.ins.items from) }
{
    settle_ends(&mut sender.outs, to, &mut receiver.ins, from)
}

impl<N: NodeModel + Drop, D: Disk + Drop> NodeActor<N, D> {
    /// The same for the link of a node to itself.
    pub fn settle_own(&mut self, place: usize) -> Result<(), OutOfMemory>
        requires { AreEnds self.old.outs.items place self.old.ins.items place }
        ensures links { self.new ≡ with_outs_of self.new (with_ins_of self.new self.old) }
        ensures settled { AreSettledEnds self.old.outs.items self.new.outs.items place self.old.ins.items self.new.ins.items place }
        ensures all { OnOk result (HaveAll self.new.outs.items place self.new.ins.items place) }
    {
        settle_ends(&mut self.outs, place, &mut self.ins, place)
    }
}

fn settle_ends(
    outs: &mut [LinkOut],
    to: usize,
    ins: &mut [LinkIn],
    from: usize,
) -> Result<(), OutOfMemory>
    requires { AreEnds outs.old to ins.old from }
    ensures settled { AreSettledEnds outs.old outs.new to ins.old ins.new from }
    ensures all { OnOk result (HaveAll outs.new to ins.new from) }
{
    settle(&mut outs[to], &mut ins[from])
}
