//! What a frame brings to a node.

ghost use Rattle.std.specs.Prelude.{◌≡◌, ◌↔◌, Some, None, IsTrue, IfOk, IfSome, IfNone};
ghost use Rattle.msg_wire.specs.Valid.{IsValidConfig};
ghost use Rattle.net_model.specs.Names.{Message as TheMessage};
ghost use Rattle.node_actor.specs.Cores.{IsBetween, IsReadFrom};

use msg_wire::{Config, Message, WireError, decode, is_node_of, same_node};
use node_order::rank_of;
use quota_table::{Bytes, OutOfMemory};
use spec_base::NodeId;
use std::alloc::Global;

/// The message of the bytes, where they spell one from the node at this place to this node.
pub fn read(
    alloc: Global,
    cfg: &Config,
    name: NodeId,
    from: usize,
    bytes: &Bytes,
) -> Result<Option<Message>, OutOfMemory>
    requires { IsValidConfig cfg.now }
    ensures some { IfOk result (λ found. IfSome found (IsReadFrom cfg.now name from bytes.now)) }
    ensures none { IfOk result (λ found. IfNone found ((message : TheMessage) → IsReadFrom cfg.now name from bytes.now message → ⊥)) }
{
    match decode(alloc, bytes.as_slice()) {
        Ok(message) => {
            if is_from(cfg, name, from, &message) {
                Ok(Some(message))
            } else {
                Ok(None)
            }
        }
        Err(WireError::OutOfMemory) => Err(OutOfMemory),
        Err(_) => Ok(None),
    }
}

/// Whether a message is from the node at this place, and to this node.
fn is_from(cfg: &Config, name: NodeId, from: usize, message: &Message) -> bool
    requires { IsValidConfig cfg.now }
    ensures { IsTrue result ↔ IsBetween cfg.now name from message.now }
{
    same_node(message.to, name)
        && is_node_of(cfg, message.from)
        && rank_of(cfg, message.from) == from
}
