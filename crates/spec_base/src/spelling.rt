ghost use Rattle.std.specs.Prelude.{◌≡◌, ◌+◌, ◌≤◌, ◌∷◌, ℕ, IfSome, IfNone, option_to_list};
ghost use Rattle.spec_base.specs.declared.node.NodeId.{NodeId};
ghost use Rattle.spec_base.specs.Spelling.{IsValidNode, node_name};

use crate::node::{NodeId, Side};
use arrayvec::ArrayVec;
use std::marker::Model;

/// The name of a node, two or three bytes of ASCII, which take no memory. Contracts see it as those bytes.
#[derive(Debug, Drop)]
pub struct NodeName {
    bytes: ArrayVec<u8, 3>,
}

impl Model for NodeName {
    ghost use Rattle.std.specs.Prelude.{ℕ, List};

    ghost Value = { List ℕ };

    ghost view = { λ n. n.bytes.items };
}

impl NodeName {
    pub fn as_slice(&self) -> &[u8]
        ensures { result.now ≡ self.now }
    {
        self.bytes.as_slice()
    }
}

/// The name of a node: `q0`, `s1p`, `s1b`, `c2`, `k0`.
pub fn spell(node: NodeId) -> NodeName
    requires { IsValidNode node }
    ensures { result ≡ node_name node }
{
    let (class, number, end) = match node {
        NodeId::Seq(number) => (b'q', number, None),
        NodeId::Shard(number, Side::Primary) => (b's', number, Some(b'p')),
        NodeId::Shard(number, Side::Backup) => (b's', number, Some(b'b')),
        NodeId::Client(number) => (b'c', number, None),
        NodeId::Consumer(number) => (b'k', number, None),
    };
    named(class, number, end)
}

fn named(class: u8, number: u8, end: Option<u8>) -> NodeName
    requires { number ≤ 9 }
    ensures { result ≡ class ∷ (48 + number) ∷ option_to_list end }
{
    let mut bytes = ArrayVec::new();
    bytes.push(class);
    bytes.push(b'0' + number);
    if let Some(side) = end {
        bytes.push(side);
    }
    NodeName { bytes }
}

/// The node of this name. None exactly where no node within the limits has it.
pub fn unspell(text: &[u8]) -> Option<NodeId>
    ensures found { IfSome result (λ node. IsValidNode node × (text.now ≡ node_name node)) }
    ensures only { (node : NodeId) → IsValidNode node → text.now ≡ node_name node → result ≡ Some node }
{
    match text {
        [b'q', digit] => Some(NodeId::Seq(number(*digit, 4)?)),
        [b's', digit, b'p'] => Some(NodeId::Shard(number(*digit, 5)?, Side::Primary)),
        [b's', digit, b'b'] => Some(NodeId::Shard(number(*digit, 5)?, Side::Backup)),
        [b'c', digit] => Some(NodeId::Client(number(*digit, 5)?)),
        [b'k', digit] => Some(NodeId::Consumer(number(*digit, 3)?)),
        _ => None,
    }
}

/// The number of a digit, where it is not above `most`.
fn number(digit: u8, most: u8) -> Option<u8>
    ensures found { IfSome result (λ n. (n ≤ most) × (digit ≡ 48 + n)) }
    ensures only { IfNone result ((n : ℕ) → n ≤ most → digit ≡ 48 + n → ⊥) }
{
    match digit.checked_sub(b'0') {
        Some(n) if n <= most => Some(n),
        _ => None,
    }
}

#[cfg(test)]
mod tests {
    use super::*;

    #[test]
    fn names_are_spelled_and_read(rt: HostRuntime) {
        let nodes = [
            (NodeId::Seq(0), b"q0".as_slice()),
            (NodeId::Seq(4), b"q4".as_slice()),
            (NodeId::Shard(1, Side::Primary), b"s1p".as_slice()),
            (NodeId::Shard(5, Side::Backup), b"s5b".as_slice()),
            (NodeId::Client(2), b"c2".as_slice()),
            (NodeId::Consumer(3), b"k3".as_slice()),
        ];
        for (node, name) in nodes {
            assert_eq!(rt; unspell(name), Some(node));
        }
        assert_eq!(rt;
            spell(NodeId::Shard(1, Side::Primary)).as_slice(),
            b"s1p".as_slice()
        );
        assert_eq!(rt; spell(NodeId::Consumer(0)).as_slice(), b"k0".as_slice());
    }

    #[test]
    fn other_texts_are_no_names(rt: HostRuntime) {
        let texts = [
            b"".as_slice(),
            b"q".as_slice(),
            b"q5".as_slice(),
            b"s6p".as_slice(),
            b"s1".as_slice(),
            b"s1x".as_slice(),
            b"c6".as_slice(),
            b"k4".as_slice(),
            b"Q0".as_slice(),
            b"q0 ".as_slice(),
            b"q/".as_slice(),
        ];
        for text in texts {
            assert_eq!(rt; unspell(text), None);
        }
    }
}
