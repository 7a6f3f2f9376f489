//! Lives of nodes.

ghost use Rattle.std.specs.Prelude.{IfOk, OnOk};
ghost use Rattle.spec_base.specs.Spelling.{IsValidNode};
ghost use Rattle.msg_wire.specs.Valid.{IsNodeOf, IsValidConfig, IsValidEvent, AreValidItems};

use crate::cluster::Cluster;
use crate::events::event;
use crate::telling::tell_step;
use msg_wire::{Config, Event, Items, Step, decode_items};
use quota_table::OutOfMemory;
use spec_base::{NodeId, unspell};
use std::alloc::{AllocError, Global};
use std::test::Fail;

/// The life of a node as a text: the cluster, the node's name, the bytes of the vault that it begins with (none: it has and knows nothing),
/// and the text in parts, each of whole lines.
///
/// Each line says what comes, as `event` reads it, and then, each after ` | `, what the step gives, as `tell_step` says it; a line that begins with
/// `  | ` goes on with the one before. Behind `now` stands what the node has then. A line that begins with `#` says why.
pub type Life<'a> = (Cluster<'static>, &'a str, &'a [u8], &'a [&'a str]);

/// A node that can live so.
pub trait Lives: Sized {
    /// Whether it may take a step.
    ghost is_ready: { Self → Type 0 };

    /// The node at its start: as its stored items give it, or one that has and knows nothing where there are none. Error: it is of another
    /// kind.
    fn born(alloc: Global, cfg: &Config, me: NodeId, items: &Items) -> Result<Self, Fail>
        requires cfg { IsValidConfig cfg.now }
        requires me { IsNodeOf cfg.now me }
        requires valid { IsValidNode me }
        requires items { AreValidItems items.now }
        ensures { IfOk result is_ready };

    /// Takes a step.
    fn take(&mut self, alloc: Global, event: &Event) -> Result<Step, OutOfMemory>
        requires ready { is_ready self.old }
        requires valid { IsValidEvent event.now }
        ensures { OnOk result (is_ready self.new) };

    /// Puts what it has into words.
    fn tell(&self, text: &mut String) -> Result<(), AllocError>;
}

/// The text that a node makes of a life, and the life's own, which is the same where the node does what stands there. Errors: there is no
/// such cluster, or no such node of it; a vault that is none; a line that says nothing that can come.
pub fn lived<N: Lives + Drop>(alloc: Global, life: &Life) -> Result<(String, String), Fail> {
    let (cluster, name, stored, parts) = *life;
    let cfg = cluster.config(alloc)?;
    let me = node_of(&cfg, name)?;
    let mut node = N::born(alloc, &cfg, me, &items_of(alloc, stored)?)?;
    let mut text = String::new(alloc);
    for part in parts {
        live(alloc, &mut node, me, part, &mut text)?;
    }
    Ok((text, joined(alloc, parts)?))
}

/// A life's text, with the lines that go on joined to those before.
fn joined(alloc: Global, parts: &[&str]) -> Result<String, AllocError> {
    let mut text = String::new(alloc);
    for part in parts {
        for line in part.lines() {
            join(&mut text, line)?;
        }
    }
    Ok(text)
}

fn join(text: &mut String, line: &str) -> Result<(), AllocError> {
    if line.is_empty() {
        return Ok(());
    }
    if let Some(rest) = line.strip_prefix(' ') {
        return text.push_str(rest);
    }
    text.push('\n')?;
    text.push_str(line)
}

fn items_of(alloc: Global, stored: &[u8]) -> Result<Items, Fail>
    ensures { IfOk result AreValidItems }
{
    if stored.is_empty() {
        return Ok(Items::new(alloc));
    }
    Ok(decode_items(alloc, stored)?)
}

/// Takes the steps of a part of a life, each with its line before what it gives.
fn live<N: Lives>(
    alloc: Global,
    node: &mut N,
    me: NodeId,
    part: &str,
    text: &mut String,
) -> Result<(), Fail>
    requires ready { N.is_ready node.old }
    requires me { IsValidNode me }
    ensures { OnOk result (N.is_ready node.new) }
{
    for line in part.lines() {
        if line.is_empty() || line.starts_with(' ') {
            continue;
        }
        let (comes, _) = line.split_once(" | ").unwrap_or((line, ""));
        text.push('\n')?;
        text.push_str(comes)?;
        if comes == "now" {
            text.push_str(" | ")?;
            node.tell(text)?;
        } else if !comes.starts_with('#') {
            let event = event(alloc, me, comes)?;
            let step = node.take(alloc, &event)?;
            tell_step(text, &step)?;
        }
    }
    Ok(())
}

/// The node of a name.
fn node_of(cfg: &Config, name: &str) -> Result<NodeId, Fail>
    ensures { IfOk result (λ node. IsNodeOf cfg.now node × IsValidNode node) }
{
    let node = unspell(name.as_bytes()).ok_or("no node")?;
    let is_there = match node {
        NodeId::Seq(number) => number < cfg.seqs,
        NodeId::Shard(number, _) => number < cfg.shards,
        NodeId::Client(number) => usize::from(number) < cfg.homes.len(),
        NodeId::Consumer(number) => number < cfg.consumers,
    };
    if !is_there {
        return Err("no such node".into());
    }
    Ok(node)
}
