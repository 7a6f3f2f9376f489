//! The lines after the head of a script: one input each. Some of their forms are those of lines of plans too.

ghost use Rattle.std.specs.Prelude.{◌≡◌, ◌↔◌, ◌≤◌, ◌∷◌, drop, IsTrue};
ghost use Rattle.msg_wire.specs.Nodes.{nodes_of, sequencers_of};
ghost use Rattle.msg_wire.specs.Valid.{IsValidConfig, IsSequencerOf};
ghost use Rattle.script_text.specs.Words.{is_printable, words_of, after_word};
ghost use Rattle.script_text.specs.Judged.{node_in, body_in, submit_of, message_of, only_node_of, drain_of, table_of, remove_of, form_of, input_in};
ghost use Rattle.script_text.specs.Answers.{Says};

use crate::decimal::{number, number_below, number_within};
use crate::errors::LineError;
use crate::kind::ScriptKind;
use crate::rows::window;
use crate::words::{both_words, first_word, is_printable, next_word, only_word};
use msg_wire::{Command, Config, Input, is_node_of};
use record_codec::{Body, MOST_BODY};
use spec_base::{NodeId, unspell};
use std::alloc::Global;

/// The greatest count of a `drain`.
const MOST_DRAIN: u64 = 200_000;

/// The input that a line spells. With `plain` the line is known to be printable.
#[tactic(auto, unfolding(crate::specs::Judged::input_in))]
pub(crate) fn input_line(
    alloc: Global,
    cfg: &Config,
    line: &[u8],
    plain: bool,
) -> Result<Input, LineError>
    requires valid { IsValidConfig cfg.now }
    requires plain { IsTrue plain → IsTrue (is_printable line.now) }
    ensures { Says result (input_in cfg.now line.now) }
{
    if !plain && !is_printable(line) {
        return Err(LineError::Refused(ScriptKind::Byte));
    }
    match next_word(line) {
        Some((word, rest)) => form(alloc, cfg, word, rest),
        None => Err(LineError::Refused(ScriptKind::Word)),
    }
}

/// By the first word, and what follows it.
#[tactic(auto, unfolding(crate::specs::Judged::of_message, crate::specs::Judged::of_node))]
fn form(alloc: Global, cfg: &Config, word: &[u8], rest: &[u8]) -> Result<Input, LineError>
    requires { IsValidConfig cfg.now }
    ensures { Says result (form_of cfg.now (drop 1 (after_word rest.now)) (word.now ∷ words_of rest.now)) }
{
    if word == b"submit".as_slice() {
        let (client, body) = submit(alloc, cfg.homes.len(), rest)?;
        return Ok(Input::Submit { client, body });
    }
    if word == b"deliver".as_slice() {
        return Ok(Input::Deliver {
            number: message(rest)?,
        });
    }
    if word == b"lose".as_slice() {
        return Ok(Input::Lose {
            number: message(rest)?,
        });
    }
    if word == b"tick".as_slice() {
        return Ok(Input::Tick {
            node: only_node(cfg, rest)?,
        });
    }
    if word == b"restart".as_slice() {
        return Ok(Input::Restart {
            node: only_node(cfg, rest)?,
        });
    }
    if word == b"table".as_slice() {
        let (node, command) = table(alloc, cfg, rest)?;
        return Ok(Input::Command { node, command });
    }
    if word == b"remove".as_slice() {
        let (node, command) = remove(cfg, rest)?;
        return Ok(Input::Command { node, command });
    }
    if word == b"drain".as_slice() {
        return drain(rest);
    }
    Err(LineError::Refused(ScriptKind::Word))
}

/// `submit C BODY`: one of so many clients or submitters, and the body.
#[tactic(auto, unfolding(crate::specs::Judged::submit_of))]
pub(crate) fn submit(alloc: Global, count: usize, rest: &[u8]) -> Result<(u8, Body), LineError>
    requires { count ≤ 256 }
    ensures { Says result (submit_of count (drop 1 (after_word rest.now)) (words_of rest.now)) }
{
    let (word, after) = first_word(rest)?;
    let number = number_below(word, count as u64)?;
    let body = body(alloc, after)?;
    Ok((number as u8, body))
}

/// What follows the one space after the client, or nothing.
fn body(alloc: Global, after: &[u8]) -> Result<Body, LineError>
    ensures { Says result (body_in (drop 1 after.now)) }
{
    let bytes = match after {
        [_space, bytes @ ..] => bytes,
        [] => after,
    };
    if bytes.len() > MOST_BODY {
        return Err(LineError::Refused(ScriptKind::Body { len: bytes.len() }));
    }
    Ok(Body::of(alloc, bytes)?)
}

/// The number of a message, which may be any.
#[tactic(auto, unfolding(crate::specs::Judged::message_of))]
fn message(rest: &[u8]) -> Result<u64, ScriptKind>
    ensures { result ≡ message_of (words_of rest.now) }
{
    let word = only_word(rest)?;
    number(word)
}

/// The one word, the name of a node.
#[tactic(auto, unfolding(crate::specs::Judged::only_node_of))]
pub(crate) fn only_node(cfg: &Config, rest: &[u8]) -> Result<NodeId, ScriptKind>
    requires { IsValidConfig cfg.now }
    ensures { result ≡ only_node_of cfg.now (words_of rest.now) }
{
    let word = only_word(rest)?;
    node(cfg, word)
}

/// `table NODE K s:q ..`.
#[tactic(auto, unfolding(crate::specs::Judged::table_of))]
pub(crate) fn table(
    alloc: Global,
    cfg: &Config,
    rest: &[u8],
) -> Result<(NodeId, Command), LineError>
    requires { IsValidConfig cfg.now }
    ensures { Says result (table_of cfg.now (words_of rest.now)) }
{
    let (name, rest) = first_word(rest)?;
    let (rounds, rows) = first_word(rest)?;
    let node = sequencer(cfg, name)?;
    let (rounds, rows) = window(alloc, rounds, rows, cfg.shards)?;
    Ok((node, Command::Table { rounds, rows }))
}

/// `remove NODE S`.
#[tactic(auto, unfolding(crate::specs::Judged::remove_of))]
pub(crate) fn remove(cfg: &Config, rest: &[u8]) -> Result<(NodeId, Command), LineError>
    requires { IsValidConfig cfg.now }
    ensures { Says result (remove_of cfg.now (words_of rest.now)) }
{
    let (name, word) = both_words(rest)?;
    let node = sequencer(cfg, name)?;
    let shard = number_below(word, u64::from(cfg.shards))?;
    Ok((node, Command::Remove { shard: shard as u8 }))
}

/// `drain N`.
#[tactic(auto, unfolding(crate::specs::Judged::drain_of))]
fn drain(rest: &[u8]) -> Result<Input, LineError>
    ensures { Says result (drain_of (words_of rest.now)) }
{
    let word = only_word(rest)?;
    let count = number_within(word, 0, MOST_DRAIN)?;
    Ok(Input::Drain {
        count: count as u32,
    })
}

/// A node of the cluster.
fn node(cfg: &Config, word: &[u8]) -> Result<NodeId, ScriptKind>
    requires { IsValidConfig cfg.now }
    ensures { result ≡ node_in (nodes_of cfg.now) word.now }
{
    match unspell(word) {
        Some(node) if is_node_of(cfg, node) => Ok(node),
        _ => Err(ScriptKind::Node),
    }
}

/// A sequencer of the cluster.
fn sequencer(cfg: &Config, word: &[u8]) -> Result<NodeId, ScriptKind>
    requires { IsValidConfig cfg.now }
    ensures { result ≡ node_in (sequencers_of cfg.now) word.now }
{
    match unspell(word) {
        Some(node) if is_sequencer(cfg, node) => Ok(node),
        _ => Err(ScriptKind::Node),
    }
}

/// Whether this is a sequencer of the cluster.
fn is_sequencer(cfg: &Config, node: NodeId) -> bool
    ensures { IsTrue result ↔ IsSequencerOf cfg.now node }
{
    match node {
        NodeId::Seq(number) => number < cfg.seqs,
        _ => false,
    }
}
