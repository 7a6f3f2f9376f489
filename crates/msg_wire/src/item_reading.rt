//! Items, read one after the other from the left.

ghost use Rattle.std.specs.Prelude.{◌≡◌, ◌≤◌, ◌-◌, ◌++◌, ◌∷◌, [], List, length, IfOk, IfErr, OnOk, Ok};
ghost use Rattle.msg_wire.specs.declared.errors.WireError.TheVariants.{OutOfMemory};
ghost use Rattle.msg_wire.specs.declared.item.Item.{Item};
ghost use Rattle.msg_wire.specs.Items.{items_spelling};
ghost use Rattle.msg_wire.specs.Valid.{AreValidItems};
ghost use Rattle.msg_wire.specs.Decoding.{Gives, output_at, early_tag, late_tag, item_at, items_from, whole_items};

use crate::errors::{Read, WireError};
use crate::item::{Item, Items};
use crate::numbers::{ballot_at, byte_in, kind_in, place_at, slot_at};
use crate::parts::{body_at, entry_at, record_at, vote_at};
use record_codec::Output;
use record_codec::fields::piece_at;
use std::alloc::Global;

/// Reads the items that the bytes spell, all of them; there is at least one. At an error other than `OutOfMemory` the
/// bytes spell none, and the error is the first fault from the left.
pub fn decode_items(alloc: Global, bytes: &[u8]) -> Result<Items, WireError>
    // What is read are items, one at least, spelled so.
    ensures found { IfOk result (λ items. AreValidItems items × (1 ≤ length items) × (bytes.now ≡ items_spelling items)) }
    // What is spelled so is read, unless memory runs out.
    ensures only { (items : List Item) → AreValidItems items → 1 ≤ length items → bytes.now ≡ items_spelling items → Gives result (Ok items) }
    // Which fault it is.
    ensures exact { Gives result (whole_items bytes.now) }
{
    whole_items(alloc, bytes)
}

#[tactic(auto, unfolding(crate::specs::Decoding::whole_items))]
fn whole_items(alloc: Global, bytes: &[u8]) -> Result<Items, WireError>
    ensures { Gives result (whole_items bytes.now) }
{
    let (first, at) = item_at(alloc, bytes, 0)?;
    let mut items = Items::new(alloc);
    keep(&mut items, first)?;
    items_from(alloc, items, bytes, at)
}

/// The items from a place to the end, after the earlier ones.
fn items_from(alloc: Global, earlier: Items, bytes: &[u8], start: usize) -> Result<Items, WireError>
    requires { length earlier ≤ start }
    ensures { Gives result (items_from (length bytes.now - length earlier) earlier bytes.now start) }
{
    let mut items = earlier;
    let mut at = start;
    while at < bytes.len() {
        let (item, after) = item_at(alloc, bytes, at)?;
        keep(&mut items, item)?;
        at = after;
    }
    Ok(items)
}

/// Puts one item at the end.
fn keep(items: &mut Items, item: Item) -> Result<(), WireError>
    ensures ok { OnOk result (items.new ≡ items.old ++ item ∷ []) }
    ensures no_memory { IfErr result (λ e. e ≡ OutOfMemory) }
{
    items.push(item).map_err(|_| WireError::OutOfMemory)
}

#[tactic(auto, unfolding(crate::specs::Decoding::item_at, crate::specs::Decoding::item_of))]
fn item_at(alloc: Global, bytes: &[u8], at: usize) -> Read<Item>
    ensures { Gives result (item_at bytes.now at) }
{
    let (tag, at) = kind_in(bytes, at, 1, 9)?;
    if tag < 5 {
        early_tag(alloc, tag, bytes, at)
    } else {
        late_tag(alloc, tag, bytes, at)
    }
}

/// Tags 1 to 4.
#[tactic(auto, unfolding(crate::specs::Decoding::early_tag, crate::specs::Decoding::vote_at))]
fn early_tag(alloc: Global, tag: u8, bytes: &[u8], at: usize) -> Read<Item>
    ensures { Gives result (early_tag tag bytes.now at) }
{
    match tag {
        1 => {
            let (slot, at) = slot_at(bytes, at)?;
            let (ballot, at) = ballot_at(bytes, at)?;
            Ok((Item::Promised { slot, ballot }, at))
        }
        2 => {
            let (slot, at) = slot_at(bytes, at)?;
            let ((ballot, entry), at) = vote_at(bytes, at)?;
            Ok((
                Item::Accepted {
                    slot,
                    ballot,
                    entry,
                },
                at,
            ))
        }
        3 => {
            let (entry, at) = entry_at(bytes, at)?;
            Ok((Item::Known { entry }, at))
        }
        _ => {
            let (rec, at) = record_at(alloc, bytes, at)?;
            Ok((Item::Taken { rec }, at))
        }
    }
}

/// Tags 5 to 9.
#[tactic(auto, unfolding(crate::specs::Decoding::late_tag))]
fn late_tag(alloc: Global, tag: u8, bytes: &[u8], at: usize) -> Read<Item>
    ensures { Gives result (late_tag tag bytes.now at) }
{
    match tag {
        5 => {
            let (count, at) = byte_in(bytes, at, 1, 64)?;
            Ok((Item::Noops { count }, at))
        }
        6 => {
            let (body, at) = body_at(alloc, bytes, at)?;
            Ok((Item::Submitted { body }, at))
        }
        7 => Ok((Item::Acked, at)),
        8 => {
            let (shard, at) = byte_in(bytes, at, 0, 5)?;
            let (first, at) = place_at(bytes, at)?;
            Ok((Item::Moved { shard, first }, at))
        }
        _ => {
            let (rec, at) = record_at(alloc, bytes, at)?;
            let (output, at) = output_at(bytes, at)?;
            Ok((Item::Confirmed { rec, output }, at))
        }
    }
}

/// What an application wrote, behind its length.
#[tactic(auto, unfolding(crate::specs::Decoding::output_at))]
fn output_at(bytes: &[u8], at: usize) -> Read<Output>
    ensures { Gives result (output_at bytes.now at) }
{
    let (len, at) = byte_in(bytes, at, 0, 64)?;
    let (text, at) = piece_at(bytes, at, usize::from(len)).ok_or(WireError::Short)?;
    let mut output = Output::new();
    output.extend_from_slice(text);
    Ok((output, at))
}
