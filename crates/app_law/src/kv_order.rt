ghost use Rattle.std.specs.Prelude.{◌≡◌, ◌∷◌, []};
ghost use Rattle.std.specs.Char.{is_ascii_graphic};
ghost use Rattle.std.specs.List.{list_all};
ghost use Rattle.app_law.specs.KvOrders.{kv_order_of};
ghost use Rattle.app_law.specs.Words.{words, printable_in};

use crate::words::first_word;
use record_codec::ShortText;

/// A key: 1 to 8 bytes from 0x21 to 0x7e.
pub type Key = ShortText<8>;

/// A value: 1 to 32 bytes from 0x21 to 0x7e.
pub type Word = ShortText<32>;

/// What a body asks of the store.
#[derive(Debug, Drop)]
pub enum KvOrder {
    /// The key gets this value.
    Set { key: Key, value: Word },
    /// The key's value is asked for.
    Get { key: Key },
    /// The key goes.
    Del { key: Key },
}

/// What a body asks for; None where it is of another form.
#[tactic(auto, using(crate::proofs::OrderLemmas::too_many))]
pub fn kv_order(body: &[u8]) -> Option<KvOrder>
    ensures { result ≡ kv_order_of (words body.now) }
{
    let (verb, rest) = first_word(body);
    let (key, rest) = first_word(rest?);
    let Some(rest) = rest else {
        return key_order(verb, key);
    };
    let (value, None) = first_word(rest) else {
        return None;
    };
    set_order(verb, key, value)
}

fn key_order(verb: &[u8], key: &[u8]) -> Option<KvOrder>
    ensures { result ≡ kv_order_of (verb.now ∷ key.now ∷ []) }
{
    if verb == b"get".as_slice() {
        Some(KvOrder::Get {
            key: printable(key)?,
        })
    } else if verb == b"del".as_slice() {
        Some(KvOrder::Del {
            key: printable(key)?,
        })
    } else {
        None
    }
}

fn set_order(verb: &[u8], key: &[u8], value: &[u8]) -> Option<KvOrder>
    ensures { result ≡ kv_order_of (verb.now ∷ key.now ∷ value.now ∷ []) }
{
    if verb != b"set".as_slice() {
        return None;
    }
    Some(KvOrder::Set {
        key: printable(key)?,
        value: printable(value)?,
    })
}

/// A text of 1 to `N` bytes from 0x21 to 0x7e; None for any other.
fn printable<const N: usize>(text: &[u8]) -> Option<ShortText<N>>
    ensures { result ≡ printable_in N text.now }
{
    if text.is_empty() || text.len() > N || !is_graphic(text) {
        return None;
    }
    let mut kept = ShortText::new();
    kept.extend_from_slice(text);
    Some(kept)
}

fn is_graphic(text: &[u8]) -> bool
    ensures { result ≡ list_all is_ascii_graphic text.now }
{
    text.iter().all(|byte| byte.is_ascii_graphic())
}
