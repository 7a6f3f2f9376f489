ghost use Rattle.std.specs.Prelude.{◌≡◌, ◌≤◌, ◌++◌, ◌+◌, length, not, filter};
ghost use Rattle.std.specs.Option.{option_copied};
ghost use Rattle.std.specs.Str.{bytes_eq};
ghost use Rattle.std.specs.FinMap as finite;
ghost use Rattle.app_law.specs.inside.KvEntries.{value_under};
ghost use Rattle.app_law.specs.KvOrders.{kv_order_of};
ghost use Rattle.app_law.specs.Kvs.{is_full_for, with_value, kv_after, kv_answer, kv_restored};
ghost use Rattle.app_law.specs.Words.{words};

use crate::app::App;
use crate::decimal::write_decimal;
use crate::kv_order::{Key, KvOrder, Word, kv_order};
use arrayvec::ArrayVec;
use record_codec::{AppKind, Output, Record, Shown};
use std::marker::Model;

/// The greatest number of keys.
const MOST_KEYS: usize = 32;

/// A key and its value.
#[derive(Debug, Drop)]
struct KvEntry {
    key: Key,
    value: Word,
}

impl Default for KvEntry {
    fn default() -> KvEntry {
        KvEntry {
            key: Key::new(),
            value: Word::new(),
        }
    }
}

/// Values under at most 32 keys. Contracts see it as the map from the keys to the values.
///
/// `set K V` gives key K the value V, `get K` gives K's value, `del K` drops K.
#[derive(Debug, Drop)]
pub struct Kv {
    entries: ArrayVec<KvEntry, 32>,
}

impl Model for Kv {
    ghost use Rattle.std.specs.Prelude.{ℕ, List};
    ghost use Rattle.std.specs.Coded.{coded_ℕ, coded_list};
    ghost use Rattle.std.specs.FinMap as finite;
    ghost use Rattle.app_law.specs.KvStates.{KvState, IsKeyed};

    ghost Value = { KvState };

    ghost coded = { finite.code (coded_list coded_ℕ) (coded_list coded_ℕ) };

    ghost use Rattle.app_law.specs.inside.KvEntries.{pairs_of};

    ghost view = { λ kv. finite.from_entries (pairs_of kv.entries.items) };

    ghost invariant = { λ kv. IsKeyed (pairs_of kv.entries.items) };
}

/// What takes a record of the store back.
#[derive(Debug, Drop)]
pub enum KvUndo {
    /// The record changed nothing.
    Unchanged,
    /// The key had this value, or none.
    Was { key: Key, value: Option<Word> },
}

impl App for Kv {
    type Undo = KvUndo;

    ghost use Rattle.std.specs.Prelude.{refl};
    ghost use Rattle.std.specs.FinMap as finite;
    ghost use Rattle.app_law.specs.Kvs.{kv_next, kv_output, kv_shown, kv_restored};

    ghost fresh_state = { λ _. finite.empty };

    ghost next_state = { kv_next };

    ghost output_of = { kv_output };

    ghost shown_of = { kv_shown };

    ghost restored = { kv_restored };

    ghost noop_leaves = { λ _. refl };

    ghost noop_gives = { λ _. refl };

    fn fresh(_: AppKind) -> Kv {
        Kv {
            entries: ArrayVec::new(),
        }
    }

    fn apply(&mut self, rec: &Record) -> (KvUndo, Output) {
        let Record::Data { body, .. } = rec else {
            return (KvUndo::Unchanged, Output::new());
        };
        let (undo, mut output) = self.answer(body.as_slice());
        output.extend_from_slice(b"\n");
        (undo, output)
    }

    fn revert(&mut self, undo: KvUndo) {
        let KvUndo::Was { key, value } = undo else {
            return;
        };
        match value {
            Some(value) => {
                let _ = self.set(key, value);
            }
            None => self.remove(&key),
        }
    }

    fn show(&self) -> Shown {
        let mut shown = Shown::new();
        shown.extend_from_slice(b"keys ");
        write_decimal(self.len() as u64, &mut shown);
        shown
    }
}

impl Kv {
    /// Does what a body asks for, and gives what undoes it and the answer.
    fn answer(&mut self, body: &[u8]) -> (KvUndo, Output)
        ensures state { self.new ≡ kv_after self.old (kv_order_of (words body.now)) }
        ensures answer { result.1 ≡ kv_answer self.old (kv_order_of (words body.now)) }
        ensures short { length result.1 ≤ 32 }
        ensures undo { kv_restored result.0 self.new ≡ self.old }
    {
        match kv_order(body) {
            None => (KvUndo::Unchanged, written(b"?")),
            Some(KvOrder::Set { key, value }) => self.set_key(key, value),
            Some(KvOrder::Get { key }) => (KvUndo::Unchanged, self.shown_value(&key)),
            Some(KvOrder::Del { key }) => self.drop_key(key),
        }
    }

    #[tactic(auto, using(crate::proofs::KvLemmas::undoing))]
    fn set_key(&mut self, key: Key, value: Word) -> (KvUndo, Output)
        ensures state { self.new ≡ kv_after self.old (Some (KvOrder.Set key value)) }
        ensures answer { result.1 ≡ kv_answer self.old (Some (KvOrder.Set key value)) }
        ensures short { length result.1 ≤ 32 }
        ensures undo { kv_restored result.0 self.new ≡ self.old }
    {
        let undo = self.undo_of(&key);
        let answer = if self.set(key, value) {
            written(b"ok")
        } else {
            written(b"full")
        };
        (undo, answer)
    }

    #[tactic(auto, using(crate::proofs::KvLemmas::undoing))]
    fn drop_key(&mut self, key: Key) -> (KvUndo, Output)
        ensures state { self.new ≡ kv_after self.old (Some (KvOrder.Del key)) }
        ensures answer { result.1 ≡ kv_answer self.old (Some (KvOrder.Del key)) }
        ensures short { length result.1 ≤ 32 }
        ensures undo { kv_restored result.0 self.new ≡ self.old }
    {
        let value = self.value_of(&key);
        let answer = if value.is_some() {
            written(b"ok")
        } else {
            written(b"-")
        };
        self.remove(&key);
        (KvUndo::Was { key, value }, answer)
    }

    /// The value under a key, or `-`.
    fn shown_value(&self, key: &Key) -> Output
        ensures value { result ≡ kv_answer self.now (Some (KvOrder.Get key.now)) }
        ensures short { length result ≤ 32 }
    {
        match self.get(key) {
            Some(value) => written(value.as_slice()),
            None => written(b"-"),
        }
    }

    /// What gives a key back what it has.
    fn undo_of(&self, key: &Key) -> KvUndo
        ensures undo { result ≡ KvUndo.Was key.now (finite.get self.now key.now) }
        ensures within { finite.len self.now ≤ 32 }
    {
        KvUndo::Was {
            key: key.copy(),
            value: self.value_of(key),
        }
    }

    /// A copy of the value under a key, which takes no memory.
    fn value_of(&self, key: &Key) -> Option<Word>
        ensures value { result ≡ finite.get self.now key.now }
        ensures within { finite.len self.now ≤ 32 }
    {
        let _keys = self.len();
        match self.get(key) {
            Some(value) => Some(value.copy()),
            None => None,
        }
    }

    /// Gives a key a value, unless it is new and 32 are there.
    #[tactic(auto, using(crate::proofs::KvLemmas::setting))]
    fn set(&mut self, key: Key, value: Word) -> bool
        ensures done { result ≡ not (is_full_for self.old key) }
        ensures state { self.new ≡ with_value self.old key value }
    {
        if self.is_full_for(&key) {
            return false;
        }
        self.remove(&key);
        self.add(key, value);
        true
    }

    /// Whether the key is new and 32 are there.
    fn is_full_for(&self, key: &Key) -> bool
        ensures full { result ≡ is_full_for self.now key.now }
        ensures within { finite.len self.now ≤ 32 }
    {
        let is_full = self.len() >= MOST_KEYS;
        self.get(key).is_none() && is_full
    }

    /// Puts a new key's value at the end.
    fn add(&mut self, key: Key, value: Word)
        requires new { finite.get self.old key ≡ None }
        requires room { finite.len self.old ≤ 31 }
        ensures { self.new ≡ finite.insert self.old key value }
    {
        self.entries.push(KvEntry { key, value });
    }

    /// Drops a key.
    fn remove(&mut self, key: &Key)
        ensures { self.new ≡ finite.remove self.old key.now }
    {
        drop_entries(&mut self.entries, key);
    }

    /// The value under a key.
    fn get(&self, key: &Key) -> Option<&Word>
        ensures { option_copied result ≡ finite.get self.now key.now }
    {
        value_in(key, self.entries.as_slice())
    }

    /// How many keys there are.
    fn len(&self) -> usize
        ensures len { result ≡ finite.len self.now }
        ensures within { result ≤ 32 }
    {
        self.entries.len()
    }
}

/// Drops the entries of a key.
fn drop_entries(entries: &mut ArrayVec<KvEntry, 32>, key: &Key)
    ensures { entries.new.items ≡ filter (λ e. not (bytes_eq e.key key.now)) entries.old.items }
{
    entries.retain(|entry| entry.key != *key);
}

/// The value of the first entry of a key.
fn value_in<'a>(key: &Key, entries: &'a [KvEntry]) -> Option<&'a Word>
    ensures { option_copied result ≡ value_under key.now entries.now }
{
    for entry in entries {
        if entry.key == *key {
            return Some(&entry.value);
        }
    }
    None
}

/// Bytes as an output.
fn written(bytes: &[u8]) -> Output
    requires { length bytes.now ≤ 64 }
    ensures { result ≡ bytes.now }
{
    let mut output = Output::new();
    output.extend_from_slice(bytes);
    output
}
