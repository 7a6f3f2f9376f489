//! What holds of all spellings, as calls that do nothing.

ghost use Rattle.std.specs.Prelude.{◌≡◌, ◌<◌, ◌++◌, ℕ, List, length, Err};
ghost use Rattle.record_codec.specs.Entries.{entry_spelling};
ghost use Rattle.quota_table.specs.Entries.{IsValidEntry};
ghost use Rattle.msg_wire.specs.Names.{Entry, Item, Message};
ghost use Rattle.msg_wire.specs.Valid.{IsValidItem, IsValidMessage};
ghost use Rattle.msg_wire.specs.Messages.{message_spelling};
ghost use Rattle.msg_wire.specs.Items.{item_spelling};
ghost use Rattle.msg_wire.specs.Decoding.{whole_message};
ghost use Rattle.msg_wire.specs.declared.errors.WireError.TheVariants.{Short};

/// No spelling of an entry begins that of another: two texts that begin with an entry each are equal only where the
/// entries and what follows them are.
pub fn no_entry_begins_another()
    ensures { (a b : Entry) (x y : List ℕ) → IsValidEntry a → IsValidEntry b → entry_spelling a ++ x ≡ entry_spelling b ++ y → (a ≡ b) × (x ≡ y) }
{}

/// No spelling of an item begins that of another.
pub fn no_item_begins_another()
    ensures { (a b : Item) (x y : List ℕ) → IsValidItem a → IsValidItem b → item_spelling a ++ x ≡ item_spelling b ++ y → (a ≡ b) × (x ≡ y) }
{}

/// No spelling of a message begins that of another.
pub fn no_message_begins_another()
    ensures { (a b : Message) (x y : List ℕ) → IsValidMessage a → IsValidMessage b → message_spelling a ++ x ≡ message_spelling b ++ y → (a ≡ b) × (x ≡ y) }
{}

/// A message that is cut short anywhere, as one without its last byte, is found short: it never decodes.
pub fn a_cut_message_is_short()
    ensures { (m : Message) (front more : List ℕ) → IsValidMessage m → front ++ more ≡ message_spelling m → 0 < length more → whole_message front ≡ Err Short }
{}
