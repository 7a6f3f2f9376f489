//! What holds of all records, as calls that do nothing.

ghost use Rattle.std.specs.Prelude.{◌≡◌, ◌<◌, ◌++◌, ℕ, List, length, Err};
ghost use Rattle.record_codec.specs.declared.record.Record.{Record};
ghost use Rattle.record_codec.specs.declared.errors.DecodeError.TheVariants.{Short};
ghost use Rattle.record_codec.specs.Records.{IsValidRecord, record_spelling};
ghost use Rattle.record_codec.specs.Decoding.{record_at};

/// No spelling of a record begins that of another: what two texts with a record in front of each have in common is both.
#[tactic(auto, using(crate::proofs::Records::records_apart))]
pub fn no_record_begins_another()
    ensures { (a b : Record) (x y : List ℕ) → IsValidRecord a → IsValidRecord b → record_spelling a ++ x ≡ record_spelling b ++ y → (a ≡ b) × (x ≡ y) }
{}

/// A record that is cut short anywhere is found short.
pub fn a_cut_record_is_short()
    ensures { (r : Record) (front more : List ℕ) → IsValidRecord r → front ++ more ≡ record_spelling r → 0 < length more → record_at front 0 ≡ Err Short }
{}
