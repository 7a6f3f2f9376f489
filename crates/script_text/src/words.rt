//! The words of a line.

ghost use Rattle.std.specs.Prelude.{◌≡◌, ◌<◌, ◌==◌, [], ◌∷◌, length, not, MatchOption, IfSome, IfOk};
ghost use Rattle.std.specs.List.{prefix_len};
ghost use Rattle.script_text.specs.Words.{is_printable, words_of, after_word};
ghost use Rattle.script_text.specs.Judged.{first_of, only_of, both_of, due_in};
ghost use Rattle.script_text.specs.Answers.{Tells};

use crate::kind::ScriptKind;

/// The first word of a line, and what follows it; None where the line has no word.
pub(crate) fn next_word(line: &[u8]) -> Option<(&[u8], &[u8])>
    ensures words { MatchOption result
        (words_of line.now ≡ [])
        (λ found. words_of line.now ≡ found.0.now ∷ words_of found.1.now) }
    ensures rest { IfSome result (λ found. found.1.now ≡ after_word line.now) }
    ensures shorter { IfSome result (λ found. length found.1.now < length line.now) }
{
    let (_, begun) = line.split_at(spaces(line));
    if begun.is_empty() {
        return None;
    }
    Some(begun.split_at(letters(begun)))
}

/// How many spaces stand in front.
fn spaces(line: &[u8]) -> usize
    ensures { result ≡ prefix_len (λ b. b == 0x20) line.now }
{
    line.iter().take_while(|byte| **byte == b' ').count()
}

/// How many bytes stand before the first space.
fn letters(line: &[u8]) -> usize
    ensures { result ≡ prefix_len (λ b. not (b == 0x20)) line.now }
{
    line.iter().take_while(|byte| **byte != b' ').count()
}

/// The first word, and what follows it.
pub(crate) fn first_word(line: &[u8]) -> Result<(&[u8], &[u8]), ScriptKind>
    ensures words { Tells (λ found. (found.0.now, words_of found.1.now)) result (first_of (words_of line.now)) }
    ensures rest { IfOk result (λ found. found.1.now ≡ after_word line.now) }
{
    match next_word(line) {
        Some(found) => Ok(found),
        None => Err(ScriptKind::Word),
    }
}

/// The one word.
pub(crate) fn only_word(line: &[u8]) -> Result<&[u8], ScriptKind>
    ensures { Tells (λ word. word.now) result (only_of (words_of line.now)) }
{
    let (word, rest) = first_word(line)?;
    match next_word(rest) {
        None => Ok(word),
        Some(_) => Err(ScriptKind::Word),
    }
}

/// The two words.
pub(crate) fn both_words(line: &[u8]) -> Result<(&[u8], &[u8]), ScriptKind>
    ensures { Tells (λ both. (both.0.now, both.1.now)) result (both_of (words_of line.now)) }
{
    let (first, rest) = first_word(line)?;
    let second = only_word(rest)?;
    Ok((first, second))
}

/// What follows the due first word of a line of the head.
#[tactic(auto, unfolding(crate::specs::Judged::due_in))]
pub(crate) fn after_due<'a>(line: &'a [u8], due: &[u8]) -> Result<&'a [u8], ScriptKind>
    ensures { Tells (λ rest. words_of rest.now) result (due_in due.now line.now) }
{
    if !is_printable(line) {
        return Err(ScriptKind::Byte);
    }
    match next_word(line) {
        Some((word, rest)) if word == due => Ok(rest),
        _ => Err(ScriptKind::Header),
    }
}

/// Whether each byte is one from 0x20 to 0x7e.
pub(crate) fn is_printable(bytes: &[u8]) -> bool
    ensures { result ≡ is_printable bytes.now }
{
    bytes.iter().all(|byte| *byte >= 0x20 && *byte <= 0x7e)
}
