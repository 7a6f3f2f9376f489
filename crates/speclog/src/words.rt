//! The words of the command line.

ghost use Rattle.std.specs.Prelude.{◌≡◌, ◌≤◌, map, string_bytes, IfSome, IfOk};
ghost use Rattle.speclog.specs.Words.{command_place, begins_with, gen_of, after_gen, number_from};

use record_codec::decimal::number;

/// The greatest number of digits.
const MOST_DIGITS: usize = 18;

/// The greatest size of a generated plan.
const MOST_SIZE: u32 = 2_000;

/// The place of the first word that is not of the form of a command with no further word; None where the words are of that form.
pub fn misplaced(name: &str, words: &[String]) -> Option<usize>
    ensures { result ≡ command_place name.now (map string_bytes words.now) }
{
    match words {
        [] => Some(0),
        [command, rest @ ..] => {
            if command.as_str() != name {
                Some(0)
            } else if rest.is_empty() {
                None
            } else {
                Some(1)
            }
        }
    }
}

/// Whether the first of the words is this one.
pub fn begins_with(name: &str, words: &[String]) -> bool
    ensures { result ≡ begins_with name.now (map string_bytes words.now) }
{
    match words {
        [] => false,
        [command, ..] => command.as_str() == name,
    }
}

/// The seed and the size, 1 to 2,000, of words of the form `gen SEED SIZE`; at an error the place of the first word that doesn't fit,
/// or how many words there are where one is missing.
pub fn seed_and_size(words: &[String]) -> Result<(u32, u32), usize>
    ensures asked { result ≡ gen_of (map string_bytes words.now) }
    ensures size { IfOk result (λ asked. (1 ≤ asked.1) × (asked.1 ≤ 2000)) }
{
    match words {
        [command, rest @ ..] if command.as_str() == "gen" => after_gen(rest),
        _ => Err(0),
    }
}

/// The same, of the words after `gen`.
fn after_gen(words: &[String]) -> Result<(u32, u32), usize>
    ensures asked { result ≡ after_gen (map string_bytes words.now) }
    ensures size { IfOk result (λ asked. (1 ≤ asked.1) × (asked.1 ≤ 2000)) }
{
    let [seed, rest @ ..] = words else {
        return Err(1);
    };
    let Some(seed) = number_from(0, u32::MAX, seed) else {
        return Err(1);
    };
    let [size, rest @ ..] = rest else {
        return Err(2);
    };
    match number_from(1, MOST_SIZE, size) {
        Some(size) if rest.is_empty() => Ok((seed, size)),
        Some(_) => Err(3),
        None => Err(2),
    }
}

/// The number that a decimal of 1 to 18 digits spells, where it is within these bounds.
fn number_from(least: u32, most: u32, word: &String) -> Option<u32>
    ensures number { result ≡ number_from least most (string_bytes word.now) }
    ensures least { IfSome result (λ n. least ≤ n) }
    ensures most { IfSome result (λ n. n ≤ most) }
{
    let value = number(MOST_DIGITS, word.as_bytes())?;
    let value = u32::try_from(value).ok()?;
    if least <= value && value <= most {
        Some(value)
    } else {
        None
    }
}
