// One field at a cursor: a word, a number, or one of several words.
ghost use Rattle.std.specs.Prelude.{◌≡◌, true};
ghost use Rattle.std.specs.Option.{option_map};
ghost use Rattle.lines.specs.Decimals.{starts_well};
ghost use Rattle.lines.specs.Shapes.{the_word, a_number, one_of};
ghost use Rattle.fields.specs.Cursor.{names_of, part_at};
ghost use Rattle.fields.specs.Stops.{stop_byte};

use crate::stop::Stop;
use crate::words::{Named, Word};

pub const TEN: u32 = 10;

// The cursor after a word and its stop. The stop is looked at first: a word of another length differs there most often, and by one byte.
#[tactic(auto, using(crate::proofs::Scanned::part_past, crate::proofs::Scanned::word_short, crate::proofs::Scanned::word_unstopped, crate::proofs::Scanned::word_started))]
pub fn word_at(text: &[u8], at: usize, word: Word<'_>, stop: Stop) -> Option<usize>
    ensures { option_map (λ next. (next, 0)) result ≡ part_at (the_word word.entry.bytes.now) (stop_byte stop) text.now at }
{
    let rest = text.get(at..)?;
    let last = rest.get(word.bytes.len())?;
    if *last != stop.byte() {
        return None;
    }
    let found = rest.starts_with(word.bytes);
    found.then_some(at + word.bytes.len() + 1)
}

// Some digits, with no leading zero but for 0 itself.
fn starts_well(digits: &[u8]) -> bool
    ensures { result ≡ starts_well digits.now }
{
    match digits {
        [] => false,
        [_] => true,
        [first, ..] => *first != b'0',
    }
}

// The number whose digits stand at the cursor, with a stop after them. By hand: std's `parse` takes a sign and leading zeros, which no number of
// a text has (`number_of`).
#[tactic(auto, using(crate::proofs::Scanned::part_past, crate::proofs::Scanned::rest_is, crate::proofs::Scanned::counted_all, crate::proofs::Scanned::counted_large))]
pub fn decimal_at(text: &[u8], at: usize, stop: Stop) -> Option<(usize, u32)>
    ensures { result ≡ part_at a_number (stop_byte stop) text.now at }
{
    let rest = text.get(at..)?;
    let mut value: u32 = 0;
    for (i, byte) in rest.iter().enumerate() {
        if !byte.is_ascii_digit() {
            let taken = *byte == stop.byte() && starts_well(&rest[..i]);
            return taken.then_some((at + i + 1, value));
        }
        value = value.checked_mul(TEN)?.checked_add(u32::from(byte - b'0'))?;
    }
    None
}

// The first of some words that stands at the cursor, as its number.
#[tactic(auto, using(crate::proofs::Scanned::named_here, crate::proofs::Scanned::named_later, crate::proofs::Scanned::named_none))]
pub fn one_of_at(text: &[u8], at: usize, words: &[Named], stop: Stop) -> Option<(usize, u32)>
    ensures { result ≡ part_at (one_of (names_of words.now)) (stop_byte stop) text.now at }
{
    for (word, number) in words {
        if let Some(next) = word_at(text, at, *word, stop) {
            return Some((next, *number));
        }
    }
    None
}
