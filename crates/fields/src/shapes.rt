// One line at a cursor, by the shape of its kind.
#![tactic(auto, using(crate::proofs::Composed::line_more, crate::proofs::Composed::line_last, crate::proofs::Composed::header_made, crate::proofs::Composed::access_made, crate::proofs::Composed::calls_read, crate::proofs::Composed::call_made))]

ghost use Rattle.std.specs.Prelude.{◌≡◌, true, [], ◌∷◌, IfSome};
ghost use Rattle.std.specs.Option.{option_map};
ghost use Rattle.rules.specs.declared.Numbers.{Numbers};
ghost use Rattle.lines.specs.Shapes.{the_word, a_number, read_as, header, header_line, access_from, access_line, calls_line, plain_shape, extra_shape, call_line};
ghost use Rattle.fields.specs.declared.Access.{Access};
ghost use Rattle.fields.specs.declared.Counts.{Counts};
ghost use Rattle.fields.specs.declared.Pair.{Pair};
ghost use Rattle.fields.specs.Cursor.{line_at, making};

use crate::parts::{decimal_at, one_of_at, word_at};
use crate::stop::Stop;
use crate::words::{
    EXTRA_WORDS, ONE, PLAIN_WORDS, RIGHT_WORDS, WORD_ACCESS, WORD_CALLS, WORD_STORE, Word,
};
use crate::{Access, Counts, Pair};
use rules::Numbers;

// Two numbers that end a line.
fn pair_at(text: &[u8], at: usize) -> Option<(usize, Pair)>
    ensures { making (λ (p : Pair). p.first ∷ p.second ∷ []) result ≡ line_at (read_as (a_number ∷ a_number ∷ [])) text.now at }
{
    let (at, first) = decimal_at(text, at, Stop::Tab)?;
    let (at, second) = decimal_at(text, at, Stop::LineFeed)?;
    Some((at, Pair { first, second }))
}

// A line of a word and two numbers: a process line or a file line, by its word.
pub fn entry_line_at(text: &[u8], at: usize, word: Word<'_>) -> Option<(usize, Pair)>
    ensures { making (λ (p : Pair). p.first ∷ p.second ∷ []) result ≡ line_at (read_as (the_word word.entry.bytes.now ∷ a_number ∷ a_number ∷ [])) text.now at }
{
    let at = word_at(text, at, word, Stop::Tab)?;
    pair_at(text, at)
}

// The header line.
pub fn header_at(text: &[u8], at: usize) -> Option<(usize, Counts)>
    ensures { making (λ (c : Counts). header c.desks c.classes c.processes c.files) result ≡ line_at header_line text.now at }
{
    let at = word_at(text, at, WORD_STORE, Stop::Tab)?;
    let at = word_at(text, at, ONE, Stop::Tab)?;
    let (at, desks) = decimal_at(text, at, Stop::Tab)?;
    let (at, classes) = decimal_at(text, at, Stop::Tab)?;
    let (at, others) = pair_at(text, at)?;
    let counts = Counts {
        desks,
        classes,
        processes: others.first,
        files: others.second,
    };
    Some((at, counts))
}

// An access line.
pub fn access_at(text: &[u8], at: usize) -> Option<(usize, Access)>
    ensures { making (λ (a : Access). access_from (a.desk ∷ a.class ∷ a.right ∷ [])) result ≡ line_at access_line text.now at }
{
    let at = word_at(text, at, WORD_ACCESS, Stop::Tab)?;
    let (at, desk) = decimal_at(text, at, Stop::Tab)?;
    let (at, class) = decimal_at(text, at, Stop::Tab)?;
    let (at, right) = one_of_at(text, at, &RIGHT_WORDS, Stop::LineFeed)?;
    Some((at, Access { desk, class, right }))
}

// The line that starts a call text.
pub fn calls_at(text: &[u8], at: usize) -> Option<usize>
    ensures { option_map (λ next. (next, [])) result ≡ line_at calls_line text.now at }
{
    let at = word_at(text, at, WORD_CALLS, Stop::Tab)?;
    word_at(text, at, ONE, Stop::LineFeed)
}

// A call line of a call that takes no extra number, which is then read as 0.
fn plain_call_at(text: &[u8], at: usize) -> Option<(usize, Numbers)>
    ensures line { making (λ (n : Numbers). n.operation ∷ n.process ∷ n.file ∷ []) result ≡ line_at (read_as plain_shape) text.now at }
    ensures plain { IfSome result (λ (_, n). n.extra ≡ 0) }
{
    let (at, operation) = one_of_at(text, at, &PLAIN_WORDS, Stop::Tab)?;
    let (at, pair) = pair_at(text, at)?;
    let numbers = Numbers {
        operation,
        process: pair.first,
        file: pair.second,
        extra: 0,
    };
    Some((at, numbers))
}

// A call line of a call that takes one.
fn extra_call_at(text: &[u8], at: usize) -> Option<(usize, Numbers)>
    ensures { making (λ (n : Numbers). n.operation ∷ n.process ∷ n.file ∷ n.extra ∷ []) result ≡ line_at (read_as extra_shape) text.now at }
{
    let (at, operation) = one_of_at(text, at, &EXTRA_WORDS, Stop::Tab)?;
    let (at, process) = decimal_at(text, at, Stop::Tab)?;
    let (at, pair) = pair_at(text, at)?;
    let numbers = Numbers {
        operation,
        process,
        file: pair.first,
        extra: pair.second,
    };
    Some((at, numbers))
}

// A call line.
pub fn call_at(text: &[u8], at: usize) -> Option<(usize, Numbers)>
    ensures { result ≡ line_at call_line text.now at }
{
    plain_call_at(text, at).or_else(|| extra_call_at(text, at))
}
