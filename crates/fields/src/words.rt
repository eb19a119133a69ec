// The words of the line rules, and the words that stand for numbers.
ghost use Rattle.std.specs.Prelude.{◌≡◌, true};
ghost use Rattle.fields.specs.Stops.{no_stop};

use rules::{BOTH, Operation, R, W};

// A word that may stand as a field: it holds no stop.
#[derive(Clone, Copy)]
pub struct Word<'a> {
    pub bytes: &'a [u8],
    pub ghost no_stop: { no_stop bytes.now ≡ true },
}

pub const ONE: Word<'static> = Word { bytes: b"1" };

pub const WORD_STORE: Word<'static> = Word { bytes: b"store" };

pub const WORD_ACCESS: Word<'static> = Word { bytes: b"access" };

pub const WORD_PROCESS: Word<'static> = Word { bytes: b"process" };

pub const WORD_FILE: Word<'static> = Word { bytes: b"file" };

pub const WORD_CALLS: Word<'static> = Word { bytes: b"calls" };

// A word and the number that it stands for: a number, as `one_of` and `call_line` of the line rules read it.
pub type Named = (Word<'static>, u32);

// The rights of an access line.
pub const RIGHT_WORDS: [Named; 3] = [
    (Word { bytes: b"R" }, R as u32),
    (Word { bytes: b"W" }, W as u32),
    (Word { bytes: b"RW" }, BOTH as u32),
];

// The calls that take no extra number.
pub const PLAIN_WORDS: [Named; 6] = [
    (Word { bytes: b"read" }, Operation::Read as u32),
    (Word { bytes: b"lock" }, Operation::Lock as u32),
    (Word { bytes: b"unlock" }, Operation::Unlock as u32),
    (Word { bytes: b"open" }, Operation::Open as u32),
    (Word { bytes: b"close" }, Operation::Close as u32),
    (Word { bytes: b"testlock" }, Operation::Testlock as u32),
];

// The calls that take one.
pub const EXTRA_WORDS: [Named; 2] = [
    (Word { bytes: b"write" }, Operation::Write as u32),
    (Word { bytes: b"copy" }, Operation::Copy as u32),
];
