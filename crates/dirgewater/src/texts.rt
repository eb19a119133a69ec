// The readers of texts, for C.
ghost use Rattle.std.specs.Prelude.{◌≡◌, length};
ghost use Rattle.lines.specs.Entries.{faulted, read_alone, read_with_calls, room_read, text_numbers_of, setup_beside};

use lines::{Fault, GivenText};
use rules::{Numbered, Setup};
use text::reading::{read_alone, read_with_calls};

// What became of a text, as numbers, and the setup that was read; the blank one beside a refusal.
#[repr(C)]
#[derive(Clone, Copy)]
pub struct TextRead {
    pub numbered: Numbered,
    pub offset: usize,
    pub setup: Setup,
}

impl From<Result<GivenText, Fault>> for TextRead {
    ghost from_gives = { λ text read. ((read.numbered.kind, read.numbered.value, read.offset) ≡ text_numbers_of (faulted text)) × (read.setup ≡ setup_beside (faulted text)) };

    fn from(text: Result<GivenText, Fault>) -> TextRead {
        let (read, offset, setup) = match text {
            Ok(given) => (Ok(given.calls), 0, given.setup),
            Err(fault) => (Err(fault.refusal), fault.at, Setup::blank()),
        };
        TextRead {
            numbered: read.into(),
            offset,
            setup,
        }
    }
}

// Entry: a setup text read alone.
#[unsafe(no_mangle)]
pub extern "C" fn dw_read_alone(text: &[u8]) -> TextRead
    ensures { let t = read_alone text.now in
        ((result.numbered.kind, result.numbered.value, result.offset) ≡ text_numbers_of t) × (result.setup ≡ setup_beside t) }
{
    read_alone(text).into()
}

// Entry: a setup text and the call text that follows it, its calls into a lent run.
#[unsafe(no_mangle)]
pub extern "C" fn dw_read_with_calls(text: &[u8], room: &mut [u32]) -> TextRead
    ensures fact { let t = read_with_calls text.now (length room.old) in
        ((result.numbered.kind, result.numbered.value, result.offset) ≡ text_numbers_of t) × (result.setup ≡ setup_beside t) }
    ensures room { room.new ≡ room_read text.now room.old }
{
    read_with_calls(text, room).into()
}
