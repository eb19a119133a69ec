// The entry: what the program prints for its input.
ghost use Rattle.std.specs.Prelude.{◌≡◌, ◌++◌, ◌+◌, ◌*◌, ◌≤◌, length, drop};
ghost use Rattle.rules.specs.Sizes.{most_calls};
ghost use Rattle.rules.specs.Stores.{fresh_store};
ghost use Rattle.rules.specs.Calls.{calls_of};
ghost use Rattle.lists.specs.Lists.{answers_over};
ghost use Rattle.lines.specs.Readings.{calls_follow, read_text};
ghost use Rattle.printing.specs.Outputs.{answer_lines, printed_of, printed};
ghost use Rattle.printing.specs.Writers.{Wrote, longest_line, Runs};

use crate::writing::Writer;
use crate::{INPUT, OUTPUT};
use lists::ANSWER_WIDTH;
use lists::running::run;
use rules::{CALL_WIDTH, CALLS, Refusal, Setup, Store};
use text::reading::read_with_calls;

// Runs calls on a fresh store, and prints their answers.
fn print_calls(setup: Setup, calls: &[u32], writer: &mut Writer<'_>)
    requires runs { Runs setup calls.now }
    requires room { writer.old.at + most_calls * longest_line ≤ length writer.old.out.now }
    ensures { Wrote writer.old (answer_lines 0 (answers_over setup fresh_store (calls_of calls.now))) writer.new }
{
    let mut answers = [0u32; CALLS * ANSWER_WIDTH];
    run(setup, Store::fresh(), calls, &mut answers);
    let numbers = calls.len() / CALL_WIDTH * ANSWER_WIDTH;
    writer.put_answers(&answers[..numbers]);
}

// A text that is no longer than the program takes: its calls are read and run, or its refusal is printed.
fn print_text(text: &[u8], writer: &mut Writer<'_>)
    requires { writer.old.at + most_calls * longest_line ≤ length writer.old.out.now }
    ensures { Wrote writer.old (printed_of (read_text calls_follow text.now)) writer.new }
{
    let mut calls = [0u32; CALLS * CALL_WIDTH];
    match read_with_calls(text, &mut calls) {
        Ok(given) => {
            let numbers = given.calls as usize * CALL_WIDTH;
            print_calls(given.setup, &calls[..numbers], writer);
        }
        Err(fault) => writer.put_refusal(fault.refusal, fault.at),
    }
}

// Entry: what the program prints for its input, at the front of a lent array that holds every output; the length is answered.
pub fn print(input: &[u8], out: &mut [u8; OUTPUT]) -> usize
    ensures value { result ≡ length (printed input.now) }
    ensures output { out.new ≡ printed input.now ++ drop (length (printed input.now)) out.old }
{
    let mut writer = Writer { out, at: 0 };
    if INPUT < input.len() {
        writer.put_refusal(Refusal::BreaksRules, INPUT);
        return writer.at;
    }
    print_text(input, &mut writer);
    writer.at
}
