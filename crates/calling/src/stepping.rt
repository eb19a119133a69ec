// The rule of each code, and the step that matches the call.
ghost use Rattle.std.specs.Prelude.{◌≡◌, ◌<◌};
ghost use Rattle.rules.specs.Sizes.{most_processes};
ghost use Rattle.rules.specs.Stores.{unlocked, locked_by};
ghost use Rattle.rules.specs.Calls.{read_of, written_to, copied_to, yes_or_no, free_for};
ghost use Rattle.rules.specs.Parts.{process_of};
ghost use Rattle.calling.specs.Turns.{turn_of, quiet};

use crate::{Looks, Meeting, Turn};
use judging::fitting::is_written;
use rules::{Answer, Call, Cell};

// What is asked of a file's holder.

fn unlocked(holder: u32) -> bool
    ensures { result ≡ unlocked holder }
{
    holder == 0
}

fn locked_by(holder: u32, p: u32) -> bool
    ensures { result ≡ locked_by holder p }
{
    holder.checked_sub(1) == Some(p)
}

fn free_for(holder: u32, p: u32) -> bool
    ensures { result ≡ free_for holder p }
{
    unlocked(holder) | locked_by(holder, p)
}

// What READ, WRITE and COPY do with a content.

fn read_of(content: Cell) -> Answer
    ensures { result ≡ read_of content }
{
    if is_written(content) {
        Answer::Figure(content.figure)
    } else {
        Answer::Nothing
    }
}

fn written_to(content: Cell, x: u32) -> Cell
    ensures { result ≡ written_to content x }
{
    Cell {
        figure: x,
        written: 1,
    }
}

fn copied_to(content: Cell, source: Cell) -> Cell
    ensures { result ≡ copied_to content source }
{
    source
}

fn yes_or_no(held: bool) -> Answer
    ensures { result ≡ yes_or_no held }
{
    if held { Answer::Yes } else { Answer::No }
}

// A turn that answers nothing.
fn quiet(meeting: Meeting) -> Turn
    ensures { result ≡ quiet meeting }
{
    Turn {
        answer: Answer::Nothing,
        meeting,
    }
}

// The rule of each code, on what the call looks at: its answer, and what its process meets next of the file that it can change.
// The tests are joined by `&`: one branch for one row of the table.
#[tactic(auto, unfolding(crate::specs::Turns::turn_of))]
pub fn step(call: Call, look: Looks) -> Turn
    requires { process_of call < most_processes }
    ensures { result ≡ turn_of call look }
{
    let Looks {
        r,
        w,
        opened,
        holder,
        content,
        target,
    } = look;
    match call {
        Call::Read(p, _) if r & opened & free_for(holder, p) => Turn {
            answer: read_of(content),
            meeting: target,
        },
        Call::Write(p, _, x) if w & locked_by(target.holder, p) => {
            quiet(target.with_content(written_to(target.content, x)))
        }
        Call::Lock(p, _) if w & unlocked(target.holder) => quiet(target.with_holder(p + 1)),
        Call::Unlock(p, _) if w & locked_by(target.holder, p) => quiet(target.with_holder(0)),
        Call::Open(..) if r & unlocked(holder) => quiet(target.with_mark(1)),
        Call::Close(..) if r & opened => quiet(target.with_mark(0)),
        Call::Testlock(p, _) if r & w => Turn {
            answer: yes_or_no(locked_by(holder, p)),
            meeting: target,
        },
        Call::Copy(p, ..) if r & w & opened & free_for(holder, p) & locked_by(target.holder, p) => {
            quiet(target.with_content(copied_to(target.content, content)))
        }
        _ => quiet(target),
    }
}
