// Reading a setup's lines: one pass over the bytes, one loop for each kind of line that repeats.
ghost use Rattle.std.specs.Prelude.{◌≡◌, true, ◌≤◌, length, replicate};
ghost use Rattle.rules.specs.Sizes.{most_desks, most_classes, most_rights};
ghost use Rattle.rules.specs.Setups.{within_sizes};
ghost use Rattle.rules.specs.Refusals.{number_of};
ghost use Rattle.lines.specs.Shapes.{header};
ghost use Rattle.lines.specs.Readings.{Text};
ghost use Rattle.text.specs.Stages.{most_entry, AccessEnd, EntriesEnd, SetupEnd, SetupEndAfterHeader, SetupEndAfterAccess};

use crate::fault;
use fields::Counts;
use fields::shapes::{access_at, entry_line_at, header_at};
use fields::words::{WORD_FILE, WORD_PROCESS, Word};
use judging::fitting::within_sizes;
use lines::Fault;
use rules::{CLASSES, FILES, PROCESSES, RIGHTS, Refusal, Setup};

// The access lines from a cursor on, and the cursor after them. They end at the first line that has not their shape: if its first field
// is `access` all the same, the process line that is due finds it broken at the same offset. No `for`: nothing counts them, and each line
// says where the next begins.
#[tactic(auto, using(crate::proofs::Accessed::accessed_none, crate::proofs::ReadOn::line_past, crate::proofs::ReadOn::line_inside, crate::proofs::Accessed::right_inside))]
fn access_lines(
    text: &[u8],
    start: usize,
    desks: u32,
    classes: u32,
    rights: &mut [u8],
) -> Result<usize, Fault>
    requires { (start ≤ length text.now) × (desks ≤ most_desks) × (classes ≤ most_classes) × (rights.old ≡ replicate most_rights 0) }
    ensures { AccessEnd desks classes text.now start result rights.new }
{
    let mut at = start;
    // the least place that rises from the last line
    let mut least = 0;
    while let Some((next, line)) = access_at(text, at) {
        if desks <= line.desk {
            return Err(fault(Refusal::NoSuchDesk, at));
        }
        if classes <= line.class {
            return Err(fault(Refusal::NoSuchClass, at));
        }
        let place = line.desk as usize * CLASSES + line.class as usize;
        if place < least {
            return Err(fault(Refusal::BreaksRules, at));
        }
        rights[place] = line.right as u8;
        least = place + 1;
        at = next;
    }
    Ok(at)
}

// Lines of a word, a number that runs upward from 0 and an entry below a bound: one process line or file line for each entry.
fn entry_lines(
    text: &[u8],
    start: usize,
    word: Word<'_>,
    bound: u32,
    refusal: Refusal,
    entries: &mut [u8],
) -> Result<usize, Fault>
    requires { (start ≤ length text.now) × (bound ≤ most_entry) }
    ensures { EntriesEnd text.now start word.entry.bytes.now bound (number_of refusal) (length entries.old) result entries.new }
{
    let mut at = start;
    for (i, entry) in entries.iter_mut().enumerate() {
        let line = entry_line_at(text, at, word);
        let (next, line) = line.ok_or(fault(Refusal::BreaksRules, at))?;
        if bound <= line.second {
            return Err(fault(refusal, at));
        }
        if line.first as usize != i {
            return Err(fault(Refusal::BreaksRules, at));
        }
        *entry = line.second as u8;
        at = next;
    }
    Ok(at)
}

// The process lines and the file lines, after the access lines have given their rights.
#[tactic(auto, using(crate::proofs::Ended::sizes, crate::proofs::Ended::every_process, crate::proofs::Ended::every_file))]
fn entry_tables(
    text: &[u8],
    at: usize,
    counts: Counts,
    rights: [u8; RIGHTS],
) -> Result<(usize, Setup), Fault>
    requires { (at ≤ length text.now) × (within_sizes counts.desks counts.classes counts.processes counts.files ≡ true) }
    ensures { SetupEndAfterAccess text.now at (header counts.desks counts.classes counts.processes counts.files) rights result }
{
    let mut desk = [0u8; PROCESSES];
    let process = &mut desk[..counts.processes as usize];
    let at = entry_lines(
        text,
        at,
        WORD_PROCESS,
        counts.desks,
        Refusal::NoSuchDesk,
        process,
    )?;
    let mut class = [0u8; FILES];
    let file = &mut class[..counts.files as usize];
    let at = entry_lines(
        text,
        at,
        WORD_FILE,
        counts.classes,
        Refusal::NoSuchClass,
        file,
    )?;
    let setup = Setup {
        desks: counts.desks,
        classes: counts.classes,
        processes: counts.processes,
        files: counts.files,
        rights,
        desk,
        class,
    };
    Ok((at, setup))
}

// The lines after the header: the tables are filled as their lines are read.
#[tactic(auto, using(crate::proofs::Ended::sizes))]
fn table_lines(text: &[u8], at: usize, counts: Counts) -> Result<(usize, Setup), Fault>
    requires { (at ≤ length text.now) × (within_sizes counts.desks counts.classes counts.processes counts.files ≡ true) }
    ensures { SetupEndAfterHeader text.now at (header counts.desks counts.classes counts.processes counts.files) result }
{
    let mut rights = [0u8; RIGHTS];
    let at = access_lines(text, at, counts.desks, counts.classes, &mut rights)?;
    entry_tables(text, at, counts, rights)
}

// The header, access, process and file lines: the cursor after them, and the setup that they give.
#[tactic(auto, using(crate::proofs::ReadOn::line_inside))]
pub fn read_setup(text: &[u8]) -> Result<(usize, Setup), Fault>
    ensures { (t : Text) → SetupEnd t text.now result }
{
    let (at, counts) = header_at(text, 0).ok_or(fault(Refusal::BreaksRules, 0))?;
    if !within_sizes(counts.desks, counts.classes, counts.processes, counts.files) {
        return Err(fault(Refusal::CountOutside, 0));
    }
    table_lines(text, at, counts)
}
