// Whether a setup could have been accepted, the fresh store, and whether a store fits its setup.
ghost use Rattle.std.specs.Prelude.{◌≡◌, ◌<◌, length, get_or};
ghost use Rattle.rules.specs.Sizes.{most_desks, most_processes, most_files, within, every, table};
ghost use Rattle.rules.specs.Setups.{class_of, within_sizes, entry_fits, classes_at, row_fits, rights_fit, accepted};
ghost use Rattle.rules.specs.Stores.{is_written, is_blank, holder_of, content_of, mark_of, holder_fits, mark_fits, marks_fit, content_fits, file_is_blank, file_fits, fits};
ghost use Rattle.rules.specs.Refusals.{refusal_of, judge_refusal};
ghost use Rattle.rules.specs.Entries.{given_store, freshness};

use crate::rights::{entry_at, has_r, may_write, right};
use rules::{
    BOTH, CLASSES, Cell, DESKS, FILES, LEAST, PROCESSES, Refusal, Setup, Store, UNWRITTEN,
};

fn within(count: u32, most: usize) -> bool
    ensures { result ≡ within count most }
{
    LEAST <= count && count as usize <= most
}

// Four counts and no struct: callers have them in three (a setup's bytes, a setup, a header line), so one more would be no plainer.
#[tactic(auto, unfolding(rules::specs::Setups::within_sizes))]
pub fn within_sizes(desks: u32, classes: u32, processes: u32, files: u32) -> bool
    ensures { result ≡ within_sizes desks classes processes files }
{
    within(desks, DESKS)
        & within(classes, CLASSES)
        & within(processes, PROCESSES)
        & within(files, FILES)
}

#[tactic(auto, unfolding(rules::specs::Setups::entry_fits))]
fn entry_fits(count: usize, bound: usize, at: usize, entry: u8) -> bool
    ensures { result ≡ entry_fits count bound at entry }
{
    if at < count {
        (entry as usize) < bound
    } else {
        entry == 0
    }
}

// Every entry before the count is below the bound, and every entry past it is 0.
pub fn entries_fit(entries: &[u8], count: usize, bound: usize) -> bool
    ensures { result ≡ every (length entries.now) (λ i. entry_fits count bound i (get_or entries.now i 0)) }
{
    entries
        .iter()
        .enumerate()
        .all(|(i, entry)| entry_fits(count, bound, i, *entry))
}

// How many rights of a desk's row lie before the counts.
fn classes_at(setup: &Setup, desk: usize) -> usize
    ensures { result ≡ classes_at setup.now desk }
{
    if desk < setup.desks as usize {
        setup.classes as usize
    } else {
        0
    }
}

fn row_fits(setup: &Setup, desk: usize) -> bool
    requires { desk < most_desks }
    ensures { result ≡ row_fits setup.now desk }
{
    let start = desk * CLASSES;
    let row = &setup.rights[start..start + CLASSES];
    entries_fit(row, classes_at(setup, desk), BOTH as usize + 1)
}

// Rows by their desk: over `chunks_exact(CLASSES).enumerate()` the proof did not close, as `grind` met its limit of instances.
fn rights_fit(setup: &Setup) -> bool
    ensures { result ≡ rights_fit setup.now }
{
    (0..DESKS).all(|desk| row_fits(setup, desk))
}

#[tactic(auto, unfolding(rules::specs::Setups::accepted, rules::specs::Setups::desks_fit, rules::specs::Setups::classes_fit))]
pub fn accepted(setup: &Setup) -> bool
    ensures { result ≡ accepted setup.now }
{
    within_sizes(setup.desks, setup.classes, setup.processes, setup.files)
        & rights_fit(setup)
        & entries_fit(&setup.desk, setup.processes as usize, setup.desks as usize)
        & entries_fit(&setup.class, setup.files as usize, setup.classes as usize)
}

pub fn is_written(content: Cell) -> bool
    ensures { result ≡ is_written content }
{
    content.written == 1
}

fn is_blank(content: Cell) -> bool
    ensures { result ≡ is_blank content }
{
    content == UNWRITTEN
}

fn content_fits(content: Cell) -> bool
    ensures { result ≡ content_fits content }
{
    is_written(content) | is_blank(content)
}

#[tactic(auto, unfolding(rules::specs::Stores::holder_fits))]
fn holder_fits(setup: &Setup, f: usize, holder: u32) -> bool
    ensures { result ≡ holder_fits setup.now f holder }
{
    match holder.checked_sub(1) {
        Some(p) => p < setup.processes && may_write(setup, p as usize, f),
        None => true,
    }
}

// By the class of the file, which is looked up once for all its marks; the process's desk is another for each.
#[tactic(auto, unfolding(rules::specs::Stores::mark_fits, rules::specs::Setups::may_read))]
fn mark_fits(setup: &Setup, class: u8, f: usize, p: usize, mark: u8) -> bool
    requires { class ≡ class_of setup.now f }
    ensures { result ≡ mark_fits setup.now f p mark }
{
    if mark == 0 {
        return true;
    }
    if mark != 1 {
        return false;
    }
    p < setup.processes as usize && has_r(right(setup, entry_at(&setup.desk, p), class))
}

// The open marks of one file, by process. That f is one of the files is asked by clauses, here and below: each f is a range's, which bounds it.
#[tactic(auto, using(crate::proofs::Asked::part_table))]
fn marks_of(store: &Store, f: usize) -> &[u8]
    requires { f < most_files }
    ensures { result.now ≡ table most_processes (mark_of store.now f) }
{
    let start = f * PROCESSES;
    &store.marks[start..start + PROCESSES]
}

fn marks_fit(setup: &Setup, store: &Store, f: usize) -> bool
    requires { f < most_files }
    ensures { result ≡ marks_fit setup.now f (mark_of store.now f) }
{
    let class = entry_at(&setup.class, f);
    marks_of(store, f)
        .iter()
        .enumerate()
        .all(|(p, mark)| mark_fits(setup, class, f, p, *mark))
}

// A file past the files is unlocked, unopened and unwritten, with the figure 0.
fn file_is_blank(store: &Store, f: usize) -> bool
    requires { f < most_files }
    ensures { result ≡ file_is_blank (holder_of store.now f) (content_of store.now f) (mark_of store.now f) }
{
    let holder = store.holders[f];
    let content = store.cells[f];
    (holder == 0) & marks_of(store, f).iter().all(|mark| *mark == 0) & is_blank(content)
}

#[tactic(auto, unfolding(rules::specs::Stores::file_fits))]
fn file_fits(setup: &Setup, store: &Store, f: usize) -> bool
    requires { f < most_files }
    ensures { result ≡ file_fits setup.now f (holder_of store.now f) (content_of store.now f) (mark_of store.now f) }
{
    if setup.files as usize <= f {
        return file_is_blank(store, f);
    }
    let holder = store.holders[f];
    let content = store.cells[f];
    holder_fits(setup, f, holder) && marks_fit(setup, store, f) && content_fits(content)
}

// Files by their number: C lays a store out as arrays side by side.
fn store_fits(setup: &Setup, store: &Store) -> bool
    ensures { result ≡ fits setup.now store.now }
{
    (0..FILES).all(|f| file_fits(setup, store, f))
}

// Entry: whether the setup could have been accepted and the store fits it.
#[tactic(auto, unfolding(rules::specs::Refusals::judge_refusal))]
pub fn judge(setup: &Setup, store: &Store) -> Result<(), Refusal>
    ensures { refusal_of result ≡ judge_refusal setup.now store.now }
{
    if !accepted(setup) {
        return Err(Refusal::NotAccepted);
    }
    if !store_fits(setup, store) {
        return Err(Refusal::DoesNotFit);
    }
    Ok(())
}

// Entry: a fresh store for the setup, or its refusal.
#[tactic(auto, unfolding(rules::specs::Refusals::fresh_refusal, rules::specs::Entries::freshness))]
pub fn fresh(setup: &Setup) -> Result<Store, Refusal>
    ensures { given_store result ≡ freshness setup.now }
{
    if accepted(setup) {
        Ok(Store::fresh())
    } else {
        Err(Refusal::NotAccepted)
    }
}
