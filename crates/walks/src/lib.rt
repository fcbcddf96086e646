// Walks: running a list, the first list of a table, and the step from a list to the next.
#![tactic(auto)]

ghost use Rattle.std.specs.Prelude.{◌≡◌, ◌<◌, ◌≤◌, ltb, length};
ghost use Rattle.choices.specs.State.{Invariant};
ghost use Rattle.choices.specs.Tree.{most_choices};
ghost use Rattle.choices.specs.Listing.{Lists, list_held};
ghost use Rattle.choices.specs.Paths.{first_list, next_list};
ghost use Rattle.lists.specs.Lent.{lent};
ghost use Rattle.meaning.specs.Answer.{weight, pack};
ghost use Rattle.meaning.specs.Service.{tree, onward};
ghost use Rattle.walks.specs.Steps.{Walkable, is_of_sheet, packed_refused, packed_of, settled, Ran, Answers, AtEnd, Steppable, Steps};

use choices::list::Walk;
use evaluator::{Refused, run_sheet};
use lists::{LEN, Run, USED, advance, list_of, start, start_walk};
use prelude::Refusal;
use tables::sheet::Sheet;

// What one unit of the place adds to an answer. One unit of the count adds the square of it.
const WEIGHT: usize = 65536;

// 35: no next list.
const NO_NEXT: usize = 35;

// Number, place and count as one number.
pub fn pack(number: usize, place: usize, count: usize) -> u64
    requires { (number < weight) × (place < weight) × (count < weight) }
    ensures { result ≡ pack number place count }
{
    (number + WEIGHT * (place + WEIGHT * count)) as u64
}

// A refusal as one number.
pub fn pack_refused(e: Refused) -> u64
    ensures { result ≡ packed_refused e }
{
    pack(
        e.refusal.number(),
        usize::from(e.place),
        usize::from(e.count),
    )
}

// An outcome as one number: that of success where there is a value.
pub fn pack_outcome(o: Result<(), Refused>) -> u64
    ensures { result ≡ packed_of o }
{
    match o {
        Ok(()) => pack(0, 0, 0),
        Err(e) => pack_refused(e),
    }
}

// Whether a run that is so refused followed a complete list: the refusal is none of the list's own.
fn is_of_sheet(refusal: Refusal) -> bool
    ensures { result ≡ is_of_sheet refusal }
{
    !matches!(
        refusal,
        Refusal::ListTooShort | Refusal::EntryTooHigh | Refusal::EntriesLeft
    )
}

// Whether a run left entries of its list.
fn has_left(run: &Run) -> bool
    requires { Invariant (lent run.now) }
    ensures { result ≡ ltb (lent run.now).used (lent run.now).len }
{
    run[USED] < run[LEN]
}

// The outcome of a run under a list: where entries are left, 34 stands in place of a value, at the place `last`, and of 20 to 31, at their own place.
fn settle(o: Result<(), Refused>, run: &Run, last: usize) -> Result<(), Refused>
    requires { Invariant (lent run.now) × (last < 256) }
    ensures { result ≡ settled o (lent run.now) last }
{
    if !has_left(run) {
        return o;
    }
    let Err(e) = o else {
        return Err(Refused::at(Refusal::EntriesLeft, last));
    };
    if is_of_sheet(e.refusal) {
        return Err(Refused::at(Refusal::EntriesLeft, usize::from(e.place)));
    }
    o
}

// The run of a list: a value, 20 to 31, or 32, 33 or 34. The value stands at the start of the scratch.
pub fn run_list(list: &[u8], sheet: &Sheet, count: usize, s: &mut [u8]) -> Result<(), Refused>
    requires { Walkable sheet.now count s.old × (length list.now ≤ most_choices) }
    ensures { Ran sheet.now list.now s.new result }
{
    let mut run = start(list, false);
    let o = run_sheet(sheet, count, s, &mut run);
    settle(o, &run, count - 1)
}

// The first list of a table: one run that grows from nothing.
pub fn first_walk(sheet: &Sheet, count: usize, s: &mut [u8]) -> Walk
    requires { Walkable sheet.now count s.old }
    ensures { Lists result (first_list (tree sheet.now)) × (length result.entries ≡ most_choices) }
{
    let mut run = start_walk(Walk::empty(), true);
    let _ = run_sheet(sheet, count, s, &mut run);
    list_of(&run)
}

// The answer of a step, and the walk after it.
#[derive(Clone, Copy)]
pub struct Stepped {
    pub answer: u64,
    pub walk: Walk,
}

// The step from the end of a complete list's run, which has learnt the numbers of ways: the last entry that can go up goes up, and a run grows from there
// to a complete list.
fn next_list(walk: Walk, sheet: &Sheet, count: usize, s: &mut [u8], learnt: Run) -> Stepped
    requires { Walkable sheet.now count s.old × AtEnd sheet.now walk learnt }
    ensures { Answers (onward (next_list (tree sheet.now) (list_held walk))) walk result }
{
    let mut run = learnt;
    if !advance(&mut run) {
        return Stepped {
            answer: pack(NO_NEXT, 0, 0),
            walk,
        };
    }
    let _ = run_sheet(sheet, count, s, &mut run);
    Stepped {
        answer: pack(0, 0, 0),
        walk: list_of(&run),
    }
}

// The step by value: 32, 33 or 34 where the list is not complete, 35 where no list comes after it.
pub fn next_walk(walk: Walk, sheet: &Sheet, count: usize, s: &mut [u8]) -> Stepped
    requires { Steppable sheet.now count s.old walk }
    ensures { Steps sheet.now walk result }
{
    let mut run = start_walk(walk, false);
    let o = run_sheet(sheet, count, s, &mut run);
    let ran = settle(o, &run, count - 1);
    if let Err(e) = ran {
        if !is_of_sheet(e.refusal) {
            return Stepped {
                answer: pack_outcome(ran),
                walk,
            };
        }
    }
    next_list(walk, sheet, count, s, run)
}

// The panel's walk, lent: the step overwrites it, and a refusal leaves it.
pub fn step(walk: &mut Walk, sheet: &Sheet, count: usize, s: &mut [u8]) -> u64
    requires { Steppable sheet.now count s.old walk.old }
    ensures { Steps sheet.now walk.old (record { answer = result; walk = walk.new }) }
{
    let next = next_walk(*walk, sheet, count, s);
    *walk = next.walk;
    next.answer
}
