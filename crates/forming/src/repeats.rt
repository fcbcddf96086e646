// Repeats: a pattern with wildcards may match in many ways with the same values of its names. What follows is then gone through once: where a row
// that was inserted in a way gone through agrees with all that is found, all that would follow is among the rows already.
ghost use Rattle.std.specs.Prelude.{◌≡◌, ◌≤◌, length};
ghost use Rattle.patterns.specs.Read.{Readable};
ghost use Rattle.forming.specs.Frames.{most_frames, frames_bytes};
ghost use Rattle.forming.specs.Repeats.{TellsAny, RepeatHeld, TellsRepeat};

use crate::frames::Frames;
use crate::{Agenda, Rows, frames, rows, settled, sizes};
use parts::words::Env;
use tables::kinds;
use tables::shape::is_composed;
use tables::sheet::Sheet;

// A pattern holds a wildcard.
fn holds_any(sheet: &Sheet, p: usize) -> bool
    requires { Readable sheet.now p }
    ensures { TellsAny sheet.now p result }
{
    let k = sheet.kind(p);
    if k == kinds::ANY_PATTERN {
        return true;
    }
    if !is_composed(k) {
        return false;
    }
    for i in 0..sheet.operand_count(p) {
        let q = sheet.operand(p, i);
        if holds_any(sheet, q) {
            return true;
        }
    }
    false
}

// The lowest frame up to which the patterns of all, from the last down, are matched: the entry at stood on the agenda before any of their parts.
fn lowest_matched(frames: &Frames, depth: usize, at: usize) -> usize
    requires { (depth ≤ most_frames) × (length frames.now ≡ frames_bytes) }
    ensures { result ≤ depth }
{
    for j in (0..depth).rev() {
        if frames::top_of(frames, j) <= at {
            return j + 1;
        }
    }
    0
}

// All that follows what is found, the entry at first, is among the rows already. This is asked only where the pattern of that entry has two halves:
// another is mostly gone through at less cost than the question.
pub fn is_repeat(
    sheet: &Sheet,
    agenda: &Agenda,
    at: usize,
    found: &[u32; Env::NAMES],
    frames: &Frames,
    depth: usize,
    rows: &Rows,
) -> bool
    requires { RepeatHeld sheet.now agenda.now at frames.now depth }
    ensures { TellsRepeat sheet.now found.now frames.now depth rows.now result }
{
    let p = agenda[3 * at] as usize;
    let k = sheet.kind(p);
    if !sizes::splits(k) {
        return false;
    }
    let j = lowest_matched(frames, depth, at);
    if depth <= j {
        return false;
    }
    let f = frames::load(frames, j);
    if f.seen <= f.since || !holds_any(sheet, f.p) {
        return false;
    }
    settled::is_settled(sheet, f.p, found) && rows::some_agrees(found, rows, f.since, f.seen)
}
