// Rule 6: operands lower, of their sort and named once; no record but the last without a name; no pattern as the last.
ghost use Rattle.std.specs.Prelude.{◌≡◌, List, [], ◌∷◌, ◌++◌, ℕ, suc, ◌+◌, ◌<◌, ◌≤◌, length, take};
ghost use Rattle.tables.specs.Check.{most_records, all_named, is_of_sort, is_bad, is_stray, fault6};
ghost use Rattle.tables.specs.Accepted.{records};
ghost use Rattle.checking.specs.Answer.{found};
ghost use Rattle.checking.specs.Naming.{Marked, AskBad, AskMarks, MarkedOne, AskNext, MarkedNext, WholeTable, AskAll, MarkedAll, AskStray};

use tables::shape::{is_expression, is_pattern};
use tables::sheet::Sheet;
use tables::{MOST_RECORDS, Role, kinds};

// A record of this kind is of the sort that the role asks for.
fn is_of_sort(role: Role, kind: usize) -> bool
    ensures { result ≡ is_of_sort role kind }
{
    match role {
        Role::Plain => is_expression(kind),
        Role::Condition => is_expression(kind),
        Role::Body => is_expression(kind),
        Role::Pattern => is_pattern(kind),
        Role::Name => kind == kinds::NAME_PATTERN,
    }
}

// Marks the number n, if it can be a record's.
fn mark(marks: &mut [bool; MOST_RECORDS], n: usize)
    ensures { (ms : List ℕ) → Marked marks.old ms → Marked marks.new (ms ++ (n ∷ [])) }
{
    if n < MOST_RECORDS {
        marks[n] = true;
    }
}

// Operand i of record r is at fault, where the numbers named before it are marked.
fn is_bad(sheet: &Sheet, r: usize, i: usize, marks: &[bool; MOST_RECORDS]) -> bool
    requires { AskBad sheet.now r i marks.now }
    ensures { result ≡ is_bad (records sheet.now) r i }
{
    let n = sheet.operand(r, i);
    r <= n || !is_of_sort(sheet.role(r, i), sheet.kind(n)) || marks[n]
}

// Whether some operand of record r is at fault; marks the numbers that it names.
fn mark_operands(sheet: &Sheet, r: usize, marks: &mut [bool; MOST_RECORDS]) -> bool
    requires { AskMarks sheet.now r marks.old }
    ensures { MarkedOne sheet.now r marks.new result }
{
    let count = sheet.operand_count(r);
    let mut bad = false;
    for i in 0..count {
        bad |= is_bad(sheet, r, i, marks);
        mark(marks, sheet.operand(r, i));
    }
    bad
}

// Marks the numbers that record r names.
fn mark_named(sheet: &Sheet, r: usize, marks: &mut [bool; MOST_RECORDS])
    requires { AskMarks sheet.now r marks.old }
    ensures { Marked marks.new (all_named (take (suc r) (records sheet.now))) }
{
    let count = sheet.operand_count(r);
    for i in 0..count {
        mark(marks, sheet.operand(r, i));
    }
}

// The lowest record up to r with an operand at fault, where `low` is the lowest below r; marks the numbers that r names.
fn mark_next(
    sheet: &Sheet,
    r: usize,
    low: Option<usize>,
    marks: &mut [bool; MOST_RECORDS],
) -> Option<usize>
    requires { AskNext sheet.now r low marks.old }
    ensures { MarkedNext sheet.now r marks.new result }
{
    if low.is_some() {
        mark_named(sheet, r, marks);
        return low;
    }
    mark_operands(sheet, r, marks).then_some(r)
}

// The lowest record with an operand at fault; marks all numbers that are named.
fn mark_all(sheet: &Sheet, count: usize, marks: &mut [bool; MOST_RECORDS]) -> Option<usize>
    requires { AskAll sheet.now count marks.old }
    ensures { MarkedAll sheet.now marks.new result }
{
    let mut low = None;
    for r in 0..count {
        low = mark_next(sheet, r, low, marks);
    }
    low
}

// Record r is never named, or is the last and a pattern.
fn is_stray(sheet: &Sheet, count: usize, r: usize, marks: &[bool; MOST_RECORDS]) -> bool
    requires { AskStray sheet.now count marks.now × (r < count) }
    ensures { result ≡ is_stray (records sheet.now) r }
{
    if r + 1 == count {
        return is_pattern(sheet.kind(r));
    }
    !marks[r]
}

// The lowest record below `end` that is never named, or is the last and a pattern.
fn lowest_stray(
    sheet: &Sheet,
    count: usize,
    end: usize,
    marks: &[bool; MOST_RECORDS],
) -> Option<usize>
    requires { AskStray sheet.now count marks.now × (end ≤ count) }
    ensures { result ≡ found (is_stray (records sheet.now)) end }
{
    (0..end).find(|&r| is_stray(sheet, count, r, marks))
}

// The lowest record that breaks rule 6.
pub fn lowest6(sheet: &Sheet, count: usize) -> Option<usize>
    requires { WholeTable sheet.now count }
    ensures { result ≡ found (fault6 (records sheet.now)) count }
{
    let mut marks = [false; MOST_RECORDS];
    let bad = mark_all(sheet, count, &mut marks);
    lowest_stray(sheet, count, bad.unwrap_or(count), &marks).or(bad)
}
