// One pass over the records that tells whether rules 6 to 8 are kept; where one is broken, the passes rule by rule tell which.
ghost use Rattle.std.specs.Prelude.{◌≡◌, true, false, ◌<◌, ◌≤◌};
ghost use Rattle.tables.specs.Record.{last_kind};
ghost use Rattle.tables.specs.Shapes.{first_of};
ghost use Rattle.tables.specs.Table.{record_at, kind_at};
ghost use Rattle.tables.specs.Sheet.{is_binder};
ghost use Rattle.tables.specs.Check.{most_records};
ghost use Rattle.tables.specs.Accepted.{records};
ghost use Rattle.checking.specs.Naming.{Listed};
ghost use Rattle.checking.specs.Naming.{WholeTable};
ghost use Rattle.checking.specs.Scopes.{own as own_of};
ghost use Rattle.checking.specs.Sweeps.{without as without_of, apart, sort_of, asked, is_named, covered_by, handed_on, choice_of, AskOperand, Adds, one_role, names_of, AskSum, AskKind, Gathered, RecordAdded, AskSweep, Passed, NoneLeft, Closed, Keeps};

use crate::scope::{bit, has, own, union};
use tables::shape::{first_operand, is_binder, is_pattern, role_of};
use tables::sheet::{AFTER_OPERATOR, PLAIN, Sheet};
use tables::{MOST_RECORDS, Role, kinds};

// For each number that a byte holds: whether such a record is left to be named, and of which sort.
pub type Left = [u8; 256];

const NONE: u8 = 0;

const EXPRESSION: u8 = 1;

const PATTERN: u8 = 2;

// The first bit of a name; a choice is bit 0.
const CHOICE: u32 = 1;

const FIRST_NAME: u32 = 4;

// What a record and its operands come to: the bits held at and below it, as in `scope`; the names that are free there (bits from 2 on) and whether
// there is a choice (bit 0).
#[derive(Clone, Copy)]
pub struct Sum {
    pub held: u32,
    pub free: u32,
}

// ---- bits

// The bits of a that b does not have.
fn without(a: u32, b: u32) -> u32
    ensures { result ≡ without_of a b }
{
    (a | b) ^ b
}

// No name is in both.
fn is_apart(a: u32, b: u32) -> bool
    ensures { result ≡ apart a b }
{
    (a & b) < FIRST_NAME
}

// ---- one operand

// The sort that a role asks for.
fn wanted(role: Role) -> u8
    ensures { result ≡ asked role }
{
    match role {
        Role::Plain | Role::Condition | Role::Body => EXPRESSION,
        Role::Pattern | Role::Name => PATTERN,
    }
}

// Record n is a name pattern where the role asks for one.
fn is_named(sheet: &Sheet, role: Role, n: usize) -> bool
    requires { Listed sheet.now n }
    ensures { result ≡ is_named role (kind_at (records sheet.now) n) }
{
    match role {
        Role::Plain | Role::Condition | Role::Body | Role::Pattern => true,
        Role::Name => sheet.kind(n) == kinds::NAME_PATTERN,
    }
}

// What is handed on of the free bits of an operand that a binder's names cover: all but those names. None where one of them is bound there anew.
fn covered(names: u32, held: u32, free: u32) -> Option<u32>
    ensures { result ≡ covered_by names held free }
{
    is_apart(held, names).then_some(without(free, names))
}

// What is handed on of the free bits of an operand of a role: all where no names cover it. None where a condition has a choice.
fn hand_on(role: Role, names: u32, held: u32, free: u32) -> Option<u32>
    ensures { result ≡ handed_on role names held free }
{
    match role {
        Role::Plain | Role::Pattern | Role::Name => Some(free),
        Role::Condition => {
            if has(free, 0) {
                return None;
            }
            covered(names, held, free)
        }
        Role::Body => covered(names, held, free),
    }
}

// What a record comes to with one more operand, the record n, which is not left to be named any more; none where a rule is broken.
fn add_operand(
    sheet: &Sheet,
    s: Sum,
    role: Role,
    n: usize,
    names: u32,
    left: &mut Left,
    below: &[u32; MOST_RECORDS],
    frees: &[u32; MOST_RECORDS],
) -> Option<Sum>
    requires { AskOperand sheet.now n left.old }
    ensures { Adds (records sheet.now) role n names left.old left.new below.now frees.now s result }
{
    if left[n] != wanted(role) || !is_named(sheet, role, n) {
        return None;
    }
    left[n] = NONE;
    let held = below[n];
    let free = hand_on(role, names, held, frees[n])?;
    Some(Sum {
        held: union(s.held, held),
        free: union(s.free, free),
    })
}

// ---- one record

// The role of all operands of a kind that binds nothing.
fn one_role(kind: usize) -> Role
    ensures { result ≡ one_role kind }
{
    if is_pattern(kind) {
        return Role::Pattern;
    }
    Role::Plain
}

// Where the operands of a kind begin, from the operators on: as far as expressions have any, one test tells it.
fn first_byte(kind: usize) -> usize
    requires { (3 < kind) × (kind ≤ last_kind) }
    ensures { result ≡ first_of kind }
{
    if kinds::APPLY < kind {
        return first_operand(kind);
    }
    if kind < kinds::IF {
        return AFTER_OPERATOR;
    }
    PLAIN
}

// The bits of record r itself: an expression has none.
fn own_of(sheet: &Sheet, r: usize, kind: usize) -> u32
    requires { Listed sheet.now r × (kind ≡ kind_at (records sheet.now) r) }
    ensures { result ≡ own_of (record_at (records sheet.now) r) }
{
    if is_pattern(kind) {
        return own(sheet, r);
    }
    0
}

// What record r and its operands come to, where it binds nothing; its operands are not left to be named any more. None where a rule is broken.
fn gather(
    sheet: &Sheet,
    r: usize,
    kind: usize,
    left: &mut Left,
    below: &[u32; MOST_RECORDS],
    frees: &[u32; MOST_RECORDS],
) -> Option<Sum>
    requires { AskKind sheet.now r kind left.old below.now frees.now × (3 < kind) × (is_binder kind ≡ false) }
    ensures { Gathered (records sheet.now) r left.new frees.now result }
{
    let mut s = Sum {
        held: own_of(sheet, r, kind),
        free: 0,
    };
    let role = one_role(kind);
    let first = first_byte(kind);
    let count = sheet.operands_from(r, first);
    for i in 0..count {
        let n = sheet.operand_from(r, first, i);
        s = add_operand(sheet, s, role, n, 0, left, below, frees)?;
    }
    Some(s)
}

// The bits that the pattern p of record r holds; 0 where p is not lower.
fn names_of(below: &[u32; MOST_RECORDS], r: usize, p: usize) -> u32
    requires { r ≤ most_records }
    ensures { result ≡ names_of below.now r p }
{
    if r <= p {
        return 0;
    }
    below[p]
}

// The choice bit, where a record of the kind chooses by itself: a let-be, and a let whose pattern is loose.
fn choice(kind: usize, names: u32) -> u32
    ensures { result ≡ choice_of kind names }
{
    if kind == kinds::LET_BE {
        return CHOICE;
    }
    if kind != kinds::LET {
        return 0;
    }
    if has(names, 1) {
        return CHOICE;
    }
    0
}

// What record r and its operands come to, where it is a binder, whose operands differ in their roles: its pattern, its set or value, its condition
// (a let has none), and its bodies. None where a rule is broken.
fn bind(
    sheet: &Sheet,
    r: usize,
    kind: usize,
    left: &mut Left,
    below: &[u32; MOST_RECORDS],
    frees: &[u32; MOST_RECORDS],
) -> Option<Sum>
    requires { AskKind sheet.now r kind left.old below.now frees.now × (is_binder kind ≡ true) }
    ensures { Gathered (records sheet.now) r left.new frees.now result }
{
    let p = sheet.operand_from(r, PLAIN, 0);
    let names = names_of(below, r, p);
    let mut s = Sum {
        held: 0,
        free: choice(kind, names),
    };
    let role = role_of(kind, 0);
    s = add_operand(sheet, s, role, p, names, left, below, frees)?;
    let n = sheet.operand_from(r, PLAIN, 1);
    s = add_operand(sheet, s, Role::Plain, n, names, left, below, frees)?;
    let n = sheet.operand_from(r, PLAIN, 2);
    let role = role_of(kind, 2);
    s = add_operand(sheet, s, role, n, names, left, below, frees)?;
    let count = sheet.operands_from(r, PLAIN);
    for i in 3..count {
        let n = sheet.operand_from(r, PLAIN, i);
        s = add_operand(sheet, s, Role::Body, n, names, left, below, frees)?;
    }
    Some(s)
}

// What record r and its operands come to. A name has no operands, and leaves itself free. None where a rule is broken.
fn sum_of(
    sheet: &Sheet,
    r: usize,
    kind: usize,
    left: &mut Left,
    below: &[u32; MOST_RECORDS],
    frees: &[u32; MOST_RECORDS],
) -> Option<Sum>
    requires { AskKind sheet.now r kind left.old below.now frees.now × (2 < kind) }
    ensures { Gathered (records sheet.now) r left.new frees.now result }
{
    if kind == kinds::NAME {
        return Some(Sum {
            held: 0,
            free: bit(sheet.field(r, 0) + 2),
        });
    }
    if is_binder(kind) {
        return bind(sheet, r, kind, left, below, frees);
    }
    gather(sheet, r, kind, left, below, frees)
}

// ---- all records

// The sort of the records of a kind.
fn sort_of(kind: usize) -> u8
    ensures { result ≡ sort_of kind }
{
    if is_pattern(kind) {
        return PATTERN;
    }
    EXPRESSION
}

// Adds record r with what it and its operands come to, and leaves it to be named; false where a rule is broken. A boolean, an integer and
// any have no operands, and hold and leave nothing.
fn add_record(
    sheet: &Sheet,
    r: usize,
    left: &mut Left,
    below: &mut [u32; MOST_RECORDS],
    frees: &mut [u32; MOST_RECORDS],
) -> bool
    requires { AskSum sheet.now r left.old below.old frees.old }
    ensures { (result ≡ true → RecordAdded (records sheet.now) r left.new below.new frees.new) × (Keeps (records sheet.now) → result ≡ true) }
{
    let k = sheet.kind(r);
    if k < kinds::NAME {
        left[r] = EXPRESSION;
        return true;
    }
    if k == kinds::ANY_PATTERN {
        left[r] = PATTERN;
        return true;
    }
    let Some(s) = sum_of(sheet, r, k, left, below, frees) else {
        return false;
    };
    left[r] = sort_of(k);
    below[r] = s.held;
    frees[r] = s.free;
    true
}

// Adds all records, from the first on; false where a rule is broken.
fn add_records(
    sheet: &Sheet,
    count: usize,
    left: &mut Left,
    below: &mut [u32; MOST_RECORDS],
    frees: &mut [u32; MOST_RECORDS],
) -> bool
    requires { AskSweep sheet.now count left.old below.old frees.old }
    ensures { (result ≡ true → Passed (records sheet.now) left.new frees.new) × (Keeps (records sheet.now) → result ≡ true) }
{
    for r in 0..count {
        if !add_record(sheet, r, left, below, frees) {
            return false;
        }
    }
    true
}

// ---- the pass

// No record below n is left.
fn is_none_left(left: &Left, n: usize) -> bool
    requires { n ≤ 256 }
    ensures { (result ≡ true → NoneLeft left.now n) × (NoneLeft left.now n → result ≡ true) }
{
    left[..n].iter().all(|mark| *mark == NONE)
}

// The last record is an expression, with no name free, and the only one left.
fn is_closed(left: &Left, frees: &[u32; MOST_RECORDS], last: usize) -> bool
    requires { last < most_records }
    ensures { (result ≡ true → Closed left.now frees.now last) × (Closed left.now frees.now last → result ≡ true) }
{
    left[last] == EXPRESSION && frees[last] < FIRST_NAME && is_none_left(left, last)
}

// One pass over all records: whether rules 6 to 8 are kept.
pub fn sweep(sheet: &Sheet, count: usize) -> bool
    requires { WholeTable sheet.now count × (0 < count) }
    ensures { (result ≡ true → Keeps (records sheet.now)) × (Keeps (records sheet.now) → result ≡ true) }
{
    let mut left = [NONE; 256];
    let mut below = [0u32; MOST_RECORDS];
    let mut frees = [0u32; MOST_RECORDS];
    add_records(sheet, count, &mut left, &mut below, &mut frees)
        && is_closed(&left, &frees, count - 1)
}
