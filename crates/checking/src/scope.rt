// Rules 7 and 8: the names bound around each record, and whether it lies in a condition, as bits of one number.
ghost use Rattle.std.specs.Prelude.{◌≡◌, ◌+◌, ◌<◌, ◌^◌, length};
ghost use Rattle.tables.specs.Record.{role_at};
ghost use Rattle.tables.specs.Table.{record_at};
ghost use Rattle.tables.specs.Sheet.{pattern_of};
ghost use Rattle.tables.specs.Check.{most_records, fault7 as fault7_of, fault8 as fault8_of};
ghost use Rattle.tables.specs.Accepted.{records};
ghost use Rattle.checking.specs.Naming.{Listed};
ghost use Rattle.checking.specs.Answer.{found, broken_scope};
ghost use Rattle.checking.specs.Naming.{WholeTable};
ghost use Rattle.checking.specs.Scopes.{has_bit, or_bits, own as own_of, bits_below, given as given_by, Below, Around, AskBelow, KeepsRule6, AskGiven, AskPush, AskAround, AskName, AskChoice, AskScoped};

use tables::shape::is_loose;
use tables::sheet::Sheet;
use tables::{Fault, MOST_RECORDS, Role, Rule, kinds};

// A condition, and a loose pattern; the bits from 2 on are names.
const CONDITION: u32 = 1;

const LOOSE: u32 = 2;

// The bits of either.
pub fn union(a: u32, b: u32) -> u32
    ensures { result ≡ or_bits a b }
{
    a | b
}

// The number with bit n alone.
pub fn bit(n: usize) -> u32
    requires { n < 32 }
    ensures { result ≡ 2 ^ n }
{
    1 << n
}

// Bit n is set.
pub fn has(m: u32, n: usize) -> bool
    requires { n < 32 }
    ensures { result ≡ has_bit m n }
{
    (m >> n) % 2 == 1
}

// The bits of record r itself.
pub fn own(sheet: &Sheet, r: usize) -> u32
    requires { Listed sheet.now r }
    ensures { result ≡ own_of (record_at (records sheet.now) r) }
{
    let k = sheet.kind(r);
    if k == kinds::NAME_PATTERN {
        return bit(sheet.field(r, 0) + 2);
    }
    if is_loose(k) {
        return LOOSE;
    }
    0
}

// The bits of record r and of all below it.
fn held_at(sheet: &Sheet, r: usize, below: &[u32; MOST_RECORDS]) -> u32
    requires { AskBelow sheet.now r below.now }
    ensures { result ≡ bits_below (records sheet.now) r }
{
    let count = sheet.operand_count(r);
    let mut m = own(sheet, r);
    for i in 0..count {
        m = union(m, below[sheet.operand(r, i)]);
    }
    m
}

// Fills in the bits below each record, from the first on.
fn fill_below(sheet: &Sheet, count: usize, below: &mut [u32; MOST_RECORDS])
    requires { KeepsRule6 sheet.now count × (length below.old ≡ most_records) }
    ensures { Below (records sheet.now) below.new (length (records sheet.now)) }
{
    for r in 0..count {
        below[r] = held_at(sheet, r, below);
    }
}

// The bits of the pattern of record q.
fn pattern_bits(sheet: &Sheet, q: usize, below: &[u32; MOST_RECORDS]) -> u32
    requires { AskGiven sheet.now q 0 below.now }
    ensures { result ≡ bits_below (records sheet.now) (pattern_of (records sheet.now) q) }
{
    below[sheet.operand(q, 0)]
}

// What record q adds around its operand i.
fn given(sheet: &Sheet, q: usize, i: usize, below: &[u32; MOST_RECORDS]) -> u32
    requires { AskGiven sheet.now q i below.now }
    ensures { result ≡ given_by (records sheet.now) q (role_at (record_at (records sheet.now) q) i) }
{
    match sheet.role(q, i) {
        Role::Condition => union(pattern_bits(sheet, q, below), CONDITION),
        Role::Body => pattern_bits(sheet, q, below),
        Role::Plain | Role::Pattern | Role::Name => 0,
    }
}

// Hands the bits around record q, and its own, on to its operands.
fn push(sheet: &Sheet, q: usize, below: &[u32; MOST_RECORDS], above: &mut [u32; MOST_RECORDS])
    requires { AskPush sheet.now q below.now above.old }
    ensures { Around (records sheet.now) above.new q }
{
    let count = sheet.operand_count(q);
    let up = above[q];
    for i in 0..count {
        above[sheet.operand(q, i)] = union(up, given(sheet, q, i, below));
    }
}

// Fills in the bits around each record, from the last down.
fn fill_around(
    sheet: &Sheet,
    count: usize,
    below: &[u32; MOST_RECORDS],
    above: &mut [u32; MOST_RECORDS],
)
    requires { AskAround sheet.now count below.now above.old }
    ensures { Around (records sheet.now) above.new 0 }
{
    for q in (0..count).rev() {
        push(sheet, q, below, above);
    }
}

// Record r breaks rule 7: a name not bound around it, or a pattern name that is.
fn breaks7(sheet: &Sheet, r: usize, above: &[u32; MOST_RECORDS]) -> bool
    requires { AskName sheet.now r above.now }
    ensures { result ≡ fault7_of (records sheet.now) r }
{
    let k = sheet.kind(r);
    if k == kinds::NAME {
        return !has(above[r], sheet.field(r, 0) + 2);
    }
    if k == kinds::NAME_PATTERN {
        return has(above[r], sheet.field(r, 0) + 2);
    }
    false
}

// Record r breaks rule 8: a let-be or a loose let inside a condition.
fn breaks8(
    sheet: &Sheet,
    r: usize,
    below: &[u32; MOST_RECORDS],
    above: &[u32; MOST_RECORDS],
) -> bool
    requires { AskChoice sheet.now r below.now above.now }
    ensures { result ≡ fault8_of (records sheet.now) r }
{
    let k = sheet.kind(r);
    if k == kinds::LET_BE {
        return has(above[r], 0);
    }
    if k != kinds::LET {
        return false;
    }
    has(pattern_bits(sheet, r, below), 1) && has(above[r], 0)
}

// The lowest record that breaks rule 7.
fn lowest7(sheet: &Sheet, count: usize, above: &[u32; MOST_RECORDS]) -> Option<usize>
    requires { WholeTable sheet.now count × Around (records sheet.now) above.now 0 }
    ensures { result ≡ found (fault7_of (records sheet.now)) count }
{
    (0..count).find(|&r| breaks7(sheet, r, above))
}

// The lowest record that breaks rule 8.
fn lowest8(
    sheet: &Sheet,
    count: usize,
    below: &[u32; MOST_RECORDS],
    above: &[u32; MOST_RECORDS],
) -> Option<usize>
    requires { AskScoped sheet.now count below.now above.now }
    ensures { result ≡ found (fault8_of (records sheet.now)) count }
{
    (0..count).find(|&r| breaks8(sheet, r, below, above))
}

// The lowest record that breaks rule 7, and the lowest that breaks rule 8, if there are such.
#[derive(Clone, Copy)]
pub struct Lows {
    pub low7: Option<usize>,
    pub low8: Option<usize>,
}

// The lowest records that break rules 7 and 8.
pub fn lowest78(sheet: &Sheet, count: usize) -> Lows
    requires { KeepsRule6 sheet.now count }
    ensures { (result.low7 ≡ found (fault7_of (records sheet.now)) count) × (result.low8 ≡ found (fault8_of (records sheet.now)) count) }
{
    let mut below = [0u32; MOST_RECORDS];
    fill_below(sheet, count, &mut below);
    let mut above = [0u32; MOST_RECORDS];
    fill_around(sheet, count, &below, &mut above);
    let low7 = lowest7(sheet, count, &above);
    let low8 = lowest8(sheet, count, &below, &above);
    Lows { low7, low8 }
}

// The first of rules 7 and 8 that is broken, and the lowest record at fault.
pub fn scope_fault(sheet: &Sheet, count: usize) -> Option<Fault>
    requires { KeepsRule6 sheet.now count }
    ensures { result ≡ broken_scope (records sheet.now) count }
{
    let lows = lowest78(sheet, count);
    if let Some(place) = lows.low7 {
        return Some(Fault {
            rule: Rule::WrongBinding,
            place,
        });
    }
    let place = lows.low8?;
    Some(Fault {
        rule: Rule::ChoiceInCondition,
        place,
    })
}
