// Rule 9: heights, by recursion on the record number, which falls at each operand.
ghost use Rattle.std.specs.Prelude.{◌≡◌, true, false, suc, ◌<◌, ◌≤◌, leb, Option};
ghost use Rattle.tables.specs.Record.{last_kind, is_leaf};
ghost use Rattle.tables.specs.Shapes.{first_of};
ghost use Rattle.tables.specs.Sheet.{height as height_of};
ghost use Rattle.tables.specs.Check.{fault9};
ghost use Rattle.tables.specs.Accepted.{records};
ghost use Rattle.checking.specs.Answer.{found};
ghost use Rattle.checking.specs.Naming.{WholeTable};
ghost use Rattle.checking.specs.Scopes.{KeepsRule6};
ghost use Rattle.checking.specs.Heights.{AskLow, AskLast, LastLow, AskHighest, LeafFirst};

use tables::shape::is_leaf;
use tables::sheet::{AFTER_OPERATOR, PLAIN, Sheet};
use tables::{MOST_HEIGHT, MOST_RECORDS, kinds};

// Where the operands of a kind begin whose records have some: behind the operator of a unary or binary one.
fn first_of(kind: usize) -> usize
    requires { (is_leaf kind ≡ false) × (kind ≤ last_kind) }
    ensures { result ≡ first_of kind }
{
    if kind < kinds::IF {
        return AFTER_OPERATOR;
    }
    PLAIN
}

// Record r is a leaf, or has leaves alone as operands: where that is so, its height is at most so much, and it needs no recursion.
fn is_flat(sheet: &Sheet, r: usize, most: usize) -> bool
    requires { AskLow sheet.now r most }
    ensures { result ≡ true → height_of (records sheet.now) r ≤ most }
{
    let k = sheet.kind(r);
    if is_leaf(k) {
        return true;
    }
    if most == 1 {
        return false;
    }
    let first = first_of(k);
    let count = sheet.operands_from(r, first);
    for i in 0..count {
        let n = sheet.operand_from(r, first, i);
        if !is_leaf(sheet.kind(n)) {
            return false;
        }
    }
    true
}

// The last operand of record r, where the heights of those before it are at most so much; none where one is higher.
#[cycle(is_low_last_low)]
fn last_low(sheet: &Sheet, r: usize, first: usize, last: usize, most: usize) -> Option<usize>
    requires { AskLast sheet.now r first last most }
    ensures { LastLow (records sheet.now) r most result }
{
    for i in 0..last {
        let n = sheet.operand_from(r, first, i);
        if !is_flat(sheet, n, most) && !is_low(sheet, n, most) {
            return None;
        }
    }
    Some(sheet.operand_from(r, first, last))
}

// The height of record r is at most so much: so are its operands' with one less. The last of these takes the place of its record. Every record is
// named once, so that none is gone through twice.
#[cycle(is_low_last_low)]
fn is_low(sheet: &Sheet, r: usize, most: usize) -> bool
    requires { AskLow sheet.now r most }
    ensures { result ≡ leb (height_of (records sheet.now) r) most }
{
    let mut q = r;
    for room in (1..most).rev() {
        let k = sheet.kind(q);
        if is_leaf(k) {
            return true;
        }
        let first = first_of(k);
        let count = sheet.operands_from(q, first);
        if count == 0 {
            return true;
        }
        let Some(n) = last_low(sheet, q, first, count - 1, room) else {
            return false;
        };
        q = n;
    }
    sheet.operand_count(q) == 0
}

// The height of the highest operand of record r, where the heights of all lower records are noted; 0 where it has none.
fn highest(sheet: &Sheet, r: usize, heights: &[u8; MOST_RECORDS]) -> usize
    requires { AskHighest sheet.now r heights.now }
    ensures { suc result ≡ height_of (records sheet.now) r }
{
    let count = sheet.operand_count(r);
    let mut high = 0;
    for i in 0..count {
        let n = sheet.operand(r, i);
        high = high.max(usize::from(heights[n]));
    }
    high
}

// The lowest record that is too high. Heights are noted from the first record on, so that each takes one turn.
fn lowest_tall(sheet: &Sheet, count: usize) -> Option<usize>
    requires { KeepsRule6 sheet.now count }
    ensures { result ≡ found (fault9 (records sheet.now)) count }
{
    let mut heights = [0u8; MOST_RECORDS];
    for r in 0..count {
        let high = highest(sheet, r, &heights);
        if MOST_HEIGHT <= high {
            return Some(r);
        }
        heights[r] = (high + 1) as u8;
    }
    None
}

// How many records from the first on are leaves.
fn leading_leaves(sheet: &Sheet, count: usize) -> usize
    requires { WholeTable sheet.now count }
    ensures { LeafFirst (records sheet.now) count result }
{
    (0..count)
        .find(|&n| !is_leaf(sheet.kind(n)))
        .unwrap_or(count)
}

// The lowest record that breaks rule 9. No record is higher than the last, nor than one more than there are
// records from the first on that is no leaf.
pub fn lowest9(sheet: &Sheet, count: usize) -> Option<usize>
    requires { KeepsRule6 sheet.now count × (0 < count) }
    ensures { result ≡ found (fault9 (records sheet.now)) count }
{
    let leaves = leading_leaves(sheet, count);
    if count < leaves + MOST_HEIGHT || is_low(sheet, count - 1, MOST_HEIGHT) {
        return None;
    }
    lowest_tall(sheet, count)
}
