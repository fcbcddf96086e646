// Wildcards beside wildcards: any and a pattern that takes in any more items, side by side, have the bindings of that pattern alone. So a concatenation
// of many wildcards is gone through as one of few.
ghost use Rattle.std.specs.Prelude.{◌<◌};
ghost use Rattle.patterns.specs.Read.{Readable};
ghost use Rattle.forming.specs.Inner.{Composed};
ghost use Rattle.forming.specs.Reduced.{TellsAll, TellsMore, SpareHeld, TellsSpare, Reduced};

use tables::kinds;
use tables::sheet::Sheet;

// Any, or a concatenation of halves that are so: the pattern matches every sequence.
fn accepts_all(sheet: &Sheet, p: usize) -> bool
    requires { Readable sheet.now p }
    ensures { TellsAll sheet.now p result }
{
    let k = sheet.kind(p);
    if k == kinds::ANY_PATTERN {
        return true;
    }
    if k != kinds::CONCATENATION_PATTERN {
        return false;
    }
    let l = sheet.operand(p, 0);
    let r = sheet.operand(p, 1);
    accepts_all(sheet, l) && accepts_all(sheet, r)
}

// Any, or a concatenation whose half on that side is so: the pattern takes in any more items before (side 0) or after its own.
fn takes_more(sheet: &Sheet, p: usize, side: usize) -> bool
    requires { Readable sheet.now p × (side < 2) }
    ensures { TellsMore sheet.now p side result }
{
    let k = sheet.kind(p);
    if k == kinds::ANY_PATTERN {
        return true;
    }
    if k != kinds::CONCATENATION_PATTERN {
        return false;
    }
    let q = sheet.operand(p, side);
    takes_more(sheet, q, side)
}

// One half of a concatenation matches all, and the other takes in any more: the other has the same bindings.
fn is_spare(sheet: &Sheet, p: usize, side: usize) -> bool
    requires { SpareHeld sheet.now p side }
    ensures { TellsSpare sheet.now p side result }
{
    let u = sheet.operand(p, side);
    if !accepts_all(sheet, u) {
        return false;
    }
    let q = sheet.operand(p, 1 - side);
    sheet.kind(q) == kinds::CONCATENATION_PATTERN && takes_more(sheet, q, side)
}

// The half that is left of a concatenation, where the other is spare; else the pattern itself.
fn less_spare(sheet: &Sheet, p: usize) -> usize
    requires { Composed sheet.now p }
    ensures { Reduced sheet.now p result }
{
    let k = sheet.kind(p);
    if k != kinds::CONCATENATION_PATTERN {
        return p;
    }
    if is_spare(sheet, p, 0) {
        return sheet.operand(p, 1);
    }
    if is_spare(sheet, p, 1) {
        return sheet.operand(p, 0);
    }
    p
}

// The record of a pattern with the same bindings, without wildcards that are spare.
pub fn reduced(sheet: &Sheet, p: usize) -> usize
    requires { Composed sheet.now p }
    ensures { Reduced sheet.now p result }
{
    let mut last = p;
    let mut q = less_spare(sheet, p);
    while q < last {
        last = q;
        q = less_spare(sheet, last);
    }
    q
}
