// Whether a union or munion pattern is met by a set or map too large to split, wherever kind and count fit: number 29.
#![tactic(auto)]

ghost use Rattle.std.specs.Prelude.{◌≤◌, length};
ghost use Rattle.patterns.specs.Read.{Readable};
ghost use Rattle.parts.specs.Part.{PartHeld};
ghost use Rattle.splitting.specs.Told.{TellsSplit, TellsShallow, TellsWide, TellsWays, TellsWay, WaysHeld, WayHeld};

use matching::nodes;
use matching::nodes::Misfit;
use parts::Part;
use tables::shape::is_composed;
use tables::sheet::Sheet;

// A pattern holds a union or munion pattern.
// As `holds_any` and `is_settled` of forming but for the test: one function over a closure would be longer, with its bound, clauses and a law for each test.
fn has_split(sheet: &Sheet, p: usize) -> bool
    requires { Readable sheet.now p }
    ensures { TellsSplit sheet.now p result }
{
    let k = sheet.kind(p);
    if !is_composed(k) {
        return false;
    }
    if nodes::is_split(k) {
        return true;
    }
    for i in 0..sheet.operand_count(p) {
        let q = sheet.operand(p, i);
        if has_split(sheet, q) {
            return true;
        }
    }
    false
}

// A pattern holds no union or munion pattern but itself and its halves: all of them meet parts of one set or map.
fn is_shallow(sheet: &Sheet, p: usize) -> bool
    requires { Readable sheet.now p }
    ensures { TellsShallow sheet.now p result }
{
    let k = sheet.kind(p);
    if !nodes::is_split(k) {
        return !has_split(sheet, p);
    }
    let l = sheet.operand(p, 0);
    let r = sheet.operand(p, 1);
    is_shallow(sheet, l) && is_shallow(sheet, r)
}

// A pattern with a part of a value: number 29.
#[cycle(in_way_in_ways_too_large)]
pub fn too_large(sheet: &Sheet, p: usize, s: &[u8], part: Part) -> bool
    requires { Readable sheet.now p × PartHeld s.now part × (length s.now ≤ 65536) }
    ensures { TellsWide sheet.now p s.now part result }
{
    let k = sheet.kind(p);
    if !is_composed(k) {
        return false;
    }
    let n = sheet.operand_count(p);
    match nodes::meet(k, n, s, part) {
        Err(Misfit::Unfit) => false,
        Err(Misfit::TooLarge) => true,
        Ok(w) => in_ways(sheet, p, s, part, w),
    }
}

// The parts of a pattern, in one of w ways. Those of a shallow pattern meet no more units than it does, and so are not tried.
#[cycle(in_way_in_ways_too_large)]
fn in_ways(sheet: &Sheet, p: usize, s: &[u8], part: Part, w: usize) -> bool
    requires { Readable sheet.now p × WaysHeld sheet.now p s.now part w }
    ensures { TellsWays sheet.now p s.now part result }
{
    if is_shallow(sheet, p) {
        return false;
    }
    for d in 0..w {
        if in_way(sheet, p, s, part, d) {
            return true;
        }
    }
    false
}

// The parts of a pattern, each with what it meets in the way d. Those without a union or munion need not be looked into.
#[cycle(in_way_in_ways_too_large)]
fn in_way(sheet: &Sheet, p: usize, s: &[u8], part: Part, d: usize) -> bool
    requires { Readable sheet.now p × WayHeld sheet.now p s.now part d }
    ensures { TellsWay sheet.now p s.now part d result }
{
    let k = sheet.kind(p);
    let n = sheet.operand_count(p);
    for i in 0..n {
        let q = sheet.operand(p, i);
        let split = has_split(sheet, q);
        if split {
            let a = nodes::piece(k, n, s, part, d, i);
            if too_large(sheet, q, s, a) {
                return true;
            }
        }
    }
    false
}
