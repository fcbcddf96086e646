// What the parts of a pattern meet: how many ways there are, and what each part meets in a way.
ghost use Rattle.std.specs.Prelude.{◌≡◌, true, ◌*◌, ◌≤◌, ◌<◌, eqb, cond};
ghost use Rattle.parts.specs.Part.{PartHeld};
ghost use Rattle.values.specs.Value.{number};
ghost use Rattle.tables.specs.Record.{is_composed};
ghost use Rattle.patterns.specs.Nodes.{collection_of, width};
ghost use Rattle.patterns.specs.Ways.{factorial};
ghost use Rattle.matching.specs.Node.{Ordinal, is_split, is_paired, SplitsAs, Meets, PieceHeld, PieceOf, LiteralHeld, LiteralIs};

use parts::{Halves, Part};
use tables::kinds;
use tables::sheet::Sheet;
use values::Value;

// Why the parts of a pattern meet no part of a value: kind or count do not fit; or a set or map is too large to split.
#[derive(Clone, Copy, Debug, PartialEq, Eq)]
pub enum Misfit {
    Unfit,
    TooLarge,
}

// The number of orders of at most four units: members of a set, entries of a map.
fn orders(n: usize) -> usize
    requires { n ≤ 4 }
    ensures { (result ≡ factorial n) × (0 < result) × (result < 256) }
{
    match n {
        0 | 1 => 1,
        2 => 2,
        3 => 6,
        _ => 24,
    }
}

// Which of n units stands at i in the d-th of their orders.
fn unit_at(n: usize, d: usize, i: usize) -> usize
    requires { (n ≤ 4) × (d < factorial n) × (i < n) }
    ensures { Ordinal n d i result }
{
    let at = d % n;
    if i == at {
        return 0;
    }
    if i < at {
        return 1 + unit_at(n - 1, d / n, i);
    }
    1 + unit_at(n - 1, d / n, i - 1)
}

// The kind of the values that a pattern of the kind meets.
pub fn collection_of(kind: usize) -> usize
    ensures { result ≡ number (collection_of kind) }
{
    match kind {
        kinds::TUPLE_PATTERN => Value::TUPLE,
        kinds::SET_PATTERN | kinds::UNION_PATTERN => Value::SET,
        kinds::MAP_PATTERN | kinds::MUNION_PATTERN => Value::MAP,
        _ => Value::SEQUENCE,
    }
}

// A union or munion pattern: its halves meet the two halves of a set or map, in every split.
pub fn is_split(kind: usize) -> bool
    ensures { result ≡ is_split kind }
{
    matches!(kind, kinds::UNION_PATTERN | kinds::MUNION_PATTERN)
}

// A set or map enumeration: its parts meet the members or entries, in every order.
fn is_paired(kind: usize) -> bool
    ensures { result ≡ is_paired kind }
{
    matches!(kind, kinds::SET_PATTERN | kinds::MAP_PATTERN)
}

// The ways to split so many units into two halves, neither of them empty.
fn meet_halves(units: usize) -> Result<usize, Misfit>
    ensures { SplitsAs units result }
{
    if parts::masks::MOST_UNITS < units {
        return Err(Misfit::TooLarge);
    }
    if units < 2 {
        return Err(Misfit::Unfit);
    }
    Ok(parts::masks::full(units) - 1)
}

// The ways in which n parts of a pattern of the kind meet a part of a value. Counts are of items: an entry has two.
pub fn meet(kind: usize, n: usize, s: &[u8], part: Part) -> Result<usize, Misfit>
    requires { (is_composed kind ≡ true) × (n ≤ 4 * width (collection_of kind)) × PartHeld s.now part }
    ensures { Meets kind n s.now part result }
{
    let k = parts::kind_of_part(s, part);
    let c = collection_of(kind);
    if k != c {
        return Err(Misfit::Unfit);
    }
    let count = parts::count_of_part(s, part);
    if kind == kinds::CONCATENATION_PATTERN {
        return Ok(count + 1);
    }
    let w = parts::masks::width(k);
    let units = count / w;
    if is_split(kind) {
        return meet_halves(units);
    }
    if count != n {
        return Err(Misfit::Unfit);
    }
    if is_paired(kind) {
        return Ok(orders(units));
    }
    Ok(1)
}

// The left half for the first of two parts, the right half for the second.
fn half(h: Halves, i: usize) -> Part
    ensures { result ≡ cond (eqb i 0) h.left h.right }
{
    if i == 0 { h.left } else { h.right }
}

// What part i meets in the way d. The first of all splits has an empty half, so the ways of a union or munion start at the next.
pub fn piece(kind: usize, n: usize, s: &[u8], part: Part, d: usize, i: usize) -> Part
    requires { PieceHeld kind n s.now part d i }
    ensures { PieceOf kind n s.now part d i result }
{
    if is_split(kind) {
        let h = parts::split_part(s, part, d + 1);
        return half(h, i);
    }
    if kind == kinds::CONCATENATION_PATTERN {
        let h = parts::cut_part(s, part, d);
        return half(h, i);
    }
    let all = parts::runs::run_of(s, part);
    if is_paired(kind) {
        let c = collection_of(kind);
        let w = parts::masks::width(c);
        let unit = unit_at(n / w, d, i / w);
        return parts::item_of_run(s, all, w * unit + i % w);
    }
    parts::item_of_run(s, all, i)
}

// A part of a value is the literal of a pattern of kind 34, 35 or 43.
pub fn is_literal(sheet: &Sheet, p: usize, s: &[u8], part: Part) -> bool
    requires { LiteralHeld sheet.now p × PartHeld s.now part }
    ensures { LiteralIs sheet.now p s.now part result }
{
    let kind = sheet.kind(p);
    let k = parts::kind_of_part(s, part);
    let at = part.at as usize;
    match kind {
        kinds::BOOLEAN_PATTERN => {
            k == Value::BOOLEAN && (sheet.field(p, 0) == 1) == values::boolean_at(s, at)
        }
        kinds::QUOTE_PATTERN => { k == Value::QUOTE && sheet.quote(p) == values::quote_at(s, at) }
        _ => k == Value::INTEGER && sheet.integer(p) == values::integer_at(s, at),
    }
}
