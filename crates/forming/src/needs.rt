// What names ask of a set or map: an enumeration at or below a tree of unions or munions names an item by each of its names, a member, key or value. A name
// that has a value asks for an item with that value; where the set or map that the tree meets lacks it, nothing matches.
ghost use Rattle.std.specs.Prelude.{◌≡◌, true};
ghost use Rattle.tables.specs.Table.{kind_at};
ghost use Rattle.tables.specs.Accepted.{records};
ghost use Rattle.parts.specs.Part.{PartHeld};
ghost use Rattle.parts.specs.Contract.{CollectionHeld};
ghost use Rattle.parts.specs.Word.{unpacked};
ghost use Rattle.patterns.specs.Read.{Readable};
ghost use Rattle.matching.specs.Node.{is_split};
ghost use Rattle.forming.specs.Sizes.{Splits, enumeration_of};
ghost use Rattle.forming.specs.Needs.{AskHeld, UnionOf, TellsAsked, TellsLacked, TellsFit, WordAt};

use crate::sizes;
use matching::nodes;
use parts::words::Env;
use parts::{Part, words};
use tables::kinds;
use tables::sheet::Sheet;
use values::Value;

// The set or map that a pattern meets lacks an item that is asked of it. Else it is told whether any item is.
#[derive(Clone, Copy, Debug, PartialEq, Eq)]
pub struct Lacking;

// The word of a name that has a value.
fn word_at(sheet: &Sheet, p: usize, found: &[u32; Env::NAMES]) -> Option<u32>
    requires { Readable sheet.now p }
    ensures { WordAt sheet.now p found.now result }
{
    if sheet.kind(p) != kinds::NAME_PATTERN {
        return None;
    }
    let word = found[sheet.field(p, 0)];
    if word == 0 { None } else { Some(word) }
}

// What the names of an enumeration ask, where c is the kind of the unions or munions of such enumerations.
fn asked_by_names(
    sheet: &Sheet,
    p: usize,
    c: usize,
    s: &[u8],
    part: Part,
    found: &[u32; Env::NAMES],
) -> Result<bool, Lacking>
    requires { AskHeld sheet.now p s.now found.now × CollectionHeld s.now part × Splits c × (kind_at (records sheet.now) p ≡ enumeration_of c) }
    ensures { TellsLacked sheet.now p c s.now part found.now result }
{
    let mut had = false;
    for i in 0..sheet.operand_count(p) {
        let q = sheet.operand(p, i);
        if let Some(word) = word_at(sheet, q, found) {
            if !parts::has_item(s, part, words::unpack(word)) {
                return Err(Lacking);
            }
            had = true;
        }
    }
    Ok(had)
}

// What an enumeration or a tree of unions or munions, of kind c, asks of a set or map of which it meets some members or entries.
fn asked_by_tree(
    sheet: &Sheet,
    p: usize,
    c: usize,
    s: &[u8],
    part: Part,
    found: &[u32; Env::NAMES],
) -> Result<bool, Lacking>
    requires { AskHeld sheet.now p s.now found.now × CollectionHeld s.now part × (is_split c ≡ true) }
    ensures { TellsLacked sheet.now p c s.now part found.now result }
{
    let k = sheet.kind(p);
    if k == sizes::enumeration_of(c) {
        return asked_by_names(sheet, p, c, s, part, found);
    }
    if k != c {
        return Ok(false);
    }
    let l = sheet.operand(p, 0);
    let left = asked_by_tree(sheet, l, c, s, part, found)?;
    let r = sheet.operand(p, 1);
    let right = asked_by_tree(sheet, r, c, s, part, found)?;
    Ok(left || right)
}

// The kind of patterns that split values of this kind, sets or maps.
fn union_of(kind: usize) -> Option<usize>
    ensures { UnionOf kind result }
{
    match kind {
        Value::SET => Some(kinds::UNION_PATTERN),
        Value::MAP => Some(kinds::MUNION_PATTERN),
        _ => None,
    }
}

// What a pattern asks of what it meets: nothing of what is no set or map, or one that is too large to split.
pub fn asked_by_pattern(
    sheet: &Sheet,
    p: usize,
    s: &[u8],
    part: Part,
    found: &[u32; Env::NAMES],
) -> Result<bool, Lacking>
    requires { AskHeld sheet.now p s.now found.now × PartHeld s.now part }
    ensures { TellsAsked sheet.now p s.now part found.now result }
{
    let k = parts::kind_of_part(s, part);
    let Some(c) = union_of(k) else {
        return Ok(false);
    };
    let n = parts::count_of_part(s, part);
    if parts::masks::MOST_UNITS * parts::masks::width(k) < n {
        return Ok(false);
    }
    asked_by_tree(sheet, p, c, s, part, found)
}

// What a pattern of kind k asks, where it is a union or munion; else nothing.
pub fn asked_by_union(
    sheet: &Sheet,
    p: usize,
    k: usize,
    s: &[u8],
    part: Part,
    found: &[u32; Env::NAMES],
) -> Result<bool, Lacking>
    requires { AskHeld sheet.now p s.now found.now × PartHeld s.now part }
    ensures { TellsAsked sheet.now p s.now part found.now result }
{
    if !nodes::is_split(k) {
        return Ok(false);
    }
    asked_by_pattern(sheet, p, s, part, found)
}

// The part has what the pattern asks of it, where this is asked.
pub fn may_match(
    asks: bool,
    sheet: &Sheet,
    p: usize,
    s: &[u8],
    word: u32,
    found: &[u32; Env::NAMES],
) -> bool
    requires { AskHeld sheet.now p s.now found.now × PartHeld s.now (unpacked word) }
    ensures { TellsFit sheet.now p s.now (unpacked word) found.now result }
{
    if !asks {
        return true;
    }
    let part = words::unpack(word);
    asked_by_pattern(sheet, p, s, part, found).is_ok()
}
