// Finding in collections: members, what stands at a key, items by their number, and how many there are.
ghost use Rattle.std.specs.Prelude.{false};
ghost use Rattle.values.specs.Value.{set, map};
ghost use Rattle.values.specs.Place.{Holds};
ghost use Rattle.values.specs.Contract.{Length, OfKind};
ghost use Rattle.collections.specs.Finding.{HoldsKind, HoldsCollection, Seeks, SeeksOn, Contains, AtKey, Item, Counted};

use std::cmp::Ordering;
use values::Value;

// The length of the record at a place; that of an integer is known by its kind.
fn past(s: &[u8], p: usize) -> usize
    requires { Holds s.now p }
    ensures { Length s.now p result }
{
    if values::kind_of(s, p) == Value::INTEGER {
        return Value::INTEGER_BYTES;
    }
    values::length_of(s, p)
}

// The place past the integers that begin the collection at a place and are lower than the integer at x.
fn pass_lower(s: &[u8], at: usize, x: usize) -> usize
    requires { HoldsCollection s.now at × OfKind s.now x 2 }
    ensures { SeeksOn s.now at x false result }
{
    let end = at + values::length_of(s, at);
    let z = values::integer_at(s, x);
    let mut p = at + Value::HEAD;
    while p < end {
        if values::kind_of(s, p) != Value::INTEGER {
            return p;
        }
        let y = values::integer_at(s, p);
        if integers::compare(z, y).is_le() {
            return p;
        }
        p += Value::INTEGER_BYTES;
    }
    p
}

// Where seeking the value at x starts: among members past the integers that are lower, among keys at the first.
fn start(s: &[u8], at: usize, x: usize, entries: bool) -> usize
    requires { HoldsCollection s.now at × Holds s.now x }
    ensures { SeeksOn s.now at x entries result }
{
    if entries {
        return at + Value::HEAD;
    }
    if values::kind_of(s, x) != Value::INTEGER {
        return at + Value::HEAD;
    }
    pass_lower(s, at, x)
}

// The place of the value at x among the members of the set at a place, or among the keys of the map there; or else the place before
// which it belongs.
pub fn seek(s: &[u8], at: usize, x: usize, entries: bool) -> Result<usize, usize>
    requires { HoldsCollection s.now at × Holds s.now x }
    ensures { Seeks s.now at x entries result }
{
    let end = at + values::length_of(s, at);
    let mut p = start(s, at, x, entries);
    let mut key = true;
    while p < end {
        if key {
            match values::compare(s, x, p) {
                Ordering::Less => {
                    return Err(p);
                }
                Ordering::Equal => {
                    return Ok(p);
                }
                Ordering::Greater => {}
            }
            key = !entries;
        } else {
            key = true;
        }
        p += past(s, p);
    }
    Err(p)
}

// The place of the value at x among the members of the set at a place, in which there are often none yet.
pub fn seek_member(s: &[u8], at: usize, x: usize) -> Result<usize, usize>
    requires { HoldsCollection s.now at × Holds s.now x }
    ensures { Seeks s.now at x false result }
{
    if values::length_of(s, at) == Value::HEAD {
        return Err(at + Value::HEAD);
    }
    seek(s, at, x, false)
}

// Whether the value at x is a member of the set at a place.
pub fn contains(s: &[u8], at: usize, x: usize) -> bool
    requires { HoldsKind set s.now at × Holds s.now x }
    ensures { Contains s.now at x result }
{
    seek(s, at, x, false).is_ok()
}

// What stands at the key at k, in the map at a place.
pub fn find_key(s: &[u8], at: usize, k: usize) -> Option<usize>
    requires { HoldsKind map s.now at × Holds s.now k }
    ensures { AtKey s.now at k result }
{
    let p = seek(s, at, k, true).ok()?;
    Some(p + values::length_of(s, p))
}

// The k-th item of the collection at a place, from 0.
pub fn item_at(s: &[u8], at: usize, k: usize) -> Option<usize>
    requires { HoldsCollection s.now at }
    ensures { Item s.now at k result }
{
    let end = at + values::length_of(s, at);
    let mut p = at + Value::HEAD;
    let mut left = k;
    while p < end {
        if left == 0 {
            return Some(p);
        }
        left -= 1;
        p += values::length_of(s, p);
    }
    None
}

// How many items the collection at a place has.
pub fn count_of(s: &[u8], at: usize) -> usize
    requires { HoldsCollection s.now at }
    ensures { Counted s.now at result }
{
    let end = at + values::length_of(s, at);
    let mut p = at + Value::HEAD;
    let mut n = 0;
    while p < end {
        n += 1;
        p += values::length_of(s, p);
    }
    n
}
