// Telling the record of a well-formed value from other bytes: for a lent value that is not trusted.
ghost use Rattle.std.specs.Prelude.{◌+◌, ◌≤◌, length};
ghost use Rattle.values.specs.Value.{Ascending, Paired, keys, value_limit};
ghost use Rattle.values.specs.Place.{HoldsItems};
ghost use Rattle.values.specs.Validity.{Tells, IsValue, Inside, Boolean, TellsItems, CountsItems, Entries, ItemsShapedAs, Span};

use crate::Value;

// ---- the shape of items that are known to stand between two places

// Whether the items between two places ascend strictly.
fn ascending(s: &[u8], from: usize, to: usize) -> bool
    requires { HoldsItems s.now from to }
    ensures { TellsItems Ascending s.now from to result }
{
    if from == to {
        return true;
    }
    let next = from + crate::length_of(s, from);
    if next == to {
        return true;
    }
    crate::compare(s, from, next).is_lt() && ascending(s, next, to)
}

// Whether the items between two places are key, value, key, value, with keys that ascend strictly.
fn entries(s: &[u8], from: usize, to: usize) -> bool
    requires { HoldsItems s.now from to }
    ensures { TellsItems Entries s.now from to result }
{
    if from == to {
        return true;
    }
    let value = from + crate::length_of(s, from);
    if value == to {
        return false;
    }
    let next = value + crate::length_of(s, value);
    if next == to {
        return true;
    }
    crate::compare(s, from, next).is_lt() && entries(s, next, to)
}

// How many items stand between two places.
fn count(s: &[u8], from: usize, to: usize) -> usize
    requires { HoldsItems s.now from to }
    ensures { CountsItems s.now from to result }
{
    if from == to {
        return 0;
    }
    let next = from + crate::length_of(s, from);
    1 + count(s, next, to)
}

// Whether the items between two places are shaped as a kind of collection asks.
fn shaped(s: &[u8], from: usize, to: usize, kind: usize) -> bool
    requires { HoldsItems s.now from to }
    ensures { TellsItems (ItemsShapedAs kind) s.now from to result }
{
    if kind == Value::SET {
        return ascending(s, from, to);
    }
    if kind == Value::SEQUENCE {
        return true;
    }
    if kind == Value::MAP {
        return entries(s, from, to);
    }
    if kind == Value::TUPLE {
        let n = count(s, from, to);
        if n < 2 {
            return false;
        }
        return n <= 4;
    }
    false
}

// ---- records

// Whether the n bytes at a place, whose kind is 1, are the record of a boolean.
fn boolean(s: &[u8], at: usize, n: usize) -> bool
    requires { Boolean s.now at n }
    ensures { Tells (Inside s.now at (at + n)) result }
{
    n == 5 && s[at + Value::HEAD] < 2
}

// Whether the record of some value stands at a place, and ends at another or before it.
#[cycle(valid_valid_items)]
pub fn valid(s: &[u8], at: usize, to: usize) -> bool
    requires { Span s.now at to }
    ensures { Tells (Inside s.now at to) result }
{
    if to - at < Value::HEAD {
        return false;
    }
    let n = integers::bytes::read16(s, at);
    if n < Value::HEAD {
        return false;
    }
    if to - at < n {
        return false;
    }
    let kind = integers::bytes::read16(s, at + 2);
    if kind == Value::BOOLEAN {
        return boolean(s, at, n);
    }
    if kind == Value::INTEGER {
        return n == Value::INTEGER_BYTES;
    }
    if kind == Value::QUOTE {
        return n == 6;
    }
    valid_items(s, at + Value::HEAD, at + n) && shaped(s, at + Value::HEAD, at + n, kind)
}

// Whether records of values stand from a place up to another.
#[cycle(valid_valid_items)]
fn valid_items(s: &[u8], at: usize, to: usize) -> bool
    requires { Span s.now at to }
    ensures { Tells (HoldsItems s.now at to) result }
{
    if at == to {
        return true;
    }
    if valid(s, at, to) {
        let n = integers::bytes::read16(s, at);
        return valid_items(s, at + n, to);
    }
    false
}

// Whether bytes are the record of a well-formed value, and nothing else.
pub fn is_value(bytes: &[u8]) -> bool
    ensures { Tells (IsValue bytes.now) result }
{
    let n = bytes.len();
    if n > Value::LIMIT {
        return false;
    }
    valid(bytes, 0, n) && integers::bytes::read16(bytes, 0) == n
}
