// Values as records in a lent slice: read, compared, written and copied where they lie, and handed out.
#![tactic(auto)]

ghost use Rattle.std.specs.Prelude.{◌+◌, ◌≤◌, ◌<◌, [], length};
ghost use Rattle.integers.specs.Whole.{InRange};
ghost use Rattle.values.specs.Value.{boolean, integer, quote};
ghost use Rattle.values.specs.Place.{At, Holds, HoldsItems};
ghost use Rattle.values.specs.Contract.{Length, KindAt, OfKind, Both, Numbered, NumberAt, Ordered, OrderedItems, AreEqual, Shows, ShowsAt, PutHead, Put, Movable, IsApart, Moved, Copyable, Copied};

use std::cmp::Ordering;

pub mod validity;

// A value that is handed out: its record, and zeros after it.
#[derive(Clone, Copy)]
pub struct Value {
    pub bytes: [u8; Value::LIMIT],
    pub len: usize,
}

impl Value {
    // No value exceeds 512 bytes.
    pub const LIMIT: usize = 512;

    // A binder has at most 255 bindings of values to its names.
    pub const BINDINGS: usize = 255;

    // The kinds of values.
    pub const BOOLEAN: usize = 1;

    pub const INTEGER: usize = 2;

    pub const SET: usize = 3;

    pub const SEQUENCE: usize = 4;

    pub const MAP: usize = 5;

    pub const TUPLE: usize = 6;

    pub const QUOTE: usize = 7;

    // Where a record's contents start: length and kind take two bytes each.
    pub const HEAD: usize = 4;

    // The length of an integer's record.
    pub const INTEGER_BYTES: usize = 8;

    // No value: zeros.
    pub fn empty() -> Value
        ensures { Shows [] result }
    {
        Value {
            bytes: [0; Value::LIMIT],
            len: 0,
        }
    }

    // The value at a place.
    pub fn read(s: &[u8], at: usize) -> Value
        requires { Holds s.now at }
        ensures { ShowsAt s.now at result }
    {
        let n = length_of(s, at);
        let mut bytes = [0; Value::LIMIT];
        bytes[..n].copy_from_slice(&s[at..at + n]);
        Value { bytes, len: n }
    }
}

// ---- reading

// The length of the record at a place.
pub fn length_of(s: &[u8], at: usize) -> usize
    requires { Holds s.now at }
    ensures { Length s.now at result }
{
    integers::bytes::read16(s, at)
}

// The kind of the value at a place: 1 boolean, 2 integer, 3 set, 4 sequence, 5 map, 6 tuple, 7 quote.
pub fn kind_of(s: &[u8], at: usize) -> usize
    requires { Holds s.now at }
    ensures { KindAt s.now at result }
{
    integers::bytes::read16(s, at + 2)
}

// The boolean at a place.
pub fn boolean_at(s: &[u8], at: usize) -> bool
    requires { OfKind s.now at 1 }
    ensures { At s.now at (boolean result) }
{
    s[at + Value::HEAD] == 1
}

// The integer at a place.
pub fn integer_at(s: &[u8], at: usize) -> i32
    requires { OfKind s.now at 2 }
    ensures { At s.now at (integer result) }
{
    integers::bytes::read32(s, at + Value::HEAD)
}

// The number of the quote at a place.
pub fn quote_at(s: &[u8], at: usize) -> usize
    requires { OfKind s.now at 7 }
    ensures { At s.now at (quote result) }
{
    integers::bytes::read16(s, at + Value::HEAD)
}

// ---- comparing

// The number of the boolean or quote at a place: 0 for false, 1 for true, the quote's own.
fn number_at(s: &[u8], at: usize, kind: usize) -> usize
    requires { OfKind s.now at kind × Numbered kind }
    ensures { NumberAt s.now at result }
{
    if kind == Value::BOOLEAN {
        return usize::from(s[at + Value::HEAD]);
    }
    quote_at(s, at)
}

// The order of the booleans or quotes at two places, by number.
fn compare_numbered(s: &[u8], a: usize, b: usize, kind: usize) -> Ordering
    requires { Both s.now a b kind × Numbered kind }
    ensures { Ordered s.now a b result }
{
    let x = number_at(s, a, kind);
    let y = number_at(s, b, kind);
    integers::compare_numbers(x, y)
}

// The order of the integers at two places, by size.
pub fn compare_integers(s: &[u8], a: usize, b: usize) -> Ordering
    requires { Both s.now a b 2 }
    ensures { Ordered s.now a b result }
{
    let x = integer_at(s, a);
    let y = integer_at(s, b);
    integers::compare(x, y)
}

// The order of the values at two places: lower kind first, then the contents.
#[cycle(compare_compare_items)]
pub fn compare(s: &[u8], a: usize, b: usize) -> Ordering
    requires { Holds s.now a × Holds s.now b }
    ensures { Ordered s.now a b result }
{
    let ka = kind_of(s, a);
    let kb = kind_of(s, b);
    if ka != kb {
        return integers::compare_numbers(ka, kb);
    }
    if ka == Value::INTEGER {
        return compare_integers(s, a, b);
    }
    if ka == Value::BOOLEAN {
        return compare_numbered(s, a, b, ka);
    }
    if ka == Value::QUOTE {
        return compare_numbered(s, a, b, ka);
    }
    let la = length_of(s, a);
    let lb = length_of(s, b);
    compare_items(s, a + Value::HEAD, a + la, b + Value::HEAD, b + lb)
}

// The order of the items between two places each: item by item, a prefix before what extends it.
#[cycle(compare_compare_items)]
pub fn compare_items(s: &[u8], a: usize, a_end: usize, b: usize, b_end: usize) -> Ordering
    requires { HoldsItems s.now a a_end × HoldsItems s.now b b_end }
    ensures { OrderedItems s.now a a_end b b_end result }
{
    if a == a_end {
        if b == b_end {
            return Ordering::Equal;
        }
        return Ordering::Less;
    }
    if b == b_end {
        return Ordering::Greater;
    }
    let first = compare(s, a, b);
    if first.is_ne() {
        return first;
    }
    let la = length_of(s, a);
    let lb = length_of(s, b);
    compare_items(s, a + la, a_end, b + lb, b_end)
}

// Whether the values at two places are equal.
pub fn equal(s: &[u8], a: usize, b: usize) -> bool
    requires { Holds s.now a × Holds s.now b }
    ensures { AreEqual s.now a b result }
{
    compare(s, a, b).is_eq()
}

// ---- writing

// Writes a record's length and kind.
pub fn put_head(s: &mut [u8], at: usize, n: usize, kind: usize)
    requires { (at + 4 ≤ length s.old) × (n < 65536) × (kind < 65536) }
    ensures { PutHead s.old s.new at n kind }
{
    integers::bytes::put16(s, at, n);
    integers::bytes::put16(s, at + 2, kind);
}

// Writes the record of a boolean, and gives the place past it.
pub fn put_boolean(s: &mut [u8], at: usize, b: bool) -> usize
    requires { at + 5 ≤ length s.old }
    ensures { Put s.old s.new at (boolean b) 5 result }
{
    put_head(s, at, 5, Value::BOOLEAN);
    s[at + Value::HEAD] = u8::from(b);
    at + 5
}

// Writes the record of an integer, and gives the place past it.
pub fn put_integer(s: &mut [u8], at: usize, z: i32) -> usize
    requires { (at + 8 ≤ length s.old) × InRange z }
    ensures { Put s.old s.new at (integer z) 8 result }
{
    put_head(s, at, Value::INTEGER_BYTES, Value::INTEGER);
    integers::bytes::put32(s, at + Value::HEAD, z);
    at + Value::INTEGER_BYTES
}

// Writes the record of a quote, and gives the place past it.
pub fn put_quote(s: &mut [u8], at: usize, n: usize) -> usize
    requires { (at + 6 ≤ length s.old) × (n < 65536) }
    ensures { Put s.old s.new at (quote n) 6 result }
{
    put_head(s, at, 6, Value::QUOTE);
    integers::bytes::put16(s, at + Value::HEAD, n);
    at + 6
}

// ---- copying

// Copies n bytes, first to last: up past their end, or down, over themselves too. A short record is copied sooner so than by the library, which goes from
// the last byte where it copies up.
fn copy_apart(s: &mut [u8], from: usize, to: usize, n: usize)
    requires { Movable s.old from to n × IsApart from to n }
    ensures { Moved s.old s.new from to n }
{
    for i in 0..n {
        s[to + i] = s[from + i];
    }
}

// Copies n bytes, over themselves too.
pub fn copy_bytes(s: &mut [u8], from: usize, to: usize, n: usize)
    requires { Movable s.old from to n }
    ensures { Moved s.old s.new from to n }
{
    if to <= from {
        return copy_apart(s, from, to, n);
    }
    if from + n <= to {
        return copy_apart(s, from, to, n);
    }
    s.copy_within(from..from + n, to);
}

// Copies the record at a place to another, and gives the place past it. An integer is copied as a number.
pub fn copy_value(s: &mut [u8], from: usize, to: usize) -> usize
    requires { Copyable s.old from to }
    ensures { Copied s.old s.new from to result }
{
    if kind_of(s, from) == Value::INTEGER {
        let z = integer_at(s, from);
        return put_integer(s, to, z);
    }
    let n = length_of(s, from);
    copy_apart(s, from, to, n);
    to + n
}
