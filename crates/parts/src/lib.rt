// Parts of a value where they lie, by value and without copying: a whole record, some members of a set or entries of a map, a span of a sequence.
#![tactic(auto)]

mod items;
pub mod masks;
pub mod runs;
pub mod words;

ghost use Rattle.std.specs.Prelude.{◌≡◌, ◌≤◌, ◌<◌, length};
ghost use Rattle.parts.specs.declared.How.TheVariants.{Whole, Units};
ghost use Rattle.parts.specs.Part.{PartHeld};
ghost use Rattle.parts.specs.Word.{code_of};
ghost use Rattle.parts.specs.Contract.{KindOfPart, CollectionHeld, Countable, OrderedParts, CountOfPart, RunItemHeld, ItemOfRun, whole_at, HasItem, SplitHeld, CutHeld, SplitOf, halves_at, CutOf, Puttable, PutPart, MaskOf};

use runs::Run;
use std::cmp::Ordering;
use values::Value;

// How a part denotes a value, in a word its number: nothing; the whole record at a place; of the set of at most seven members or the map of at most
// seven entries whose record stands there, those units that the bits of the extent choose, the first by the lowest bit; the sequence of the items
// whose records take so many bytes from there on.
#[derive(Clone, Copy, Debug, PartialEq, Eq)]
pub enum How {
    Nothing = 0,
    Whole = 1,
    Units = 2,
    Span = 3,
}

impl How {
    // The number of a sort.
    fn code(self) -> u32
        ensures { result ≡ code_of self }
    {
        self as u32
    }
}

// A part of a value where it lies: a place, how the value is found there, and for units or a span their extent. Eight bytes in all.
// One struct: a word packs the same three fields, and the place is read alike of records and units.
#[derive(Clone, Copy)]
pub struct Part {
    pub at: u32,
    pub extent: u16,
    pub how: How,
}

// The two halves of a part.
#[derive(Clone, Copy)]
pub struct Halves {
    pub left: Part,
    pub right: Part,
}

// The kind of the value that a part denotes.
pub fn kind_of_part(s: &[u8], p: Part) -> usize
    requires { PartHeld s.now p }
    ensures { KindOfPart s.now p result }
{
    match p.how {
        How::Span => Value::SEQUENCE,
        _ => values::kind_of(s, p.at as usize),
    }
}

// How many items the collection has that a part denotes: of units as many as bits are set, and each unit's items.
pub fn count_of_part(s: &[u8], p: Part) -> usize
    requires { CollectionHeld s.now p }
    ensures { CountOfPart s.now p result }
{
    if let How::Units = p.how {
        let at = p.at as usize;
        let kind = values::kind_of(s, at);
        let mask = p.extent as usize;
        return mask.count_ones() as usize * masks::width(kind);
    }
    let r = runs::run_of(s, p);
    runs::count(s, r)
}

// The order of the sets or maps that two parts choose units of: those of one by their bits, others by kind and then item by item.
fn order_units(s: &[u8], p: Part, q: Part) -> Ordering
    requires { PartHeld s.now p × PartHeld s.now q × (p.how ≡ Units) × (q.how ≡ Units) }
    ensures { OrderedParts s.now p q result }
{
    let a = p.at as usize;
    let b = q.at as usize;
    let x = p.extent as usize;
    let y = q.extent as usize;
    if a == b {
        return masks::order(x, y);
    }
    let kind = values::kind_of(s, a);
    let other = values::kind_of(s, b);
    if kind != other {
        return kind.cmp(&other);
    }
    // Most are sets: what chooses members chooses items.
    if kind == Value::SET {
        return items::order(s, a + Value::HEAD, x, b + Value::HEAD, y);
    }
    let m = masks::item_mask(kind, x);
    let n = masks::item_mask(kind, y);
    items::order(s, a + Value::HEAD, m, b + Value::HEAD, n)
}

// The order of the values that two parts denote, where they lie. It serves the order of bindings and the test of repeated names alike.
pub fn order_parts(s: &[u8], p: Part, q: Part) -> Ordering
    requires { PartHeld s.now p × PartHeld s.now q }
    ensures { OrderedParts s.now p q result }
{
    match (p.how, q.how) {
        (How::Whole, How::Whole) => values::compare(s, p.at as usize, q.at as usize),
        (How::Units, How::Units) => order_units(s, p, q),
        _ => order_kinds(s, p, q),
    }
}

// The order of the values that two parts denote which are not both whole records: by kind, and then item by item.
fn order_kinds(s: &[u8], p: Part, q: Part) -> Ordering
    requires part_held { PartHeld s.now p × PartHeld s.now q }
    requires not_both_whole { p.how ≡ Whole → q.how ≡ Whole → ⊥ }
    ensures { OrderedParts s.now p q result }
{
    let kp = kind_of_part(s, p);
    let kq = kind_of_part(s, q);
    if kp != kq {
        return kp.cmp(&kq);
    }
    let a = runs::run_of(s, p);
    let b = runs::run_of(s, q);
    runs::order(s, a, b)
}

// The whole record at a place.
pub fn whole_at(at: usize) -> Part
    requires { at ≤ 65536 }
    ensures { result ≡ whole_at at }
{
    Part {
        at: at as u32,
        extent: 0,
        how: How::Whole,
    }
}

// The k-th item of a run, from 0.
pub fn item_of_run(s: &[u8], all: Run, k: usize) -> Part
    requires { RunItemHeld s.now all k }
    ensures { ItemOfRun s.now all k result }
{
    let r = runs::skip(s, all, k);
    whole_at(r.from)
}

// An item of the collection that a part denotes has the value of another part.
pub fn has_item(s: &[u8], p: Part, q: Part) -> bool
    requires { (length s.now ≤ 65536) × CollectionHeld s.now p × PartHeld s.now q }
    ensures { HasItem s.now p q result }
{
    let mut r = runs::run_of(s, p);
    while r.from < r.to {
        let item = whole_at(r.from);
        if order_parts(s, item, q) == Ordering::Equal {
            return true;
        }
        r = runs::rest(s, r);
    }
    false
}

// The d-th split of the set or map that a part denotes.
pub fn split_part(s: &[u8], p: Part, d: usize) -> Halves
    requires { SplitHeld s.now p d }
    ensures { SplitOf s.now p d result }
{
    let mask = mask_of(s, p);
    let left = masks::spread(mask, d);
    halves_by(p.at, mask, left)
}

// The bits that choose, of the units of the whole set or map, those of a part.
pub fn mask_of(s: &[u8], p: Part) -> usize
    requires { Countable s.now p }
    ensures { MaskOf s.now p result }
{
    if let How::Units = p.how {
        return p.extent as usize;
    }
    let kind = kind_of_part(s, p);
    let n = count_of_part(s, p);
    masks::full(n / masks::width(kind))
}

// The halves of a part at a place whose units a mask chooses, another those on the left.
pub fn halves_by(at: u32, mask: usize, left: usize) -> Halves
    requires { (mask < 128) × (left ≤ mask) }
    ensures { result ≡ halves_at at mask left }
{
    let right = mask - left;
    Halves {
        left: Part {
            at,
            extent: left as u16,
            how: How::Units,
        },
        right: Part {
            at,
            extent: right as u16,
            how: How::Units,
        },
    }
}

// The k-th cut of the sequence that a part denotes: k items, and the others.
pub fn cut_part(s: &[u8], p: Part, k: usize) -> Halves
    requires { CutHeld s.now p k }
    ensures { CutOf s.now p k result }
{
    let all = runs::run_of(s, p);
    let r = runs::skip(s, all, k);
    let from = all.from;
    let middle = r.from;
    let to = all.to;
    Halves {
        left: Part {
            at: from as u32,
            extent: (middle - from) as u16,
            how: How::Span,
        },
        right: Part {
            at: middle as u32,
            extent: (to - middle) as u16,
            how: How::Span,
        },
    }
}

// Writes the record of the value that a part denotes, and gives the place past it.
pub fn put_part(s: &mut [u8], p: Part, base: usize) -> usize
    requires { Puttable s.old p base }
    ensures { PutPart s.old s.new p base result }
{
    if let How::Whole = p.how {
        let at = p.at as usize;
        return values::copy_value(s, at, base);
    }
    let kind = kind_of_part(s, p);
    let r = runs::run_of(s, p);
    let end = runs::put(s, r, base + Value::HEAD);
    values::put_head(s, base, end - base, kind);
    end
}
