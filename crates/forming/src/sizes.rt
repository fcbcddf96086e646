// How many units a pattern takes that agrees with what is found: members of a set, entries of a map, items of a sequence. A way of splitting or cutting
// that gives a half more or fewer has no match.
ghost use Rattle.std.specs.Prelude.{◌≡◌, true, ◌/◌, ◌≤◌, ◌<◌};
ghost use Rattle.parts.specs.Part.{PartHeld};
ghost use Rattle.parts.specs.Word.{unpacked};
ghost use Rattle.patterns.specs.Binding.{Binding};
ghost use Rattle.patterns.specs.Nodes.{collection_of, width};
ghost use Rattle.patterns.specs.Read.{Readable};
ghost use Rattle.matching.specs.Leaf.{Stands, Standing};
ghost use Rattle.forming.specs.Sizes.{Splits, enumeration_of, fewest_of, SizeOfValue, TellsSize, Sum, HalvesHeld, TellsSizes, Rights, SplitFrom, CutFrom, FromHeld, From};

use matching::nodes;
use parts::words;
use parts::words::Env;
use tables::kinds;
use tables::sheet::Sheet;

// At least so many; or exactly so many, where there may not be more. The number is read in both cases, so that an enum of two would be no plainer.
#[derive(Clone, Copy)]
pub struct Size {
    pub least: u8,
    pub more: bool,
}

impl Size {
    // The largest number that is told, as a byte holds it; a larger one is at least that.
    pub const MOST: usize = 255;

    pub const TOLD: u8 = Size::MOST as u8;
}

// What the halves of a pattern take.
#[derive(Clone, Copy)]
pub struct Sizes {
    pub left: Size,
    pub right: Size,
}

// Two sizes together.
fn sum(l: Size, r: Size) -> Size
    ensures { Sum l r result }
{
    let a = l.least as usize;
    let b = r.least as usize;
    if Size::MOST < a + b {
        return Size {
            least: Size::TOLD,
            more: true,
        };
    }
    Size {
        least: (a + b) as u8,
        more: l.more || r.more,
    }
}

// The kind of patterns that have a part for each item of what patterns of kind k split or cut.
pub fn enumeration_of(k: usize) -> usize
    ensures { result ≡ enumeration_of k }
{
    match k {
        kinds::UNION_PATTERN => kinds::SET_PATTERN,
        kinds::MUNION_PATTERN => kinds::MAP_PATTERN,
        _ => kinds::SEQUENCE_PATTERN,
    }
}

// A half of what patterns of kind k split or cut has at least so many units: of a set or map it holds something, of a sequence it may be empty.
fn fewest_of(k: usize) -> u8
    ensures { Splits k → result ≡ fewest_of (collection_of k) }
{
    u8::from(k != kinds::CONCATENATION_PATTERN)
}

// How many units n items are of what patterns of kind k split or cut: an entry of a map is two.
fn units_of(k: usize, n: usize) -> usize
    ensures { (result ≤ n) × (Splits k → result ≡ n / width (collection_of k)) }
{
    if k == kinds::MUNION_PATTERN {
        return n / 2;
    }
    n
}

// What a name takes that has a value: as many units as this has; where it is of another kind than what patterns of kind k split or cut, more than any half
// has.
fn size_of_value(s: &[u8], word: u32, k: usize) -> Size
    requires { PartHeld s.now (unpacked word) × Splits k }
    ensures { SizeOfValue s.now word k result }
{
    let part = words::unpack(word);
    let own = parts::kind_of_part(s, part);
    if own != nodes::collection_of(k) {
        return Size {
            least: Size::TOLD,
            more: true,
        };
    }
    let n = parts::count_of_part(s, part);
    let units = units_of(k, n);
    Size {
        least: units as u8,
        more: false,
    }
}

// What a pattern takes that meets a half, where k is the kind of the whole.
fn size_of(sheet: &Sheet, p: usize, k: usize, s: &[u8], found: &[u32; Env::NAMES]) -> Size
    requires { Readable sheet.now p × Splits k × Standing s.now found.now }
    ensures { (b : Binding) → Stands s.now found.now b → TellsSize sheet.now b p k result }
{
    let own = sheet.kind(p);
    if own == enumeration_of(k) {
        let n = sheet.operand_count(p);
        let units = units_of(k, n);
        return Size {
            least: units as u8,
            more: false,
        };
    }
    if own == k {
        let l = sheet.operand(p, 0);
        let left = size_of(sheet, l, k, s, found);
        let r = sheet.operand(p, 1);
        let right = size_of(sheet, r, k, s, found);
        return sum(left, right);
    }
    if own == kinds::NAME_PATTERN {
        let x = sheet.field(p, 0);
        let word = found[x];
        if word != 0 {
            return size_of_value(s, word, k);
        }
    }
    let least = fewest_of(k);
    Size { least, more: true }
}

// Any number that a half may have.
fn is_any(z: Size, k: usize) -> bool {
    z.more && z.least == fewest_of(k)
}

// Patterns of this kind have two halves.
pub fn splits(k: usize) -> bool
    ensures { result ≡ true → Splits k }
{
    k == kinds::CONCATENATION_PATTERN || nodes::is_split(k)
}

// What the halves of a pattern of kind k take, where it has two and they do not both take any number.
pub fn sizes_of(
    sheet: &Sheet,
    p: usize,
    k: usize,
    s: &[u8],
    found: &[u32; Env::NAMES],
) -> Option<Sizes>
    requires { HalvesHeld sheet.now p k × Standing s.now found.now }
    ensures { (b : Binding) → Stands s.now found.now b → TellsSizes sheet.now b p k result }
{
    if !splits(k) {
        return None;
    }
    let l = sheet.operand(p, 0);
    let left = size_of(sheet, l, k, s, found);
    let r = sheet.operand(p, 1);
    let right = size_of(sheet, r, k, s, found);
    if is_any(left, k) && is_any(right, k) {
        return None;
    }
    Some(Sizes { left, right })
}

// From the least to the most of them.
#[derive(Clone, Copy)]
pub struct Range {
    pub least: usize,
    pub most: usize,
}

// How many of n the right half has where both halves have what they take.
fn rights(z: Sizes, n: usize) -> Option<Range>
    ensures { Rights z n result }
{
    let left = z.left.least as usize;
    let right = z.right.least as usize;
    if n < left + right {
        return None;
    }
    let least = if z.left.more { right } else { n - left };
    let most = if z.right.more { n - left } else { right };
    if most < least {
        return None;
    }
    Some(Range { least, most })
}

// The first of the splits 0 to w - 1 from d on that has so many units on the right: as many as bits of its number are set. A number that is higher by
// n has at most n more of them, so those that cannot have enough are passed over together.
fn split_from(w: usize, d: usize, r: Range) -> usize
    ensures { SplitFrom w d r result }
{
    let mut e = d;
    while e < w {
        let n = e.count_ones() as usize;
        if n < r.least {
            let few = r.least - n;
            if w - e <= few {
                return w;
            }
            e += few;
        } else {
            if n <= r.most {
                return e;
            }
            e += 1;
        }
    }
    e
}

// The first of w cuts from d on that has so many items on the right: the last has none, each before it one more.
fn cut_from(w: usize, d: usize, r: Range) -> usize
    requires { (d < w) × (r.most < w) }
    ensures { CutFrom w d r result }
{
    let last = w - 1;
    let first = last - r.most;
    let e = d.max(first);
    if last - e < r.least {
        return w;
    }
    e
}

// The first way from d on whose halves may have what they take. The ways of a union or munion are all splits but the first and the last, which have an
// empty half: way d is the split d + 1, and the split w + 1 has all units on the right.
pub fn way_from(k: usize, w: usize, d: usize, z: Option<Sizes>) -> usize
    requires { FromHeld k w z }
    ensures { From k w d z result }
{
    let Some(sizes) = z else {
        return d;
    };
    if w <= d {
        return d;
    }
    if k == kinds::CONCATENATION_PATTERN {
        let Some(r) = rights(sizes, w - 1) else {
            return w;
        };
        return cut_from(w, d, r);
    }
    let last = w + 1;
    let n = last.count_ones() as usize;
    let Some(r) = rights(sizes, n) else {
        return w;
    };
    split_from(last, d + 1, r) - 1
}
