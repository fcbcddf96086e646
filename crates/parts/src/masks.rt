// Bits that choose units of a set or map that can be split: its members or its entries.
ghost use Rattle.std.specs.Prelude.{◌≡◌, ◌/◌, ◌≤◌, ◌<◌};
ghost use Rattle.patterns.specs.Pattern.{most_split};
ghost use Rattle.parts.specs.Mask.{Full, Deals, Spread, OrderedMasks, WidthOf, doubled, ItemMask};

use std::cmp::Ordering;
use values::Value;

// A set or map of more units is too large to split.
pub const MOST_UNITS: usize = 7;

// The masks of all units, of none to the most.
const FULL: [usize; MOST_UNITS + 1] = [0, 1, 3, 7, 15, 31, 63, 127];

// The mask of all of k units.
pub fn full(k: usize) -> usize
    requires { k ≤ most_split }
    ensures { Full k result }
{
    FULL[k]
}

// Units dealt out, the last ones first: the mask of those on the left, and what is left of the number of the split.
#[derive(Clone, Copy)]
pub struct Dealing {
    pub left: usize,
    pub rest: usize,
}

// One bit more of a mask, of which those above it are dealt out: the number's lowest bit says where its unit goes.
fn deal(m: usize, dealt: Dealing) -> Dealing
    requires { (m < 128) × (dealt.left ≤ m / 2) }
    ensures { Deals m dealt result }
{
    let left = 2 * dealt.left;
    let rest = dealt.rest;
    if m % 2 == 0 {
        return Dealing { left, rest };
    }
    if rest % 2 == 0 {
        return Dealing {
            left: left + 1,
            rest: rest / 2,
        };
    }
    Dealing {
        left,
        rest: rest / 2,
    }
}

// The mask of those units that the d-th split of what a mask chooses has on the left.
pub fn spread(m: usize, d: usize) -> usize
    requires { m < 128 }
    ensures { Spread m d result }
{
    let mut dealt = Dealing { left: 0, rest: d };
    for i in (0..MOST_UNITS).rev() {
        dealt = deal(m >> i, dealt);
    }
    dealt.left
}

// The order of the sets or maps that two masks choose of one: the lowest bit that differs decides, unless one of them ends before it.
pub fn order(a: usize, b: usize) -> Ordering
    ensures { OrderedMasks a b result }
{
    if a == b {
        return Ordering::Equal;
    }
    let equal = (a ^ b).trailing_zeros();
    let x = a >> equal;
    let y = b >> equal;
    if x == 0 {
        return Ordering::Less;
    }
    if y == 0 {
        return Ordering::Greater;
    }
    if x % 2 == 1 {
        Ordering::Less
    } else {
        Ordering::Greater
    }
}

// How many items a unit of a value of the kind has: an entry has a key and a value.
pub fn width(kind: usize) -> usize
    ensures { WidthOf kind result × (0 < result) × (result ≤ 2) }
{
    if kind == Value::MAP {
        return 2;
    }
    1
}

// For each mask of three bits a byte with each of these bits twice.
const TWICE: u64 = 0x3f3c_3330_0f0c_0300;

// A mask of three bits, with each of them twice.
fn twice(m: usize) -> usize
    requires { m < 8 }
    ensures { (result ≡ doubled 3 m) × (result < 64) }
{
    ((TWICE >> (8 * m)) % 256) as usize
}

// The mask of the items of the units that a mask chooses, of a set or map of the kind.
pub fn item_mask(kind: usize, m: usize) -> usize
    requires { m < 128 }
    ensures { ItemMask kind m result }
{
    if kind != Value::MAP {
        return m;
    }
    twice(m % 8) + 64 * twice(m / 8 % 8) + 4096 * twice(m / 64)
}
