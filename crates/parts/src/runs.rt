// Runs: the items from a place up to another, of which a mask chooses some. A run stands at an item that is chosen, or at its end.
ghost use Rattle.parts.specs.Run.{Startable, ReadyRun, RunHeld, MoreHeld, RestOf, RunOf, OrderedRuns, CountOf, SkipHeld, Skipped, PutHeld, PutRun};
ghost use Rattle.parts.specs.Contract.{CollectionHeld};

use crate::{How, Part, masks};
use std::cmp::Ordering;
use values::Value;

#[derive(Clone, Copy)]
pub struct Run {
    pub from: usize,
    pub to: usize,
    pub mask: usize,
}

impl Run {
    // The mask that chooses every item, however many there are. Others have at most fourteen bits. It is no None, as `ready` reads all masks alike.
    pub const ALL: usize = 65535;
}

// Past the items that the mask does not choose.
pub fn ready(s: &[u8], r: Run) -> Run
    requires { Startable s.now r }
    ensures { ReadyRun s.now r result }
{
    let to = r.to;
    let mut from = r.from;
    let mut mask = r.mask;
    while from < to {
        if mask % 2 == 1 {
            return Run { from, to, mask };
        }
        from += values::length_of(s, from);
        mask /= 2;
    }
    Run { from, to, mask }
}

// What follows the item at which a run stands.
pub fn rest(s: &[u8], r: Run) -> Run
    requires { MoreHeld s.now r }
    ensures { RestOf s.now r result }
{
    let from = r.from + values::length_of(s, r.from);
    let to = r.to;
    if r.mask == Run::ALL {
        return Run {
            from,
            to,
            mask: Run::ALL,
        };
    }
    ready(
        s,
        Run {
            from,
            to,
            mask: r.mask / 2,
        },
    )
}

// The items of the collection that a part denotes.
pub fn run_of(s: &[u8], p: Part) -> Run
    requires { CollectionHeld s.now p }
    ensures { RunOf s.now p result }
{
    let at = p.at as usize;
    let extent = p.extent as usize;
    if let How::Span = p.how {
        return Run {
            from: at,
            to: at + extent,
            mask: Run::ALL,
        };
    }
    let end = at + values::length_of(s, at);
    if let How::Units = p.how {
        let kind = values::kind_of(s, at);
        let mask = masks::item_mask(kind, extent);
        return ready(
            s,
            Run {
                from: at + Value::HEAD,
                to: end,
                mask,
            },
        );
    }
    Run {
        from: at + Value::HEAD,
        to: end,
        mask: Run::ALL,
    }
}

// How many items a run has.
pub fn count(s: &[u8], r: Run) -> usize
    requires { RunHeld s.now r }
    ensures { CountOf s.now r result }
{
    let mut r = r;
    let mut n = 0;
    while r.from < r.to {
        r = rest(s, r);
        n += 1;
    }
    n
}

// A run without its first k items.
pub fn skip(s: &[u8], r: Run, k: usize) -> Run
    requires { SkipHeld s.now r k }
    ensures { Skipped s.now r k result }
{
    let mut r = r;
    for _i in 0..k {
        r = rest(s, r);
    }
    r
}

// The order of two runs: item by item, a prefix before what extends it.
pub fn order(s: &[u8], a: Run, b: Run) -> Ordering
    requires { RunHeld s.now a × RunHeld s.now b }
    ensures { OrderedRuns s.now a b result }
{
    if a.from == a.to {
        if b.from == b.to {
            return Ordering::Equal;
        }
        return Ordering::Less;
    }
    if b.from == b.to {
        return Ordering::Greater;
    }
    let first = values::compare(s, a.from, b.from);
    let Ordering::Equal = first else {
        return first;
    };
    let x = rest(s, a);
    let y = rest(s, b);
    order(s, x, y)
}

// Copies the items of a run to a place, one after the other, and gives the place past them.
pub fn put(s: &mut [u8], r: Run, to: usize) -> usize
    requires { PutHeld s.old r to }
    ensures { PutRun s.old s.new r to result }
{
    let mut r = r;
    let mut out = to;
    while r.from < r.to {
        let at = r.from;
        out = values::copy_value(s, at, out);
        r = rest(s, r);
    }
    out
}
