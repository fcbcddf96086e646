// Collections that are built in a lent slice, one item after the other, each with room for the longest value.
ghost use Rattle.std.specs.Prelude.{◌+◌, ◌≤◌, ◌<◌, length};
ghost use Rattle.values.specs.Value.{set, sequence};
ghost use Rattle.values.specs.Contract.{Moved};
ghost use Rattle.collections.specs.Finding.{HoldsCollection};
ghost use Rattle.collections.specs.Building.{Room, EntryRoom, Empties, Retags, Appends, Inserts, Enters};
ghost use Rattle.collections.specs.Steps.{Gap, Fills, Slot, AddsAt, EntersAt};

use prelude::Refusal;
use values::Value;

// Moves n bytes up, the last first, so that they may go over themselves. Mostly there are none: an item goes to the end, and a call of the library to move
// nothing takes as long as a short item.
fn shift_up(s: &mut [u8], at: usize, n: usize, by: usize)
    requires { at + n + by ≤ length s.old }
    ensures { Moved s.old s.new at (at + by) n }
{
    for i in (0..n).rev() {
        s[at + by + i] = s[at + i];
    }
}

// The item at x goes in before what stands from p to end.
fn put_before(s: &mut [u8], p: usize, end: usize, x: usize)
    requires { Gap s.old p end x }
    ensures { Fills s.old s.new p end x }
{
    let n = values::length_of(s, x);
    shift_up(s, p, end - p, n);
    values::copy_value(s, x, p);
}

// The item at x goes into the collection at a place, before what stands at p. The kind is written anew.
fn add(s: &mut [u8], at: usize, p: usize, x: usize, kind: usize) -> Result<(), Refusal>
    requires { Slot s.old at p x × (kind < 65536) }
    ensures { AddsAt s.old s.new at p x kind result }
{
    let n = values::length_of(s, at);
    let m = values::length_of(s, x);
    if Value::LIMIT < n + m {
        return Err(Refusal::TooLarge);
    }
    put_before(s, p, at + n, x);
    values::put_head(s, at, n + m, kind);
    Ok(())
}

// The entry of the key at k and the value at v goes into the map at a place, before what stands at p.
fn add_entry(s: &mut [u8], at: usize, p: usize, k: usize, v: usize) -> Result<(), Refusal>
    requires { Slot s.old at p k × Slot s.old at p v }
    ensures { EntersAt s.old s.new at p k v result }
{
    let n = values::length_of(s, at);
    let m = values::length_of(s, k);
    let l = values::length_of(s, v);
    if Value::LIMIT < n + m + l {
        return Err(Refusal::TooLarge);
    }
    put_before(s, p, at + n, v);
    put_before(s, p, at + n + l, k);
    values::put_head(s, at, n + m + l, Value::MAP);
    Ok(())
}

// Writes an empty collection of a kind at a place.
pub fn put_empty(s: &mut [u8], at: usize, kind: usize)
    requires { (at + 4 ≤ length s.old) × (kind < 65536) }
    ensures { Empties s.old s.new at kind }
{
    values::put_head(s, at, Value::HEAD, kind);
}

// The collection at a place becomes one of another kind, with the same items.
pub fn retag(s: &mut [u8], at: usize, kind: usize)
    requires { HoldsCollection s.old at × (kind < 65536) }
    ensures { Retags s.old s.new at kind }
{
    let n = values::length_of(s, at);
    values::put_head(s, at, n, kind);
}

// The item at x goes to the end of the sequence at a place.
pub fn append(s: &mut [u8], at: usize, x: usize) -> Result<(), Refusal>
    requires { Room sequence s.old at x }
    ensures { Appends s.old s.new at x result }
{
    let n = values::length_of(s, at);
    add(s, at, at + n, x, Value::SEQUENCE)
}

// The member at x goes, in order, into the set at a place.
pub fn insert(s: &mut [u8], at: usize, x: usize) -> Result<(), Refusal>
    requires { Room set s.old at x }
    ensures { Inserts s.old s.new at x result }
{
    match crate::finding::seek_member(s, at, x) {
        Ok(_) => Ok(()),
        Err(p) => add(s, at, p, x, Value::SET),
    }
}

// The key at k and the value at v go, in order, into the map at a place. A key that is there keeps its value: another one clashes.
pub fn enter(s: &mut [u8], at: usize, k: usize, v: usize) -> Result<(), Refusal>
    requires { EntryRoom s.old at k v }
    ensures { Enters s.old s.new at k v result }
{
    match crate::finding::seek(s, at, k, true) {
        Ok(p) => {
            let n = values::length_of(s, p);
            if values::equal(s, p + n, v) {
                return Ok(());
            }
            Err(Refusal::Clash)
        }
        Err(p) => add_entry(s, at, p, k, v),
    }
}
