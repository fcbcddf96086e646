// Going over items one by one: tests of them all, the members of them all, choosing among them, and merging two sets.
ghost use Rattle.std.specs.Prelude.{◌≡◌};
ghost use Rattle.values.specs.Items.{in_order};
ghost use Rattle.values.specs.Place.{Holds, HoldsItems};
ghost use Rattle.values.specs.Contract.{Copyable, Copied};
ghost use Rattle.operators.specs.Gather.{flatten};
ghost use Rattle.gathering.specs.Inserting.{Growing, InsertsAll};
ghost use Rattle.set_operators.specs.Members.{HoldsSets, InAll, Appendable, AppendsIf, Choice, Chosen, LeastOn, Merge, Merged};

use prelude::Refusal;
use std::cmp::Ordering;
use values::Value;

// Whether the value at x is a member of each of the sets from a place up to another.
pub fn in_all(s: &[u8], x: usize, from: usize, to: usize) -> bool
    requires { Holds s.now x × HoldsSets s.now from to }
    ensures { InAll s.now x from to result }
{
    let mut p = from;
    while p < to {
        if !collections::finding::contains(s, p, x) {
            return false;
        }
        p += values::length_of(s, p);
    }
    true
}

// Every member of each of the sets from a place up to another goes into the set at a place.
pub fn insert_each(s: &mut [u8], from: usize, to: usize, at: usize) -> Result<(), Refusal>
    requires { HoldsSets s.old from to × Growing s.old from to at }
    ensures { InsertsAll flatten s.old s.new from to at result }
{
    let mut p = from;
    while p < to {
        let n = values::length_of(s, p);
        gathering::insert_all(s, p + Value::HEAD, p + n, at)?;
        p += n;
    }
    Ok(())
}

// The item at x goes to the end of the sequence at a place, if wanted.
fn append_if(s: &mut [u8], at: usize, x: usize, wanted: bool)
    requires { Appendable s.old at x }
    ensures { AppendsIf s.old s.new at x wanted }
{
    if wanted {
        collections::building::append(s, at, x).unwrap();
    }
}

// Builds at a place the set of the members of the set at x that are in each of the sets from a up to b; or of those that are not.
pub fn choose(s: &mut [u8], x: usize, a: usize, b: usize, at: usize, wanted: bool)
    requires { Choice s.old x a b at }
    ensures { Chosen s.old s.new x a b at wanted }
{
    let end = x + values::length_of(s, x);
    collections::building::put_empty(s, at, Value::SEQUENCE);
    let mut p = x + Value::HEAD;
    while p < end {
        let found = in_all(s, p, a, b);
        append_if(s, at, p, found == wanted);
        p += values::length_of(s, p);
    }
    collections::building::retag(s, at, Value::SET);
}

// ---- merging

// On which side the least member left is, each side from a place up to its end: Less says the left, Greater the right, Equal both.
// Two integers are compared without the general comparison.
fn least_side(s: &[u8], a: usize, a_end: usize, b: usize, b_end: usize) -> Ordering
    requires { HoldsItems s.now a a_end × HoldsItems s.now b b_end }
    ensures { LeastOn s.now a a_end b b_end result }
{
    if b == b_end {
        return Ordering::Less;
    }
    if a == a_end {
        return Ordering::Greater;
    }
    if values::kind_of(s, a) == Value::INTEGER {
        if values::kind_of(s, b) == Value::INTEGER {
            return values::compare_integers(s, a, b);
        }
    }
    values::compare(s, a, b)
}

// One of three places, by an order.
fn in_order(o: Ordering, lower: usize, same: usize, higher: usize) -> usize
    ensures { result ≡ in_order o lower same higher }
{
    match o {
        Ordering::Less => lower,
        Ordering::Equal => same,
        Ordering::Greater => higher,
    }
}

// Builds at a place the union of the sets at x and y, in one pass over both: each turn passes the least member left.
pub fn merge(s: &mut [u8], x: usize, y: usize, at: usize) -> Result<(), Refusal>
    requires { Merge s.old x y at }
    ensures { Merged s.old s.new x y at result }
{
    let a_end = x + values::length_of(s, x);
    let b_end = y + values::length_of(s, y);
    let mut a = x + Value::HEAD;
    let mut b = y + Value::HEAD;
    let mut p = at + Value::HEAD;
    while a + b < a_end + b_end {
        let side = least_side(s, a, a_end, b, b_end);
        let least = in_order(side, a, a, b);
        if at + Value::LIMIT < p + values::length_of(s, least) {
            return Err(Refusal::TooLarge);
        }
        let next = values::copy_value(s, least, p);
        let n = next - p;
        let past_a = a + n;
        let past_b = b + n;
        a = in_order(side, past_a, past_a, a);
        b = in_order(side, b, past_b, past_b);
        p = next;
    }
    values::put_head(s, at, p - at, Value::SET);
    Ok(())
}
