// The operators on sets and the set range, on values in scratch.
#![tactic(auto)]

pub mod members;

ghost use Rattle.std.specs.Prelude.{◌≡◌, ◌≤◌};
ghost use Rattle.values.specs.Value.{set};
ghost use Rattle.values.specs.Place.{Holds, HoldsItems};
ghost use Rattle.collections.specs.Finding.{HoldsKind};
ghost use Rattle.operators.specs.Sets.{how_many, range_of};
ghost use Rattle.operators.specs.Operators.{unary, binary};
ghost use Rattle.calling.specs.Applied.{One, Two, OnOne, OnTwo};
ghost use Rattle.set_operators.specs.Members.{AllIn};
ghost use Rattle.set_operators.specs.Operands.{IsOfKind, TwoSets};

use prelude::Refusal;
use values::Value;

// ---- kinds

// Whether a collection of a kind stands at a place.
fn is_of_kind(s: &[u8], at: usize, kind: usize) -> bool
    requires { Holds s.now at }
    ensures { IsOfKind s.now at kind result }
{
    values::kind_of(s, at) == kind
}

// Whether both operands are sets.
fn two_sets(s: &[u8], base: usize) -> bool
    requires { Two s.now base }
    ensures { TwoSets s.now base result }
{
    if is_of_kind(s, base, Value::SET) {
        return is_of_kind(s, base + calling::SECOND, Value::SET);
    }
    false
}

// ---- one operand: 4 card, 5 dunion, 6 dinter

// 4 card
fn cardinality(s: &mut [u8], base: usize) -> Result<(), Refusal>
    requires { One s.old base }
    ensures { OnOne (unary 4) s.old s.new base result }
{
    if !is_of_kind(s, base, Value::SET) {
        return Err(Refusal::WrongKind);
    }
    let n = collections::finding::count_of(s, base);
    values::put_integer(s, base, n as i32);
    Ok(())
}

// 5 dunion
fn distributed_union(s: &mut [u8], base: usize) -> Result<(), Refusal>
    requires { One s.old base }
    ensures { OnOne (unary 5) s.old s.new base result }
{
    if !is_of_kind(s, base, Value::SET) {
        return Err(Refusal::WrongKind);
    }
    let end = base + values::length_of(s, base);
    if !gathering::all_of_kind(s, base + Value::HEAD, end, Value::SET) {
        return Err(Refusal::WrongKind);
    }
    collections::building::put_empty(s, base + calling::SECOND, Value::SET);
    members::insert_each(s, base + Value::HEAD, end, base + calling::SECOND)?;
    values::copy_value(s, base + calling::SECOND, base);
    Ok(())
}

// 6 dinter
fn distributed_intersection(s: &mut [u8], base: usize) -> Result<(), Refusal>
    requires { One s.old base }
    ensures { OnOne (unary 6) s.old s.new base result }
{
    if !is_of_kind(s, base, Value::SET) {
        return Err(Refusal::WrongKind);
    }
    let end = base + values::length_of(s, base);
    if !gathering::all_of_kind(s, base + Value::HEAD, end, Value::SET) {
        return Err(Refusal::WrongKind);
    }
    if end == base + Value::HEAD {
        return Err(Refusal::NotThere);
    }
    let n = values::length_of(s, base + Value::HEAD);
    members::choose(
        s,
        base + Value::HEAD,
        base + Value::HEAD + n,
        end,
        base + calling::THIRD,
        true,
    );
    values::copy_value(s, base + calling::THIRD, base);
    Ok(())
}

// The unary operators 4 to 6.
pub fn unary_set(s: &mut [u8], base: usize, operator: usize) -> Result<(), Refusal>
    requires { One s.old base × (4 ≤ operator) × (operator ≤ 6) }
    ensures { OnOne (unary operator) s.old s.new base result }
{
    if operator == tables::unary::CARD {
        return cardinality(s, base);
    }
    if operator == tables::unary::DUNION {
        return distributed_union(s, base);
    }
    distributed_intersection(s, base)
}

// ---- two operands: 17 in set, 18 not in set, 19 union, 20 inter, 21 difference, 22 subset, 23 psubset

// 17 in set and 18 not in set: whether the left is a member of the right.
fn membership(s: &mut [u8], base: usize, operator: usize) -> Result<(), Refusal>
    requires { Two s.old base × (17 ≤ operator) × (operator ≤ 18) }
    ensures { OnTwo (binary operator) s.old s.new base result }
{
    if !is_of_kind(s, base + calling::SECOND, Value::SET) {
        return Err(Refusal::WrongKind);
    }
    let found = collections::finding::contains(s, base + calling::SECOND, base);
    calling::put_truth(s, base, found == (operator == tables::binary::IN_SET))
}

// 19 union: both sets merged.
fn union(s: &mut [u8], base: usize) -> Result<(), Refusal>
    requires { Two s.old base }
    ensures { OnTwo (binary 19) s.old s.new base result }
{
    if !two_sets(s, base) {
        return Err(Refusal::WrongKind);
    }
    members::merge(s, base, base + calling::SECOND, base + calling::THIRD)?;
    values::copy_value(s, base + calling::THIRD, base);
    Ok(())
}

// 20 inter and 21 difference: the members of the left that are in the right, or those that are not.
fn selection(s: &mut [u8], base: usize, operator: usize) -> Result<(), Refusal>
    requires { Two s.old base × (20 ≤ operator) × (operator ≤ 21) }
    ensures { OnTwo (binary operator) s.old s.new base result }
{
    if !two_sets(s, base) {
        return Err(Refusal::WrongKind);
    }
    let right = base + calling::SECOND;
    let n = values::length_of(s, right);
    let wanted = operator == tables::binary::INTER;
    members::choose(s, base, right, right + n, base + calling::THIRD, wanted);
    values::copy_value(s, base + calling::THIRD, base);
    Ok(())
}

// Whether all items from a place up to another are members of the set at a place.
fn all_in(s: &[u8], from: usize, to: usize, at: usize) -> bool
    requires { HoldsItems s.now from to × HoldsKind set s.now at }
    ensures { AllIn s.now from to at result }
{
    let mut p = from;
    while p < to {
        let next = p + values::length_of(s, p);
        if !collections::finding::contains(s, at, p) {
            return false;
        }
        p = next;
    }
    true
}

// 22 subset and 23 psubset. Equal sets are subsets of each other, so a proper subset is one that is not equal.
fn inclusion(s: &mut [u8], base: usize, operator: usize) -> Result<(), Refusal>
    requires { Two s.old base × (22 ≤ operator) × (operator ≤ 23) }
    ensures { OnTwo (binary operator) s.old s.new base result }
{
    if !two_sets(s, base) {
        return Err(Refusal::WrongKind);
    }
    let n = values::length_of(s, base);
    let inside = all_in(s, base + Value::HEAD, base + n, base + calling::SECOND);
    if operator == tables::binary::SUBSET {
        return calling::put_truth(s, base, inside);
    }
    let same = values::equal(s, base, base + calling::SECOND);
    calling::put_truth(s, base, inside != same)
}

// The binary operators 17 to 23.
pub fn binary_set(s: &mut [u8], base: usize, operator: usize) -> Result<(), Refusal>
    requires { Two s.old base × (17 ≤ operator) × (operator ≤ 23) }
    ensures { OnTwo (binary operator) s.old s.new base result }
{
    if operator <= tables::binary::NOT_IN_SET {
        return membership(s, base, operator);
    }
    if operator == tables::binary::UNION {
        return union(s, base);
    }
    if operator <= tables::binary::DIFFERENCE {
        return selection(s, base, operator);
    }
    inclusion(s, base, operator)
}

// ---- {a, ..., b}

// How many integers there are from one to another.
fn how_many(from: i32, to: i32) -> usize
    ensures { result ≡ how_many from to }
{
    let n = to as i64 - from as i64 + 1;
    if n < 0 {
        return 0;
    }
    n as usize
}

// The set of the integers from one to another.
pub fn range(s: &mut [u8], base: usize) -> Result<(), Refusal>
    requires { Two s.old base }
    ensures { OnTwo range_of s.old s.new base result }
{
    let (a, b) = calling::two_integers(s, base)?;
    gathering::counting(s, base, a, how_many(a, b))
}
