// The operators on maps, on values in scratch.
#![tactic(auto)]

ghost use Rattle.std.specs.Prelude.{◌≤◌, Ok};
ghost use Rattle.values.specs.Value.{set, sequence, map, collection, none, every_other, keys, mapped};
ghost use Rattle.operators.specs.Answer.{is, sized};
ghost use Rattle.operators.specs.Gather.{insert_all, enter_all};
ghost use Rattle.operators.specs.Operators.{unary, binary};
ghost use Rattle.calling.specs.Applied.{One, Two, OnOne, OnTwo};
ghost use Rattle.calling.specs.Operands.{Has, HasTwo, OnItems, OnBoth};
ghost use Rattle.map_operators.specs.Contract.{Beside, Agrees, Passes, Compatible, Restrictable, Restricts};

use prelude::Refusal;
use values::Value;

// ---- one map

// The keys of a map, or the values that they are mapped to, move together and are a sequence.
fn every_other(s: &mut [u8], base: usize, keys: bool)
    requires { Has map s.old base }
    ensures { OnItems map (λ vs. is (collection sequence (every_other keys vs))) s.old s.new base (Ok tt) }
{
    let end = base + values::length_of(s, base);
    let mut p = base + Value::HEAD;
    let mut q = base + Value::HEAD;
    let mut wanted = keys;
    while p < end {
        let n = values::length_of(s, p);
        let next = p + n;
        if wanted {
            values::copy_bytes(s, p, q, n);
            q += n;
        }
        wanted = !wanted;
        p = next;
    }
    values::put_head(s, base, q - base, Value::SEQUENCE);
}

// 14 dom: the keys ascend, so they are a set as they stand.
fn domain(s: &mut [u8], base: usize) -> Result<(), Refusal>
    requires { Has map s.old base }
    ensures { OnItems map (λ vs. is (collection set (keys vs))) s.old s.new base result }
{
    every_other(s, base, true);
    collections::building::retag(s, base, Value::SET);
    Ok(())
}

// 15 rng: the elements of the sequence of values.
fn range(s: &mut [u8], base: usize) -> Result<(), Refusal>
    requires { Has map s.old base }
    ensures { OnItems map (λ vs. is (collection set (insert_all none (mapped vs)))) s.old s.new base result }
{
    every_other(s, base, false);
    gathering::elements(s, base)
}

// The unary operators 14 and 15.
pub fn unary_map(s: &mut [u8], base: usize, operator: usize) -> Result<(), Refusal>
    requires { One s.old base × (14 ≤ operator) × (operator ≤ 15) }
    ensures { OnOne (unary operator) s.old s.new base result }
{
    let kind = values::kind_of(s, base);
    if kind != Value::MAP {
        return Err(Refusal::WrongKind);
    }
    if operator == tables::unary::DOM {
        return domain(s, base);
    }
    range(s, base)
}

// ---- two maps

// Whether the map at a place has this value at a key, or nothing.
fn agrees(s: &[u8], at: usize, k: usize, v: usize) -> bool
    requires { Beside map s.now at k v }
    ensures { Agrees s.now at k v result }
{
    match collections::finding::find_key(s, at, k) {
        Some(w) => values::equal(s, v, w),
        None => true,
    }
}

// Whether any common key is mapped to the same value by both maps.
fn compatible(s: &[u8], base: usize) -> bool
    requires { HasTwo map map s.now base }
    ensures { Compatible s.now base result }
{
    let end = base + calling::SECOND + values::length_of(s, base + calling::SECOND);
    let mut p = base + calling::SECOND + Value::HEAD;
    while p < end {
        let v = p + values::length_of(s, p);
        if !agrees(s, base, p, v) {
            return false;
        }
        p = v + values::length_of(s, v);
    }
    true
}

// The entries of the first map go into the second, where what stands there wins. What is built is always a part of the whole, so 28 is
// given exactly where the whole is over 512 bytes.
fn enter_all(s: &mut [u8], base: usize) -> Result<(), Refusal>
    requires { HasTwo map map s.old base }
    ensures { OnBoth map map (λ vs ws. sized map (enter_all vs ws)) s.old s.new base result }
{
    let end = base + values::length_of(s, base);
    let mut p = base + Value::HEAD;
    while p < end {
        let v = p + values::length_of(s, p);
        let next = v + values::length_of(s, v);
        let entered = collections::building::enter(s, base + calling::SECOND, p, v);
        if entered == Err(Refusal::TooLarge) {
            return entered;
        }
        p = next;
    }
    values::copy_value(s, base + calling::SECOND, base);
    Ok(())
}

// 25 munion
fn merge(s: &mut [u8], base: usize) -> Result<(), Refusal>
    requires { Two s.old base }
    ensures { OnTwo (binary 25) s.old s.new base result }
{
    if calling::kinds_are(s, base, Value::MAP, Value::MAP) {
        if compatible(s, base) {
            return enter_all(s, base);
        }
        return Err(Refusal::Clash);
    }
    Err(Refusal::WrongKind)
}

// 26 ++
fn replace(s: &mut [u8], base: usize) -> Result<(), Refusal>
    requires { Two s.old base }
    ensures { OnTwo (binary 26) s.old s.new base result }
{
    if calling::kinds_are(s, base, Value::MAP, Value::MAP) {
        return enter_all(s, base);
    }
    Err(Refusal::WrongKind)
}

// ---- a map and a set

// Whether the key, or the value, is in the set at a place.
fn passes(s: &[u8], at: usize, k: usize, v: usize, keys: bool) -> bool
    requires { Beside set s.now at k v }
    ensures { Passes keys s.now at k v result }
{
    if keys {
        return collections::finding::contains(s, at, k);
    }
    collections::finding::contains(s, at, v)
}

// Leaves in the map at a place only the entries whose key, or whose value, is in the set at another; they move together.
fn restrict(s: &mut [u8], at: usize, of: usize, keys: bool)
    requires { Restrictable s.old at of }
    ensures { Restricts keys s.old s.new at of }
{
    let end = at + values::length_of(s, at);
    let mut p = at + Value::HEAD;
    let mut q = at + Value::HEAD;
    while p < end {
        let v = p + values::length_of(s, p);
        let next = v + values::length_of(s, v);
        if passes(s, of, p, v, keys) {
            values::copy_bytes(s, p, q, next - p);
            q += next - p;
        }
        p = next;
    }
    values::put_head(s, at, q - at, Value::MAP);
}

// 27 <:
fn restrict_domain(s: &mut [u8], base: usize) -> Result<(), Refusal>
    requires { Two s.old base }
    ensures { OnTwo (binary 27) s.old s.new base result }
{
    if calling::kinds_are(s, base, Value::SET, Value::MAP) {
        restrict(s, base + calling::SECOND, base, true);
        values::copy_value(s, base + calling::SECOND, base);
        return Ok(());
    }
    Err(Refusal::WrongKind)
}

// 28 :>
fn restrict_range(s: &mut [u8], base: usize) -> Result<(), Refusal>
    requires { Two s.old base }
    ensures { OnTwo (binary 28) s.old s.new base result }
{
    if calling::kinds_are(s, base, Value::MAP, Value::SET) {
        restrict(s, base, base + calling::SECOND, false);
        return Ok(());
    }
    Err(Refusal::WrongKind)
}

// The binary operators 25 to 28.
pub fn binary_map(s: &mut [u8], base: usize, operator: usize) -> Result<(), Refusal>
    requires { Two s.old base × (25 ≤ operator) × (operator ≤ 28) }
    ensures { OnTwo (binary operator) s.old s.new base result }
{
    match operator {
        tables::binary::MUNION => merge(s, base),
        tables::binary::OVERRIDE => replace(s, base),
        tables::binary::RESTRICT_DOMAIN => restrict_domain(s, base),
        _ => restrict_range(s, base),
    }
}
