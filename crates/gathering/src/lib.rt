// What several families of operators build: sets of consecutive integers, and sets of the items of others; and a test of the items' kind.
#![tactic(auto)]

ghost use Rattle.std.specs.Prelude.{◌+◌, ◌≤◌};
ghost use Rattle.values.specs.Value.{set, sequence, collection, none};
ghost use Rattle.values.specs.Place.{HoldsItems};
ghost use Rattle.operators.specs.Answer.{is};
ghost use Rattle.operators.specs.Gather.{insert_all};
ghost use Rattle.operators.specs.Sets.{consecutive};
ghost use Rattle.calling.specs.Applied.{Gives};
ghost use Rattle.calling.specs.Operands.{Has, OnItems};
ghost use Rattle.gathering.specs.Consecutive.{IntegersRoom, PutIntegers, CountingRoom};
ghost use Rattle.gathering.specs.Kinds.{AllOfKind};
ghost use Rattle.gathering.specs.Inserting.{Growing, InsertsAll, themselves};

use prelude::Refusal;
use values::Value;

// ---- consecutive integers

// Writes n integers, from a given one up, one after the other.
fn put_integers(s: &mut [u8], at: usize, from: i32, n: usize)
    requires { IntegersRoom s.old at from n }
    ensures { PutIntegers s.old s.new at from n }
{
    for i in 0..n {
        values::put_integer(s, at + Value::INTEGER_BYTES * i, from + i as i32);
    }
}

// The set of n integers, from a given one up, or 28 where it is over 512 bytes.
pub fn counting(s: &mut [u8], base: usize, from: i32, n: usize) -> Result<(), Refusal>
    requires { CountingRoom s.old base from n }
    ensures { Gives (consecutive from n) s.old s.new base result }
{
    let size = Value::HEAD + Value::INTEGER_BYTES * n;
    if size > Value::LIMIT {
        return Err(Refusal::TooLarge);
    }
    put_integers(s, base + Value::HEAD, from, n);
    values::put_head(s, base, size, Value::SET);
    Ok(())
}

// ---- the items of others

// Whether all items from a place up to another are of a kind.
pub fn all_of_kind(s: &[u8], from: usize, to: usize, kind: usize) -> bool
    requires { HoldsItems s.now from to }
    ensures { AllOfKind kind s.now from to result }
{
    let mut p = from;
    while p < to {
        if values::kind_of(s, p) != kind {
            return false;
        }
        p += values::length_of(s, p);
    }
    true
}

// Every item from a place up to another goes into the set at a place.
pub fn insert_all(s: &mut [u8], from: usize, to: usize, at: usize) -> Result<(), Refusal>
    requires { HoldsItems s.old from to × Growing s.old from to at }
    ensures { InsertsAll themselves s.old s.new from to at result }
{
    let mut p = from;
    while p < to {
        collections::building::insert(s, at, p)?;
        p += values::length_of(s, p);
    }
    Ok(())
}

// The set of the elements of a sequence: it is never longer than the sequence.
pub fn elements(s: &mut [u8], base: usize) -> Result<(), Refusal>
    requires { Has sequence s.old base }
    ensures { OnItems sequence (λ vs. is (collection set (insert_all none vs))) s.old s.new base result }
{
    let end = base + values::length_of(s, base);
    collections::building::put_empty(s, base + calling::SECOND, Value::SET);
    insert_all(s, base + Value::HEAD, end, base + calling::SECOND).unwrap();
    values::copy_value(s, base + calling::SECOND, base);
    Ok(())
}
