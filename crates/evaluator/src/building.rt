// What an enumeration builds, operand by operand. A refusal of the building is remembered, and stays.
ghost use Rattle.std.specs.Prelude.{◌≡◌};
ghost use Rattle.values.specs.Value.{number};
ghost use Rattle.evaluator.specs.Building.{AddHeld, AddsNext, EnterHeld, EntersNext, built_kind, enumeration_for, Finishable, Finishes};

use crate::Refused;
use crate::answers::at_record;
use calling::{SECOND, THIRD};
use collections::building::{append, enter, insert, retag};
use prelude::Refusal;
use tables::kinds;
use values::Value;

// The kind of value that an enumeration of kind k builds. A tuple is built as a sequence.
pub fn built_kind(k: usize) -> usize
    ensures { result ≡ number (built_kind k) }
{
    if k == kinds::SET {
        return Value::SET;
    }
    if k == kinds::MAP {
        return Value::MAP;
    }
    Value::SEQUENCE
}

// The kind of enumeration that builds what a comprehension of kind k builds.
pub fn enumeration_of(k: usize) -> usize
    ensures { result ≡ enumeration_for k }
{
    if k == kinds::SET_COMPREHENSION {
        return kinds::SET;
    }
    if k == kinds::SEQUENCE_COMPREHENSION {
        return kinds::SEQUENCE;
    }
    kinds::MAP
}

// What is built so far takes one more, which stands 512 bytes above it; TooLarge where there is no room.
pub fn add(s: &mut [u8], base: usize, k: usize, so_far: Result<(), Refusal>) -> Result<(), Refusal>
    requires { AddHeld k s.old base so_far }
    ensures { AddsNext k s.old s.new base so_far result }
{
    so_far?;
    if k == kinds::SET {
        return insert(s, base, base + SECOND);
    }
    append(s, base, base + SECOND)
}

// The map that is built so far takes one more key and value, which stand 512 and 1,024 bytes above it; Clash or TooLarge where it cannot.
pub fn enter_next(s: &mut [u8], base: usize, so_far: Result<(), Refusal>) -> Result<(), Refusal>
    requires { EnterHeld s.old base so_far }
    ensures { EntersNext s.old s.new base so_far result }
{
    so_far?;
    enter(s, base, base + SECOND, base + THIRD)
}

// What was built, or its refusal at the record r.
pub fn finish(
    s: &mut [u8],
    base: usize,
    k: usize,
    so_far: Result<(), Refusal>,
    r: usize,
) -> Result<(), Refused>
    requires { Finishable k s.old base so_far r }
    ensures { Finishes k s.old s.new base so_far r result }
{
    at_record(so_far, r)?;
    if k == kinds::TUPLE {
        retag(s, base, Value::TUPLE);
    }
    Ok(())
}
