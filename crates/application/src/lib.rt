// Applying a sequence to an index, or a map to a key, on values in scratch.
#![tactic(auto)]

ghost use Rattle.values.specs.Value.{sequence, map};
ghost use Rattle.operators.specs.Maps.{apply_to};
ghost use Rattle.calling.specs.Applied.{Two, OnTwo};
ghost use Rattle.application.specs.Applying.{Sought, Brings, Applicable, OnArgument};

use prelude::Refusal;
use values::Value;

// Brings what was found down to base; 26 where nothing was.
fn bring(s: &mut [u8], base: usize, found: Option<usize>) -> Result<(), Refusal>
    requires { Sought s.old base found }
    ensures { Brings s.old s.new base found result }
{
    let p = found.ok_or(Refusal::NotThere)?;
    values::copy_value(s, p, base);
    Ok(())
}

// The item of a sequence at an index, which starts at 1.
fn item(s: &mut [u8], base: usize) -> Result<(), Refusal>
    requires { Applicable sequence s.old base }
    ensures { OnArgument sequence s.old s.new base result }
{
    let kind = values::kind_of(s, base + calling::SECOND);
    if kind != Value::INTEGER {
        return Err(Refusal::WrongKind);
    }
    let i = values::integer_at(s, base + calling::SECOND);
    if i < 1 {
        return Err(Refusal::NotThere);
    }
    let found = collections::finding::item_at(s, base, i as usize - 1);
    bring(s, base, found)
}

// What a map has at a key.
fn at_key(s: &mut [u8], base: usize) -> Result<(), Refusal>
    requires { Applicable map s.old base }
    ensures { OnArgument map s.old s.new base result }
{
    let found = collections::finding::find_key(s, base, base + calling::SECOND);
    bring(s, base, found)
}

// The sequence or the map that is the first operand, applied to the second.
pub fn apply(s: &mut [u8], base: usize) -> Result<(), Refusal>
    requires { Two s.old base }
    ensures { OnTwo apply_to s.old s.new base result }
{
    let kind = values::kind_of(s, base);
    if kind == Value::SEQUENCE {
        return item(s, base);
    }
    if kind == Value::MAP {
        return at_key(s, base);
    }
    Err(Refusal::WrongKind)
}
