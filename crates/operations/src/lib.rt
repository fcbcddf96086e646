// The strict operators by number, on values in scratch: one call for all of one operand, and one for all of two.
#![tactic(auto)]

ghost use Rattle.operators.specs.Operators.{unary, binary};
ghost use Rattle.calling.specs.Applied.{One, Two, OnOne, OnTwo};
ghost use Rattle.operations.specs.Numbers.{Unary, Binary};

use prelude::Refusal;

// The unary operators, 1 to 15, on the value at base.
pub fn unary(s: &mut [u8], base: usize, operator: usize) -> Result<(), Refusal>
    requires { One s.old base × Unary operator }
    ensures { OnOne (unary operator) s.old s.new base result }
{
    if operator <= tables::unary::ABS {
        return scalars::unary_scalar(s, base, operator);
    }
    if operator <= tables::unary::DINTER {
        return set_operators::unary_set(s, base, operator);
    }
    if operator <= tables::unary::REVERSE {
        return sequence_operators::unary_sequence(s, base, operator);
    }
    map_operators::unary_map(s, base, operator)
}

// The strict binary operators, 4 to 28, on the values at base and `calling::SECOND` above it.
pub fn binary(s: &mut [u8], base: usize, operator: usize) -> Result<(), Refusal>
    requires { Two s.old base × Binary operator }
    ensures { OnTwo (binary operator) s.old s.new base result }
{
    if operator <= tables::binary::GREATER_EQUAL {
        return scalars::binary_scalar(s, base, operator);
    }
    if operator <= tables::binary::PSUBSET {
        return set_operators::binary_set(s, base, operator);
    }
    if operator == tables::binary::CONCATENATE {
        return sequence_operators::concatenate(s, base);
    }
    map_operators::binary_map(s, base, operator)
}
