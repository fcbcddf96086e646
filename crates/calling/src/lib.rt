// The calling convention of operators on scratch: where operands stand, where the answer is left, and what is answered. An operator
// answers nothing, and its value stands where its first operand stood; or it answers why it has none.
#![tactic(auto)]

ghost use Rattle.std.specs.Prelude.{◌+◌, ◌≤◌, length};
ghost use Rattle.operators.specs.Booleans.{truth};
ghost use Rattle.operators.specs.Arithmetic.{answered};
ghost use Rattle.operators.specs.Answer.{FineAnswer};
ghost use Rattle.calling.specs.Applied.{Two, Gives};
ghost use Rattle.calling.specs.Operands.{KindsAre, PairAt};

use prelude::Refusal;
use values::Value;

// How far above the first operand the second stands.
pub const SECOND: usize = Value::LIMIT;

// How far above the first operand an operator builds where it still needs both.
pub const THIRD: usize = 2 * SECOND;

// What the left of and, or and => says: the answer, which stands in its place; or that the right decides.
#[derive(Clone, Copy, Debug, PartialEq, Eq)]
pub enum Tested {
    Settled,
    Open,
}

// ---- operands

// Whether the operands are of these kinds.
pub fn kinds_are(s: &[u8], base: usize, first: usize, second: usize) -> bool
    requires { Two s.now base }
    ensures { KindsAre s.now base first second result }
{
    values::kind_of(s, base) == first && values::kind_of(s, base + SECOND) == second
}

// The operands, where both are integers.
pub fn two_integers(s: &[u8], base: usize) -> Result<(i32, i32), Refusal>
    requires { Two s.now base }
    ensures { PairAt s.now base result }
{
    let first = values::kind_of(s, base);
    if first != Value::INTEGER {
        return Err(Refusal::WrongKind);
    }
    let second = values::kind_of(s, base + SECOND);
    if second != Value::INTEGER {
        return Err(Refusal::WrongKind);
    }
    let a = values::integer_at(s, base);
    let b = values::integer_at(s, base + SECOND);
    Ok((a, b))
}

// ---- answers

// A truth value as the answer.
pub fn put_truth(s: &mut [u8], base: usize, b: bool) -> Result<(), Refusal>
    requires { base + 5 ≤ length s.old }
    ensures { Gives (truth b) s.old s.new base result }
{
    values::put_boolean(s, base, b);
    Ok(())
}

// An integer, 21 or 22 as the answer.
#[tactic(auto, using(crate::proofs::Answering::gives_off))]
pub fn put_number(s: &mut [u8], base: usize, n: Result<i32, Refusal>) -> Result<(), Refusal>
    requires { (base + 8 ≤ length s.old) × FineAnswer (answered n) }
    ensures { Gives (answered n) s.old s.new base result }
{
    values::put_integer(s, base, n?);
    Ok(())
}
