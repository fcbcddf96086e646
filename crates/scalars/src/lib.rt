// The operators on booleans and integers, and equality, on values in scratch.
#![tactic(auto)]

ghost use Rattle.std.specs.Prelude.{◌≡◌, ◌+◌, ◌≤◌};
ghost use Rattle.values.specs.Value.{integer};
ghost use Rattle.operators.specs.Booleans.{truth, right};
ghost use Rattle.operators.specs.Arithmetic.{answered};
ghost use Rattle.operators.specs.Operators.{unary, binary};
ghost use Rattle.calling.specs.Applied.{One, Two, OnOne, OnTwo};
ghost use Rattle.scalars.specs.Connectives.{connective, TestsLeft};

use calling::Tested;
use prelude::Refusal;
use values::Value;

// ---- one operand: 1 not, 2 minus, 3 abs

fn negation(s: &mut [u8], base: usize) -> Result<(), Refusal>
    requires { One s.old base }
    ensures { OnOne (unary 1) s.old s.new base result }
{
    let kind = values::kind_of(s, base);
    if kind != Value::BOOLEAN {
        return Err(Refusal::WrongKind);
    }
    let b = values::boolean_at(s, base);
    calling::put_truth(s, base, !b)
}

fn sign(s: &mut [u8], base: usize, operator: usize) -> Result<(), Refusal>
    requires { One s.old base × (2 ≤ operator) × (operator ≤ 3) }
    ensures { OnOne (unary operator) s.old s.new base result }
{
    let kind = values::kind_of(s, base);
    if kind != Value::INTEGER {
        return Err(Refusal::WrongKind);
    }
    let z = values::integer_at(s, base);
    if operator == tables::unary::MINUS {
        return calling::put_number(s, base, integers::neg(z));
    }
    calling::put_number(s, base, integers::abs(z))
}

// The unary operators 1 to 3.
pub fn unary_scalar(s: &mut [u8], base: usize, operator: usize) -> Result<(), Refusal>
    requires { One s.old base × (1 ≤ operator) × (operator ≤ 3) }
    ensures { OnOne (unary operator) s.old s.new base result }
{
    if operator == tables::unary::NOT {
        return negation(s, base);
    }
    sign(s, base, operator)
}

// ---- two booleans, and any two values: 4 <=>, 5 =, 6 <>

fn biimplication(s: &mut [u8], base: usize) -> Result<(), Refusal>
    requires { Two s.old base }
    ensures { OnTwo (binary 4) s.old s.new base result }
{
    let first = values::kind_of(s, base);
    if first != Value::BOOLEAN {
        return Err(Refusal::WrongKind);
    }
    let second = values::kind_of(s, base + calling::SECOND);
    if second != Value::BOOLEAN {
        return Err(Refusal::WrongKind);
    }
    let a = values::boolean_at(s, base);
    let b = values::boolean_at(s, base + calling::SECOND);
    calling::put_truth(s, base, a == b)
}

fn equality(s: &mut [u8], base: usize, operator: usize) -> Result<(), Refusal>
    requires { Two s.old base × (5 ≤ operator) × (operator ≤ 6) }
    ensures { OnTwo (binary operator) s.old s.new base result }
{
    let equal = values::equal(s, base, base + calling::SECOND);
    if operator == tables::binary::EQUAL {
        return calling::put_truth(s, base, equal);
    }
    calling::put_truth(s, base, !equal)
}

// ---- two integers

// 7 +, 8 −, 9 ×, 10 div, 11 rem, 12 mod
fn compute(operator: usize, a: i32, b: i32) -> Result<i32, Refusal>
    requires { (7 ≤ operator) × (operator ≤ 12) }
    ensures { binary operator (integer a) (integer b) ≡ answered result }
{
    match operator {
        tables::binary::PLUS => integers::add(a, b),
        tables::binary::MINUS => integers::sub(a, b),
        tables::binary::TIMES => integers::mul(a, b),
        tables::binary::DIV => integers::div(a, b),
        tables::binary::REM => integers::rem(a, b),
        _ => integers::modulo(a, b),
    }
}

// 13 <, 14 <=, 15 >, 16 >=
fn test(operator: usize, a: i32, b: i32) -> bool
    requires { (13 ≤ operator) × (operator ≤ 16) }
    ensures { binary operator (integer a) (integer b) ≡ truth result }
{
    match operator {
        tables::binary::LESS => a < b,
        tables::binary::LESS_EQUAL => a <= b,
        tables::binary::GREATER => a > b,
        _ => a >= b,
    }
}

fn arithmetic(s: &mut [u8], base: usize, operator: usize) -> Result<(), Refusal>
    requires { Two s.old base × (7 ≤ operator) × (operator ≤ 12) }
    ensures { OnTwo (binary operator) s.old s.new base result }
{
    let (a, b) = calling::two_integers(s, base)?;
    calling::put_number(s, base, compute(operator, a, b))
}

fn comparison(s: &mut [u8], base: usize, operator: usize) -> Result<(), Refusal>
    requires { Two s.old base × (13 ≤ operator) × (operator ≤ 16) }
    ensures { OnTwo (binary operator) s.old s.new base result }
{
    let (a, b) = calling::two_integers(s, base)?;
    calling::put_truth(s, base, test(operator, a, b))
}

// The binary operators 4 to 16.
pub fn binary_scalar(s: &mut [u8], base: usize, operator: usize) -> Result<(), Refusal>
    requires { Two s.old base × (4 ≤ operator) × (operator ≤ 16) }
    ensures { OnTwo (binary operator) s.old s.new base result }
{
    if operator == tables::binary::EQUIVALENT {
        return biimplication(s, base);
    }
    if operator <= tables::binary::NOT_EQUAL {
        return equality(s, base, operator);
    }
    if operator <= tables::binary::MOD {
        return arithmetic(s, base, operator);
    }
    comparison(s, base, operator)
}

// ---- 1 and, 2 or, 3 =>

// Tests the left: true leaves the right to decide in and and =>, false in or. Else the answer is false in and, true in or and =>.
pub fn left(s: &mut [u8], base: usize, operator: usize) -> Result<Tested, Refusal>
    requires { One s.old base × (1 ≤ operator) × (operator ≤ 3) }
    ensures { TestsLeft (connective operator) s.old s.new base result }
{
    let kind = values::kind_of(s, base);
    if kind != Value::BOOLEAN {
        return Err(Refusal::WrongKind);
    }
    let b = values::boolean_at(s, base);
    if b == (operator != tables::binary::OR) {
        return Ok(Tested::Open);
    }
    values::put_boolean(s, base, operator != tables::binary::AND);
    Ok(Tested::Settled)
}

// Tests the right, where the left leaves it to decide; its value is the answer.
pub fn right(s: &[u8], base: usize) -> Result<(), Refusal>
    requires { One s.now base }
    ensures { OnOne right s.now s.now base result }
{
    let kind = values::kind_of(s, base);
    if kind != Value::BOOLEAN {
        return Err(Refusal::WrongKind);
    }
    Ok(())
}
