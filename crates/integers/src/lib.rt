// The integers of a sheet at 32 bits, with an exact answer at 0 and at the range's ends.
#![tactic(auto)]

ghost use Rattle.std.specs.Prelude.{◌≡◌, pos};
ghost use Rattle.integers.specs.Whole.{ranged, mod_ℤ, sum_of, difference_of, product_of, quotient_of, remainder_of, modulus_of, negation_of, absolute_of};
ghost use Rattle.integers.specs.Order.{order_ℕ, order_ℤ};

use prelude::Refusal;
use std::cmp::Ordering;

pub mod bytes;

// The range of an integer, all of `i32`, named here and nowhere else.
pub const LEAST: i32 = -2147483648;

pub const GREATEST: i32 = 2147483647;

// left + right
pub fn add(left: i32, right: i32) -> Result<i32, Refusal>
    ensures { result ≡ sum_of left right }
{
    left.checked_add(right).ok_or(Refusal::OutOfRange)
}

// left − right
pub fn sub(left: i32, right: i32) -> Result<i32, Refusal>
    ensures { result ≡ difference_of left right }
{
    left.checked_sub(right).ok_or(Refusal::OutOfRange)
}

// left × right
pub fn mul(left: i32, right: i32) -> Result<i32, Refusal>
    ensures { result ≡ product_of left right }
{
    left.checked_mul(right).ok_or(Refusal::OutOfRange)
}

// −z, which is out of range for the least integer alone
pub fn neg(z: i32) -> Result<i32, Refusal>
    ensures { result ≡ negation_of z }
{
    z.checked_neg().ok_or(Refusal::OutOfRange)
}

// abs z
pub fn abs(z: i32) -> Result<i32, Refusal>
    ensures { result ≡ absolute_of z }
{
    if z < 0 {
        return neg(z);
    }
    Ok(z)
}

// left div right, which cuts toward zero. By −1 it is −left, which may be out of range.
pub fn div(left: i32, right: i32) -> Result<i32, Refusal>
    ensures { result ≡ quotient_of left right }
{
    if right == 0 {
        return Err(Refusal::ByZero);
    }
    left.checked_div(right).ok_or(Refusal::OutOfRange)
}

// left rem right, which has the dividend's sign. By −1 nothing is left.
pub fn rem(left: i32, right: i32) -> Result<i32, Refusal>
    ensures { result ≡ remainder_of left right }
{
    if right == 0 {
        return Err(Refusal::ByZero);
    }
    Ok(left.wrapping_rem(right))
}

// left mod right, from the machine's rest, which has the dividend's sign. By −1 nothing is left.
fn floor_rest(left: i32, right: i32) -> i32
    requires { right ≡ pos 0 → ⊥ }
    ensures { result ≡ mod_ℤ left right }
{
    let rest = left.wrapping_rem(right);
    if rest < 0 {
        if right < 0 {
            return rest;
        }
        return rest + right;
    }
    if 0 < rest {
        if 0 < right {
            return rest;
        }
        return rest + right;
    }
    rest
}

// left mod right, which has the divisor's sign
pub fn modulo(left: i32, right: i32) -> Result<i32, Refusal>
    ensures { result ≡ modulus_of left right }
{
    if right == 0 {
        return Err(Refusal::ByZero);
    }
    Ok(floor_rest(left, right))
}

// The order of two integers, by two tests: what goes on by it in a loop is then foreseen, and need not wait for it to be reckoned.
pub fn compare(left: i32, right: i32) -> Ordering
    ensures { result ≡ order_ℤ left right }
{
    if left < right {
        return Ordering::Less;
    }
    if right < left {
        return Ordering::Greater;
    }
    Ordering::Equal
}

// The order of two lengths, kinds or places.
pub fn compare_numbers(left: usize, right: usize) -> Ordering
    ensures { result ≡ order_ℕ left right }
{
    left.cmp(&right)
}
