// What is evaluated without evaluating anything else: literals, names, tests, and the operators of two operands.
ghost use Rattle.std.specs.Prelude.{◌≡◌, ◌⊎◌};
ghost use Rattle.values.specs.Place.{Holds};
ghost use Rattle.calling.specs.Applied.{Two, OnTwo};
ghost use Rattle.tables.specs.Table.{kind_at};
ghost use Rattle.tables.specs.Accepted.{records};
ghost use Rattle.tables.specs.Shapes.{first_of};
ghost use Rattle.lists.specs.Lent.{lent};
ghost use Rattle.evaluator.specs.Contract.{Ask, Evaluates, ended, env_of};
ghost use Rattle.evaluator.specs.Leaves.{Tells, Connects, OfTwo, of_two};

use crate::Refused;
use lists::Run;
use parts::How;
use parts::words::{Env, unpack};
use prelude::Refusal;
use tables::sheet::{AFTER_OPERATOR, PLAIN, Sheet};
use tables::{binary, kinds};
use values::Value;

// 1: a boolean literal.
pub fn truth(
    sheet: &Sheet,
    r: usize,
    s: &mut [u8],
    base: usize,
    env: &[u32; Env::NAMES],
    run: &mut Run,
) -> Result<(), Refused>
    requires { Ask sheet.now r s.old base (env_of env.now) (lent run.old) × (kind_at (records sheet.now) r ≡ 1) }
    ensures { Evaluates sheet.now r s.old s.new base (env_of env.now) (lent run.old) (ended result (lent run.new)) }
{
    let b = sheet.field(r, 0);
    values::put_boolean(s, base, b == 1);
    Ok(())
}

// 2: an integer literal.
pub fn whole(
    sheet: &Sheet,
    r: usize,
    s: &mut [u8],
    base: usize,
    env: &[u32; Env::NAMES],
    run: &mut Run,
) -> Result<(), Refused>
    requires { Ask sheet.now r s.old base (env_of env.now) (lent run.old) × (kind_at (records sheet.now) r ≡ 2) }
    ensures { Evaluates sheet.now r s.old s.new base (env_of env.now) (lent run.old) (ended result (lent run.new)) }
{
    let z = sheet.integer(r);
    values::put_integer(s, base, z);
    Ok(())
}

// 22: a quote literal.
pub fn quote(
    sheet: &Sheet,
    r: usize,
    s: &mut [u8],
    base: usize,
    env: &[u32; Env::NAMES],
    run: &mut Run,
) -> Result<(), Refused>
    requires { Ask sheet.now r s.old base (env_of env.now) (lent run.old) × (kind_at (records sheet.now) r ≡ 22) }
    ensures { Evaluates sheet.now r s.old s.new base (env_of env.now) (lent run.old) (ended result (lent run.new)) }
{
    let n = sheet.quote(r);
    values::put_quote(s, base, n);
    Ok(())
}

// 3: a name. Its value is built where the name is read.
pub fn name(
    sheet: &Sheet,
    r: usize,
    s: &mut [u8],
    base: usize,
    env: &[u32; Env::NAMES],
    run: &mut Run,
) -> Result<(), Refused>
    requires { Ask sheet.now r s.old base (env_of env.now) (lent run.old) × (kind_at (records sheet.now) r ≡ 3) }
    ensures { Evaluates sheet.now r s.old s.new base (env_of env.now) (lent run.old) (ended result (lent run.new)) }
{
    let x = sheet.field(r, 0);
    let word = env[x];
    let part = unpack(word);
    if part.how == How::Nothing {
        return Err(Refused::at(Refusal::WrongKind, r));
    }
    let at = part.at as usize;
    if part.how == How::Whole && values::kind_of(s, at) == Value::INTEGER {
        let z = values::integer_at(s, at);
        values::put_integer(s, base, z);
        return Ok(());
    }
    parts::put_part(s, part, base);
    Ok(())
}

// The boolean at a place, if it is one.
pub fn test(s: &[u8], at: usize) -> Option<bool>
    requires { Holds s.now at }
    ensures { Tells s.now at result }
{
    if values::kind_of(s, at) != Value::BOOLEAN {
        return None;
    }
    Some(values::boolean_at(s, at))
}

// Whether the operator of a record of kind k is and, or or =>.
pub fn is_connective(k: usize, op: usize) -> bool
    ensures { Connects k op result }
{
    if k != kinds::BINARY {
        return false;
    }
    op <= binary::IMPLIES
}

// Where the operands of a record of kind 5, 11 or 21 begin.
pub fn first_of_two(k: usize) -> usize
    requires { (k ≡ 5) ⊎ ((k ≡ 11) ⊎ (k ≡ 21)) }
    ensures { result ≡ first_of k }
{
    if k == kinds::BINARY {
        AFTER_OPERATOR
    } else {
        PLAIN
    }
}

// 5, 11, 21: a strict binary operator, a set range, an application, on the values at base and 512 bytes above it.
#[inline(always)]
pub fn two(s: &mut [u8], base: usize, k: usize, op: usize) -> Result<(), Refusal>
    requires { Two s.old base × OfTwo k op }
    ensures { OnTwo (of_two k op) s.old s.new base result }
{
    if k == kinds::BINARY {
        return operations::binary(s, base, op);
    }
    if k == kinds::RANGE {
        return set_operators::range(s, base);
    }
    application::apply(s, base)
}
