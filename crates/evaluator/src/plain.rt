// What evaluates its operands under the names that are bound around it: operators, if, and the enumerations.
ghost use Rattle.std.specs.Prelude.{◌≡◌, ◌≤◌};
ghost use Rattle.tables.specs.Table.{kind_at};
ghost use Rattle.tables.specs.Accepted.{records};
ghost use Rattle.lists.specs.Lent.{lent};
ghost use Rattle.evaluator.specs.Contract.{Ask, Evaluates, ended, operator_at, env_of};
ghost use Rattle.evaluator.specs.Leaves.{Strict};
ghost use Rattle.evaluator.specs.Building.{Enumerated};

use crate::answers::at_record;
use crate::building::{add, built_kind, enter_next, finish};
use crate::leaves::{first_of_two, test, two};
use crate::{Refused, eval};
use calling::{SECOND, THIRD, Tested};
use collections::building::put_empty;
use lists::Run;
use parts::words::Env;
use prelude::Refusal;
use tables::kinds;
use tables::sheet::{AFTER_OPERATOR, PLAIN, Sheet};
use values::Value;

// How far above the base of a record its parts stand: the right operand, or the next one of an enumeration; and the next after that.
const NEXT: usize = SECOND;

const AFTER: usize = THIRD;

// 4: a unary operator.
#[cycle(evaluation)]
pub fn unary(
    sheet: &Sheet,
    r: usize,
    s: &mut [u8],
    base: usize,
    env: &[u32; Env::NAMES],
    run: &mut Run,
) -> Result<(), Refused>
    requires { Ask sheet.now r s.old base (env_of env.now) (lent run.old) × (kind_at (records sheet.now) r ≡ 4) }
    ensures { Evaluates sheet.now r s.old s.new base (env_of env.now) (lent run.old) (ended result (lent run.new)) }
{
    let a = sheet.noted_operand(r, AFTER_OPERATOR, 0);
    eval(sheet, a, s, base, env, run)?;
    let op = sheet.field(r, 0);
    at_record(operations::unary(s, base, op), r)
}

// 5, 11, 21: what takes both operands: a strict binary operator, a set range, an application.
#[cycle(evaluation)]
pub fn binary(
    sheet: &Sheet,
    r: usize,
    s: &mut [u8],
    base: usize,
    env: &[u32; Env::NAMES],
    run: &mut Run,
    k: usize,
    op: usize,
) -> Result<(), Refused>
    requires { Ask sheet.now r s.old base (env_of env.now) (lent run.old) × (kind_at (records sheet.now) r ≡ k) × Strict sheet.now r k op }
    ensures { Evaluates sheet.now r s.old s.new base (env_of env.now) (lent run.old) (ended result (lent run.new)) }
{
    let first = first_of_two(k);
    let a = sheet.operand_from(r, first, 0);
    eval(sheet, a, s, base, env, run)?;
    let b = sheet.operand_from(r, first, 1);
    eval(sheet, b, s, base + NEXT, env, run)?;
    at_record(two(s, base, k, op), r)
}

// 5: and, or, =>.
#[cycle(evaluation)]
pub fn logic(
    sheet: &Sheet,
    r: usize,
    s: &mut [u8],
    base: usize,
    env: &[u32; Env::NAMES],
    run: &mut Run,
    op: usize,
) -> Result<(), Refused>
    requires { Ask sheet.now r s.old base (env_of env.now) (lent run.old) × (kind_at (records sheet.now) r ≡ 5) × (op ≡ operator_at sheet.now r) × (op ≤ 3) }
    ensures { Evaluates sheet.now r s.old s.new base (env_of env.now) (lent run.old) (ended result (lent run.new)) }
{
    let first = sheet.operand_from(r, AFTER_OPERATOR, 0);
    eval(sheet, first, s, base, env, run)?;
    let t = at_record(scalars::left(s, base, op), r)?;
    match t {
        Tested::Settled => Ok(()),
        Tested::Open => {
            let second = sheet.operand_from(r, AFTER_OPERATOR, 1);
            eval(sheet, second, s, base, env, run)?;
            at_record(scalars::right(s, base), r)
        }
    }
}

// 6: if.
#[cycle(evaluation)]
pub fn branch(
    sheet: &Sheet,
    r: usize,
    s: &mut [u8],
    base: usize,
    env: &[u32; Env::NAMES],
    run: &mut Run,
) -> Result<(), Refused>
    requires { Ask sheet.now r s.old base (env_of env.now) (lent run.old) × (kind_at (records sheet.now) r ≡ 6) }
    ensures { Evaluates sheet.now r s.old s.new base (env_of env.now) (lent run.old) (ended result (lent run.new)) }
{
    let a = sheet.operand_from(r, PLAIN, 0);
    eval(sheet, a, s, base, env, run)?;
    if test(s, base).ok_or(Refused::at(Refusal::WrongKind, r))? {
        let b = sheet.operand_from(r, PLAIN, 1);
        return eval(sheet, b, s, base, env, run);
    }
    let d = sheet.operand_from(r, PLAIN, 2);
    eval(sheet, d, s, base, env, run)
}

// 7, 8, 10: a set, a sequence, a tuple. A refusal of the building is kept while the other operands are evaluated.
#[cycle(evaluation)]
pub fn items(
    sheet: &Sheet,
    r: usize,
    s: &mut [u8],
    base: usize,
    env: &[u32; Env::NAMES],
    run: &mut Run,
    k: usize,
) -> Result<(), Refused>
    requires { Ask sheet.now r s.old base (env_of env.now) (lent run.old) × (kind_at (records sheet.now) r ≡ k) × Enumerated k }
    ensures { Evaluates sheet.now r s.old s.new base (env_of env.now) (lent run.old) (ended result (lent run.new)) }
{
    let n = sheet.operands_from(r, PLAIN);
    put_empty(s, base, built_kind(k));
    let mut so_far = Ok(());
    for i in 0..n {
        let a = sheet.operand_from(r, PLAIN, i);
        eval(sheet, a, s, base + NEXT, env, run)?;
        so_far = add(s, base, k, so_far);
    }
    finish(s, base, k, so_far, r)
}

// 9: a map, key by key and value by value.
#[cycle(evaluation)]
pub fn entries(
    sheet: &Sheet,
    r: usize,
    s: &mut [u8],
    base: usize,
    env: &[u32; Env::NAMES],
    run: &mut Run,
) -> Result<(), Refused>
    requires { Ask sheet.now r s.old base (env_of env.now) (lent run.old) × (kind_at (records sheet.now) r ≡ 9) }
    ensures { Evaluates sheet.now r s.old s.new base (env_of env.now) (lent run.old) (ended result (lent run.new)) }
{
    let n = sheet.operands_from(r, PLAIN);
    put_empty(s, base, Value::MAP);
    let mut so_far = Ok(());
    for entry in 0..n / 2 {
        let a = sheet.operand_from(r, PLAIN, 2 * entry);
        eval(sheet, a, s, base + NEXT, env, run)?;
        let b = sheet.operand_from(r, PLAIN, 2 * entry + 1);
        eval(sheet, b, s, base + AFTER, env, run)?;
        so_far = enter_next(s, base, so_far);
    }
    finish(s, base, kinds::MAP, so_far, r)
}
