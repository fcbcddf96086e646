// The comprehensions: what they build, binding by binding.
ghost use Rattle.std.specs.Prelude.{◌≡◌, ◌<◌};
ghost use Rattle.tables.specs.Table.{kind_at};
ghost use Rattle.tables.specs.Accepted.{records};
ghost use Rattle.lists.specs.Lent.{lent};
ghost use Rattle.evaluator.specs.Contract.{Ask, Evaluates, ended, env_of};
ghost use Rattle.evaluator.specs.Binding.{Comprehension, Extends, Extended, adds_in, step_in, placed};

use crate::answers::at_record;
use crate::binding::{BUILT, INSIDE};
use crate::building::{add, built_kind, enter_next, enumeration_of};
use crate::{Refused, begin, holds, inside};
use bindings::Cursor;
use collections::building::put_empty;
use lists::Run;
use parts::words::Env;
use tables::kinds;
use tables::sheet::Sheet;

// How far above the base of a map comprehension the value of an entry stands, when its key stands at INSIDE.
const BESIDE: usize = 2048;

// 18, 19: an element, evaluated under binding j and added to what is built.
#[cycle(evaluation)]
pub fn item(
    sheet: &Sheet,
    r: usize,
    s: &mut [u8],
    base: usize,
    env: &[u32; Env::NAMES],
    run: &mut Run,
    k: usize,
    cursor: &mut Cursor,
    j: usize,
) -> Result<(), Refused>
    requires { Extends sheet.now r k s.old base (env_of env.now) (lent run.old) (cursor.old) j × (k < 20) }
    ensures { Extended (adds_in sheet.now r k) sheet.now r k s.old s.new base (env_of env.now) (lent run.old) (cursor.old) j (placed result cursor.new) (lent run.new) }
{
    inside(sheet, r, s, base, env, run, false, cursor, j, 3, INSIDE)?;
    at_record(add(s, base + BUILT, enumeration_of(k), Ok(())), r)
}

// 20: a key and a value, evaluated under binding j and entered into what is built.
#[cycle(evaluation)]
pub fn pair(
    sheet: &Sheet,
    r: usize,
    s: &mut [u8],
    base: usize,
    env: &[u32; Env::NAMES],
    run: &mut Run,
    cursor: &mut Cursor,
    j: usize,
) -> Result<(), Refused>
    requires { Extends sheet.now r 20 s.old base (env_of env.now) (lent run.old) (cursor.old) j }
    ensures { Extended (adds_in sheet.now r 20) sheet.now r 20 s.old s.new base (env_of env.now) (lent run.old) (cursor.old) j (placed result cursor.new) (lent run.new) }
{
    inside(sheet, r, s, base, env, run, false, cursor, j, 3, INSIDE)?;
    inside(sheet, r, s, base, env, run, false, cursor, j, 4, BESIDE)?;
    at_record(enter_next(s, base + BUILT, Ok(())), r)
}

// One binding of a comprehension: its condition, and where that holds what is added.
#[cycle(evaluation)]
pub fn step(
    sheet: &Sheet,
    r: usize,
    s: &mut [u8],
    base: usize,
    env: &[u32; Env::NAMES],
    run: &mut Run,
    k: usize,
    cursor: &mut Cursor,
    j: usize,
) -> Result<(), Refused>
    requires { Extends sheet.now r k s.old base (env_of env.now) (lent run.old) (cursor.old) j }
    ensures { Extended (step_in sheet.now r k) sheet.now r k s.old s.new base (env_of env.now) (lent run.old) (cursor.old) j (placed result cursor.new) (lent run.new) }
{
    if !holds(sheet, r, s, base, env, run, cursor, j)? {
        return Ok(());
    }
    if k == kinds::MAP_COMPREHENSION {
        return pair(sheet, r, s, base, env, run, cursor, j);
    }
    item(sheet, r, s, base, env, run, k, cursor, j)
}

// 18, 19, 20: a set, a sequence, a map, built binding by binding.
#[cycle(evaluation)]
pub fn collect(
    sheet: &Sheet,
    r: usize,
    s: &mut [u8],
    base: usize,
    env: &[u32; Env::NAMES],
    run: &mut Run,
    k: usize,
) -> Result<(), Refused>
    requires { Ask sheet.now r s.old base (env_of env.now) (lent run.old) × (kind_at (records sheet.now) r ≡ k) × Comprehension k }
    ensures { Evaluates sheet.now r s.old s.new base (env_of env.now) (lent run.old) (ended result (lent run.new)) }
{
    let mut cursor = begin(sheet, r, s, base, env, run, k)?;
    put_empty(s, base + BUILT, built_kind(enumeration_of(k)));
    let n = cursor.count;
    for j in 0..n {
        step(sheet, r, s, base, env, run, k, &mut cursor, j)?;
    }
    values::copy_value(s, base + BUILT, base);
    Ok(())
}
