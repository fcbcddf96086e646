// The evaluator: the recursion on record numbers, over lent scratch. A record's value is left at its base; what lies below the base stays.
#![tactic(auto)]

mod answers;
mod binding;
mod building;
mod built;
mod leaves;
mod looseness;
mod plain;

ghost use Rattle.std.specs.Prelude.{◌≡◌, ◌<◌, false};
ghost use Rattle.tables.specs.Table.{kind_at};
ghost use Rattle.tables.specs.Accepted.{records};
ghost use Rattle.tables.specs.Reading.{HasOperand};
ghost use Rattle.lists.specs.Lent.{lent};
ghost use Rattle.evaluator.specs.Contract.{Ask, Evaluates, ended, operand_at, env_of, refusal_at};
ghost use Rattle.evaluator.specs.Sheet.{Runnable, Runs};
ghost use Rattle.evaluator.specs.Binding.{Binder, Remaining, Surveyed, Unique, Upward, quantified, Begins, Stands, Insides, Tests, Surveys, begun, placed, held, counted};

use answers::{at_record, chosen};
use binding::{INSIDE, WINDOW, bind_names, fetch, is_quantifier, suits};
use bindings::Cursor;
use built::collect;
use leaves::{is_connective, name, quote, test, truth, whole};
use lists::Run;
use lists::choosing::{choose, decide, wanted};
use looseness::is_loose_pattern;
use parts::words::Env;
use plain::{binary, branch, entries, items, logic, unary};
use prelude::Refusal;
use tables::kinds;
use tables::sheet::{PLAIN, Sheet};

// Why a record has no value: the refusal, the record that is refused, and the number of bindings where no choice among them was made (else 0). Small
// numbers, since every record on the way up hands it on.
#[derive(Clone, Copy, Debug, PartialEq, Eq)]
pub struct Refused {
    pub refusal: Refusal,
    pub place: u8,
    pub count: u8,
}

impl Refused {
    // A refusal of the record r.
    pub fn at(refusal: Refusal, r: usize) -> Refused
        requires { r < 256 }
        ensures { result ≡ refusal_at refusal r }
    {
        Refused {
            refusal,
            place: r as u8,
            count: 0,
        }
    }
}

// A cursor over all bindings of a binder, how many of these satisfy, and which is the wanted one of those that do.
#[derive(Clone, Copy)]
pub struct Tally {
    pub cursor: Cursor,
    pub count: usize,
    pub at: usize,
}

// ---- what all binders do: from the base on stand the set or value, the window of its bindings, what is built, and what an operand gives under a binding

// Operand 1 of the binder r of kind k is evaluated, and its bindings are formed.
#[cycle(evaluation)]
fn begin(
    sheet: &Sheet,
    r: usize,
    s: &mut [u8],
    base: usize,
    env: &[u32; Env::NAMES],
    run: &mut Run,
    k: usize,
) -> Result<Cursor, Refused>
    requires { Ask sheet.now r s.old base (env_of env.now) (lent run.old) × (kind_at (records sheet.now) r ≡ k) × Binder k }
    ensures { Begins sheet.now r k s.old s.new base (env_of env.now) (lent run.old) (begun result) (lent run.new) }
{
    let a = sheet.noted_operand(r, PLAIN, 1);
    eval(sheet, a, s, base, env, run)?;
    if !suits(s, base, k) {
        return Err(Refused::at(Refusal::WrongKind, r));
    }
    let p = sheet.operand_from(r, PLAIN, 0);
    let opened = bindings::open(sheet, p, s, base, k == kinds::LET, base + WINDOW);
    at_record(opened, r)
}

// Operand i of the binder r, evaluated under binding j at a place above base.
#[cycle(evaluation)]
#[inline(always)]
fn inside(
    sheet: &Sheet,
    r: usize,
    s: &mut [u8],
    base: usize,
    env: &[u32; Env::NAMES],
    run: &mut Run,
    whole: bool,
    cursor: &mut Cursor,
    j: usize,
    i: usize,
    up: usize,
) -> Result<(), Refused>
    requires { Stands sheet.now r whole s.old base (env_of env.now) (lent run.old) cursor.old j × HasOperand sheet.now r i × Upward up }
    ensures { Insides sheet.now r (operand_at sheet.now r i) whole s.old s.new base up (env_of env.now) (lent run.old) cursor.old j (placed result cursor.new) (lent run.new) }
{
    let q = sheet.operand_from(r, PLAIN, i);
    let mut inner = [0; Env::NAMES];
    bind_names(sheet, r, s, base, env, whole, cursor, j, &mut inner);
    eval(sheet, q, s, base + up, &inner, run)
}

// Does the condition of the binder r hold under binding j?
#[cycle(evaluation)]
#[inline(always)]
fn holds(
    sheet: &Sheet,
    r: usize,
    s: &mut [u8],
    base: usize,
    env: &[u32; Env::NAMES],
    run: &mut Run,
    cursor: &mut Cursor,
    j: usize,
) -> Result<bool, Refused>
    requires { Stands sheet.now r false s.old base (env_of env.now) (lent run.old) cursor.old j }
    ensures { Tests sheet.now r s.old s.new base (env_of env.now) (lent run.old) cursor.old j (held result cursor.new) (lent run.new) }
{
    inside(sheet, r, s, base, env, run, false, cursor, j, 2, INSIDE)?;
    test(s, base + INSIDE).ok_or(Refused::at(Refusal::WrongKind, r))
}

// ---- the binders that build nothing

// 14, 15: forall stops at the first false, exists at the first true.
#[cycle(evaluation)]
fn quantify(
    sheet: &Sheet,
    r: usize,
    s: &mut [u8],
    base: usize,
    env: &[u32; Env::NAMES],
    run: &mut Run,
    k: usize,
    want: bool,
) -> Result<(), Refused>
    requires { Ask sheet.now r s.old base (env_of env.now) (lent run.old) × (kind_at (records sheet.now) r ≡ k) × (k ≡ quantified want) }
    ensures { Evaluates sheet.now r s.old s.new base (env_of env.now) (lent run.old) (ended result (lent run.new)) }
{
    let mut cursor = begin(sheet, r, s, base, env, run, k)?;
    let n = cursor.count;
    let mut found = !want;
    'all: for j in 0..n {
        if holds(sheet, r, s, base, env, run, &mut cursor, j)? == want {
            found = want;
            break 'all;
        }
    }
    values::put_boolean(s, base, found);
    Ok(())
}

// 13, 16, 17: all bindings are tested. The satisfying ones are counted, and the wanted one is remembered as it passes.
#[cycle(evaluation)]
fn survey(
    sheet: &Sheet,
    r: usize,
    s: &mut [u8],
    base: usize,
    env: &[u32; Env::NAMES],
    run: &mut Run,
    k: usize,
) -> Result<Tally, Refused>
    requires { Ask sheet.now r s.old base (env_of env.now) (lent run.old) × (kind_at (records sheet.now) r ≡ k) × Surveyed k }
    ensures { Surveys sheet.now r k s.old s.new base (env_of env.now) (lent run.old) (counted result) (lent run.new) }
{
    let mut cursor = begin(sheet, r, s, base, env, run, k)?;
    let due = wanted(run, k);
    let all = cursor.count;
    let mut count = 0;
    let mut at = 0;
    for j in 0..all {
        let told = holds(sheet, r, s, base, env, run, &mut cursor, j);
        if told? {
            if count == due {
                at = j;
            }
            count += 1;
        }
    }
    Ok(Tally { cursor, count, at })
}

// 16, 17: exists1 says whether exactly one binding satisfies; iota gives the value of its name under that one.
#[cycle(evaluation)]
fn single(
    sheet: &Sheet,
    r: usize,
    s: &mut [u8],
    base: usize,
    env: &[u32; Env::NAMES],
    run: &mut Run,
    k: usize,
) -> Result<(), Refused>
    requires { Ask sheet.now r s.old base (env_of env.now) (lent run.old) × (kind_at (records sheet.now) r ≡ k) × Unique k }
    ensures { Evaluates sheet.now r s.old s.new base (env_of env.now) (lent run.old) (ended result (lent run.new)) }
{
    let mut all = survey(sheet, r, s, base, env, run, k)?;
    if k == kinds::EXISTS1 {
        values::put_boolean(s, base, all.count == 1);
        return Ok(());
    }
    if all.count != 1 {
        return Err(Refused::at(Refusal::NotUnique, r));
    }
    fetch(sheet, r, s, base, env, &mut all.cursor, all.at);
    Ok(())
}

// 13: let-be. A choice among the satisfying bindings, and the body under the one chosen.
#[cycle(evaluation)]
fn let_be(
    sheet: &Sheet,
    r: usize,
    s: &mut [u8],
    base: usize,
    env: &[u32; Env::NAMES],
    run: &mut Run,
) -> Result<(), Refused>
    requires { Ask sheet.now r s.old base (env_of env.now) (lent run.old) × (kind_at (records sheet.now) r ≡ 13) }
    ensures { Evaluates sheet.now r s.old s.new base (env_of env.now) (lent run.old) (ended result (lent run.new)) }
{
    let mut all = survey(sheet, r, s, base, env, run, kinds::LET_BE)?;
    let n = all.count;
    if n == 0 {
        return Err(Refused::at(Refusal::NoBinding, r));
    }
    chosen(choose(run, n), r, n)?;
    let at = all.at;
    inside(
        sheet,
        r,
        s,
        base,
        env,
        run,
        false,
        &mut all.cursor,
        at,
        3,
        INSIDE,
    )?;
    values::copy_value(s, base + INSIDE, base);
    Ok(())
}

// 12: let. The body under the binding of its pattern; where the pattern is loose, a choice among its bindings.
#[cycle(evaluation)]
fn let_in(
    sheet: &Sheet,
    r: usize,
    s: &mut [u8],
    base: usize,
    env: &[u32; Env::NAMES],
    run: &mut Run,
) -> Result<(), Refused>
    requires { Ask sheet.now r s.old base (env_of env.now) (lent run.old) × (kind_at (records sheet.now) r ≡ 12) }
    ensures { Evaluates sheet.now r s.old s.new base (env_of env.now) (lent run.old) (ended result (lent run.new)) }
{
    let mut cursor = begin(sheet, r, s, base, env, run, kinds::LET)?;
    let n = cursor.count;
    if n == 0 {
        return Err(Refused::at(Refusal::NoMatch, r));
    }
    let p = sheet.operand_from(r, PLAIN, 0);
    let loose = is_loose_pattern(sheet, p);
    let i = chosen(decide(run, n, loose), r, n)?;
    inside(sheet, r, s, base, env, run, true, &mut cursor, i, 2, INSIDE)?;
    values::copy_value(s, base + INSIDE, base);
    Ok(())
}

// ---- by the kind of a record

// 12 to 20: what binds names. A record of another kind that is left is no expression, and is refused with 20.
#[cycle(evaluation)]
fn binder(
    sheet: &Sheet,
    r: usize,
    s: &mut [u8],
    base: usize,
    env: &[u32; Env::NAMES],
    run: &mut Run,
    k: usize,
) -> Result<(), Refused>
    requires { Ask sheet.now r s.old base (env_of env.now) (lent run.old) × (kind_at (records sheet.now) r ≡ k) × Remaining k }
    ensures { Evaluates sheet.now r s.old s.new base (env_of env.now) (lent run.old) (ended result (lent run.new)) }
{
    if is_quantifier(k) {
        return quantify(sheet, r, s, base, env, run, k, k == kinds::EXISTS);
    }
    match k {
        kinds::LET => let_in(sheet, r, s, base, env, run),
        kinds::LET_BE => let_be(sheet, r, s, base, env, run),
        kinds::EXISTS1 => single(sheet, r, s, base, env, run, k),
        kinds::IOTA => single(sheet, r, s, base, env, run, k),
        kinds::SET_COMPREHENSION | kinds::SEQUENCE_COMPREHENSION | kinds::MAP_COMPREHENSION => {
            collect(sheet, r, s, base, env, run, k)
        }
        _ => Err(Refused::at(Refusal::WrongKind, r)),
    }
}

// The record r evaluated. Kinds that are evaluated alike share an arm; the kinds that bind names are apart.
#[cycle(evaluation)]
pub fn eval(
    sheet: &Sheet,
    r: usize,
    s: &mut [u8],
    base: usize,
    env: &[u32; Env::NAMES],
    run: &mut Run,
) -> Result<(), Refused>
    requires { Ask sheet.now r s.old base (env_of env.now) (lent run.old) }
    ensures { Evaluates sheet.now r s.old s.new base (env_of env.now) (lent run.old) (ended result (lent run.new)) }
{
    let k = sheet.kind(r);
    match k {
        kinds::BOOLEAN => truth(sheet, r, s, base, env, run),
        kinds::INTEGER => whole(sheet, r, s, base, env, run),
        kinds::NAME => name(sheet, r, s, base, env, run),
        kinds::UNARY => unary(sheet, r, s, base, env, run),
        kinds::BINARY | kinds::RANGE | kinds::APPLY => {
            let op = sheet.field(r, 0);
            if is_connective(k, op) {
                return logic(sheet, r, s, base, env, run, op);
            }
            binary(sheet, r, s, base, env, run, k, op)
        }
        kinds::IF => branch(sheet, r, s, base, env, run),
        kinds::SET | kinds::SEQUENCE | kinds::TUPLE => items(sheet, r, s, base, env, run, k),
        kinds::MAP => entries(sheet, r, s, base, env, run),
        kinds::QUOTE => quote(sheet, r, s, base, env, run),
        _ => binder(sheet, r, s, base, env, run, k),
    }
}

// The run of an accepted, indexed table under the lent choices, over the scratch of a service. Its value is left at the start of scratch.
pub fn run_sheet(sheet: &Sheet, count: usize, s: &mut [u8], run: &mut Run) -> Result<(), Refused>
    requires { Runnable sheet.now count s.old (lent run.old) }
    ensures { Runs sheet.now s.new (lent run.old) (ended result (lent run.new)) }
{
    let env = [0; Env::NAMES];
    eval(sheet, count - 1, s, 0, &env, run)
}
