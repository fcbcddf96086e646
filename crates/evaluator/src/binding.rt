// What the binders need that evaluates nothing: does their value suit them, what a number of tests comes to, and the value that a binding gives a name.
ghost use Rattle.std.specs.Prelude.{◌≡◌, true};
ghost use Rattle.values.specs.Place.{Holds};
ghost use Rattle.evaluator.specs.Binding.{Quantifies, Suits, Nameless, AsksNames, BindsNames, Fetchable, Fetches};
ghost use Rattle.evaluator.specs.Contract.{env_of};

use bindings::{Cursor, reach, under};
use parts::words::{Env, unpack};
use tables::kinds;
use tables::sheet::{PLAIN, Sheet};
use values::Value;

// From the base of a binder: the window of its bindings, what is built, and where an operand is evaluated under a binding.
pub const WINDOW: usize = 512;

pub const BUILT: usize = 1024;

pub const INSIDE: usize = 1536;

// The environment under binding j of the binder r, which is brought into the window. It is changed where it stands, word by word.
pub fn bind_names(
    sheet: &Sheet,
    r: usize,
    s: &mut [u8],
    base: usize,
    env: &[u32; Env::NAMES],
    whole: bool,
    cursor: &mut Cursor,
    j: usize,
    inner: &mut [u32; Env::NAMES],
)
    requires { AsksNames sheet.now r whole s.old base (env_of env.now) cursor.old j }
    ensures { BindsNames sheet.now r whole s.old s.new base (env_of env.now) cursor.old j cursor.new (env_of inner.new) }
{
    if is_nameless(cursor) {
        *inner = *env;
        return;
    }
    let p = sheet.operand_from(r, PLAIN, 0);
    let near = reach(sheet, p, s, base, whole, base + WINDOW, *cursor, j);
    *cursor = near;
    *inner = *env;
    under(s, base + WINDOW, near, j, inner);
}

// Whether the binding gives no name a value and stands in the window: the environment under it is the one around it.
pub fn is_nameless(cursor: &Cursor) -> bool
    ensures { result ≡ true → Nameless cursor.now }
{
    cursor.names == 0 && cursor.width == 0 && cursor.from == 0
}

// Whether the kind is forall or exists: 14 and 15 differ in the last bit alone, so one test tells.
pub fn is_quantifier(k: usize) -> bool
    ensures { Quantifies k result }
{
    k / 2 == kinds::FORALL / 2
}

// Whether the value at a place suits a binder of kind k: a let takes any, the others a set, a sequence comprehension one of integers.
pub fn suits(s: &[u8], at: usize, k: usize) -> bool
    requires { Holds s.now at }
    ensures { Suits k s.now at result }
{
    if k == kinds::LET {
        return true;
    }
    if values::kind_of(s, at) != Value::SET {
        return false;
    }
    if k != kinds::SEQUENCE_COMPREHENSION {
        return true;
    }
    let n = values::length_of(s, at);
    gathering::all_of_kind(s, at + Value::HEAD, at + n, Value::INTEGER)
}

// 17: the value that binding j gives the name of the pattern, brought down to base.
pub fn fetch(
    sheet: &Sheet,
    r: usize,
    s: &mut [u8],
    base: usize,
    env: &[u32; Env::NAMES],
    cursor: &mut Cursor,
    j: usize,
)
    requires { Fetchable sheet.now r s.old base (env_of env.now) cursor.old j }
    ensures { Fetches sheet.now r s.old s.new base cursor.old j }
{
    let mut inner = [0; Env::NAMES];
    bind_names(sheet, r, s, base, env, false, cursor, j, &mut inner);
    let p = sheet.operand_from(r, PLAIN, 0);
    let x = sheet.field(p, 0);
    let word = inner[x];
    let part = unpack(word);
    parts::put_part(s, part, base + INSIDE);
    values::copy_value(s, base + INSIDE, base);
}
