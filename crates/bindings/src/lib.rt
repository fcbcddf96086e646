// The bindings of a binder. All are formed in one pass; some of them stand in a window of scratch, which is filled again where another is asked for.
#![tactic(auto)]

mod filling;
mod forms;

ghost use Rattle.std.specs.Prelude.{◌≡◌, ◌+◌, ◌<◌, ◌≤◌, length};
ghost use Rattle.integers.specs.Bytes.{bits32};
ghost use Rattle.patterns.specs.Read.{Readable};
ghost use Rattle.bindings.specs.Window.{Bindable, Lent, OpenedAs, Reachable, Reached, Underneath, UnderBinding};
ghost use Rattle.bindings.specs.Opening.{PlainHeld, PlainOpened, AnyOpened, CursorHeld, CursorOver, LentFrom, FormedFrom};

use forming::{RowOrder, Rows};
use integers::bytes::read16;
use parts::words::Env;
use prelude::Refusal;
use tables::kinds;
use tables::sheet::Sheet;
use values::Value;

// How many bindings there are; the names that they give values, as a mask, and how many these are; and the first binding in the window.
#[derive(Clone, Copy)]
pub struct Cursor {
    pub count: usize,
    pub names: usize,
    pub width: usize,
    pub from: usize,
}

impl Cursor {
    // The bytes of a window.
    pub const WINDOW: usize = 512;

    // No bindings.
    const NONE: Cursor = Cursor {
        count: 0,
        names: 0,
        width: 0,
        from: 0,
    };
}

// The word at a place.
fn read_word(s: &[u8], at: usize) -> u32
    requires { at + 4 ≤ length s.now }
    ensures { result ≡ bits32 s.now at }
{
    let low = read16(s, at);
    let high = read16(s, at + 2);
    (low + 65536 * high) as u32
}

// A plain name, bound to the value at a place or to each member of the set there: their words as they stand, with no pass.
fn open_plain(s: &mut [u8], at: usize, whole: bool, to: usize, x: usize) -> Cursor
    requires { PlainHeld s.old at whole to x }
    ensures { PlainOpened s.old s.new at whole to x result }
{
    let n = values::length_of(s, at);
    let names = filling::one_name(x);
    let from = forms::first_at(at, whole);
    let count = filling::put_members(s, to, from, at + n);
    Cursor {
        count,
        names,
        width: 1,
        from: 0,
    }
}

// `-`, over the value at a place or the members of the set there: one binding without names, or none where there is no member. Nothing is formed.
fn open_any(s: &[u8], at: usize, whole: bool) -> Cursor
    requires { Bindable s.now at whole × (length s.now ≤ 65536) }
    ensures { AnyOpened s.now at whole result }
{
    let n = values::length_of(s, at);
    let from = forms::first_at(at, whole);
    Cursor {
        count: usize::from(from < at + n),
        ..Cursor::NONE
    }
}

// The cursor over n rows, at binding k.
fn cursor_over(rows: &Rows, order: &RowOrder, n: usize, k: usize) -> Cursor
    requires { CursorHeld rows.now order.now n k }
    ensures { CursorOver rows.now order.now n k result }
{
    if n == 0 {
        return Cursor::NONE;
    }
    let r = order[0] as usize;
    let names = filling::names_of(rows, r);
    Cursor {
        count: n,
        names: names.mask,
        width: names.width,
        from: k,
    }
}

// The bindings of a pattern over the members of the set at a place, or over the one value there, with the first of them in the window from `to`
// on; or too large to split, or too many.
pub fn open(
    sheet: &Sheet,
    p: usize,
    s: &mut [u8],
    at: usize,
    whole: bool,
    to: usize,
) -> Result<Cursor, Refusal>
    requires readable { Readable sheet.now p }
    requires lent { Lent s.old at whole to }
    ensures { OpenedAs sheet.now p s.old s.new at whole to result }
{
    let kind = sheet.kind(p);
    if kind == kinds::NAME_PATTERN {
        let x = sheet.field(p, 0);
        return Ok(open_plain(s, at, whole, to, x));
    }
    if kind == kinds::ANY_PATTERN {
        return Ok(open_any(s, at, whole));
    }
    form_from(sheet, p, s, at, whole, to, 0)
}

// The bindings of any pattern, all formed in one pass, with those from binding k on in the window.
fn form_from(
    sheet: &Sheet,
    p: usize,
    s: &mut [u8],
    at: usize,
    whole: bool,
    to: usize,
    k: usize,
) -> Result<Cursor, Refusal>
    requires readable { Readable sheet.now p }
    requires lent_from { LentFrom sheet.now p s.old at whole to k }
    ensures { FormedFrom sheet.now p s.old s.new at whole to k result }
{
    let mut rows = [0u32; forming::ROWS_WORDS];
    let mut order = [0u8; Value::BINDINGS];
    let n = forms::form_rows(sheet, p, &s[0..to], at, whole, &mut rows, &mut order)?;
    let c = cursor_over(&rows, &order, n, k);
    filling::fill(s, to, &rows, &order, c);
    Ok(c)
}

// Binding k in the window: the window is filled again from it on, unless it is there.
pub fn reach(
    sheet: &Sheet,
    p: usize,
    s: &mut [u8],
    at: usize,
    whole: bool,
    to: usize,
    cursor: Cursor,
    k: usize,
) -> Cursor
    requires readable { Readable sheet.now p }
    requires reachable { Reachable sheet.now p s.old at whole to cursor k }
    ensures { Reached sheet.now p s.old s.new at whole to cursor k result }
{
    if cursor.from <= k && 4 * (cursor.width * (k - cursor.from) + cursor.width) <= Cursor::WINDOW {
        return cursor;
    }
    form_from(sheet, p, s, at, whole, to, k).unwrap_or(cursor)
}

// What each name stands for under binding k, which is in the window.
pub fn under(s: &[u8], to: usize, cursor: Cursor, k: usize, words: &mut [u32; Env::NAMES])
    requires { Underneath s.now to cursor k (record { words = words.now }) }
    ensures { UnderBinding s.now to cursor k (record { words = words.old }) (record { words = words.new }) }
{
    // Counted by hand: it ends with the highest bit, mostly long before the last name.
    let mut at = to + 4 * (cursor.width * (k - cursor.from));
    let mut left = cursor.names;
    let mut x = 0;
    while 0 < left {
        if left % 2 == 1 {
            words[x] = read_word(s, at);
            at += 4;
        }
        left /= 2;
        x += 1;
    }
}
