// A window of bindings in scratch: rows of words written one after the other, as many as fit.
ghost use Rattle.std.specs.Prelude.{◌≡◌, ◌+◌, ◌≤◌, ◌<◌, length};
ghost use Rattle.std.proofs.lemmas.List.Edits.{sets};
ghost use Rattle.integers.specs.Bytes.{four};
ghost use Rattle.patterns.specs.Binding.{names};
ghost use Rattle.bindings.specs.Filling.{row_words, RowHeld, NamesAre, RowPuttable, RowPut, FillHeld, Filled, OneName, MembersHeld, MembersPut};

use crate::Cursor;
use forming::{RowOrder, Rows};
use integers::bytes::put16;
use parts::words::Env;

// The names that a row has words for, as a mask, and how many they are.
#[derive(Clone, Copy)]
pub struct Names {
    pub mask: usize,
    pub width: usize,
}

// Writes a word.
fn put_word(s: &mut [u8], at: usize, word: u32)
    requires { at + 4 ≤ length s.old }
    ensures { s.new ≡ sets s.old at (four word) }
{
    let n = word as usize;
    put16(s, at, n % 65536);
    put16(s, at + 2, n / 65536);
}

// The names of row r.
pub fn names_of(rows: &Rows, r: usize) -> Names
    requires { RowHeld rows.now r }
    ensures { NamesAre (row_words rows.now r) result }
{
    let mut mask = 0;
    let mut width = 0;
    for x in (0..Env::NAMES).rev() {
        mask *= 2;
        if rows[Env::NAMES * r + x] != 0 {
            mask += 1;
            width += 1;
        }
    }
    Names { mask, width }
}

// Writes the words of row r, which has words for the names of a mask.
fn put_row(s: &mut [u8], out: usize, rows: &Rows, r: usize, mask: usize)
    requires { RowPuttable s.old out rows.now r mask }
    ensures { RowPut s.old s.new out rows.now r mask }
{
    // Counted by hand: it ends with the highest bit, mostly long before the last name.
    let mut left = mask;
    let mut at = out;
    let mut x = 0;
    while 0 < left {
        if left % 2 == 1 {
            let w = rows[Env::NAMES * r + x];
            put_word(s, at, w);
            at += 4;
        }
        left /= 2;
        x += 1;
    }
}

// Writes the rows from a cursor's first binding on, as many as fit.
pub fn fill(s: &mut [u8], to: usize, rows: &Rows, order: &RowOrder, c: Cursor)
    requires { FillHeld s.old to rows.now order.now c }
    ensures { Filled s.old s.new to rows.now order.now c }
{
    let step = 4 * c.width;
    let end = to + Cursor::WINDOW;
    let mut out = to;
    for j in c.from..c.count {
        if end < out + step {
            return;
        }
        let r = order[j] as usize;
        put_row(s, out, rows, r, c.names);
        out += step;
    }
}

// The mask of the name x alone.
pub fn one_name(x: usize) -> usize
    requires { x < names }
    ensures { OneName x result }
{
    1 << x
}

// Writes a word for each item from a place up to another, and gives how many there are.
pub fn put_members(s: &mut [u8], to: usize, from: usize, end: usize) -> usize
    requires { MembersHeld s.old to from end }
    ensures { MembersPut s.old s.new to from end result }
{
    let mut at = from;
    let mut n = 0;
    while at < end {
        let k = values::length_of(s, at);
        put_word(s, to + 4 * n, (1 + 4 * at) as u32);
        at += k;
        n += 1;
    }
    n
}
