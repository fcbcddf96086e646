// Bindings as rows of words, only appended to, and their order: a permutation of the rows.
ghost use Rattle.std.specs.Prelude.{◌≡◌, true, ℕ, ◌≤◌, ◌<◌, length};
ghost use Rattle.parts.specs.Word.{WordHeld, OrderedWords};
ghost use Rattle.patterns.specs.Binding.{Binding, order_bindings};
ghost use Rattle.patterns.specs.Binder.{most_bindings};
ghost use Rattle.matching.specs.Leaf.{Stands, Standing};
ghost use Rattle.forming.specs.Rows.{rows_words, RowIs, RowHeld, Agrees, SomeAgrees, RowPut, RowsHeld, Sought, Shifted, EntryHeld, Entry};

use crate::{RowOrder, Rows};
use parts::words::Env;
use parts::{How, words};
use prelude::Refusal;
use std::cmp::Ordering;
use values::Value;

// The order of what a binding and a row say of a name. Most of them choose members or entries, as the words tell.
fn order_names(s: &[u8], a: u32, b: u32) -> Ordering
    requires { WordHeld s.now a × WordHeld s.now b }
    ensures { OrderedWords s.now a b result }
{
    let units = How::Units as u32;
    if a % 4 == units && b % 4 == units {
        return words::order_chosen(s, a, b);
    }
    words::order_words(s, a, b)
}

// The order of a binding and a row.
fn order_row(s: &[u8], found: &[u32; Env::NAMES], rows: &Rows, r: usize) -> Ordering
    requires { Standing s.now found.now × RowHeld s.now rows.now r }
    ensures { (b c : Binding) → Stands s.now found.now b → RowIs s.now rows.now r c → result ≡ order_bindings b c }
{
    for x in 0..Env::NAMES {
        let a = found[x];
        let b = rows[Env::NAMES * r + x];
        if a != b {
            let o = order_names(s, a, b);
            let Ordering::Equal = o else {
                return o;
            };
        }
    }
    Ordering::Equal
}

// Where a binding stands among n rows, or belongs.
// By hand: `binary_search_by` asks that any number may be compared, and only those of rows below n may; and it goes on past a row that is equal.
fn find_place(
    s: &[u8],
    found: &[u32; Env::NAMES],
    rows: &Rows,
    order: &RowOrder,
    n: usize,
) -> Result<usize, usize>
    requires { Standing s.now found.now × RowsHeld s.now rows.now order.now n }
    ensures { Sought s.now found.now rows.now order.now n result }
{
    let mut low = 0;
    let mut high = n;
    while low < high {
        let middle = low + (high - low) / 2;
        let r = order[middle] as usize;
        match order_row(s, found, rows, r) {
            Ordering::Less => high = middle,
            Ordering::Greater => low = middle + 1,
            Ordering::Equal => return Ok(middle),
        }
    }
    Err(low)
}

// A row has the word of each name found.
fn agrees(found: &[u32; Env::NAMES], rows: &Rows, r: usize) -> bool
    requires { r < most_bindings }
    ensures { result ≡ true → Agrees found.now rows.now r }
{
    for x in 0..Env::NAMES {
        let a = found[x];
        if a != 0 && a != rows[Env::NAMES * r + x] {
            return false;
        }
    }
    true
}

// Some row between two has the word of each name found.
pub fn some_agrees(found: &[u32; Env::NAMES], rows: &Rows, from: usize, to: usize) -> bool
    requires { to ≤ most_bindings }
    ensures { result ≡ true → SomeAgrees found.now rows.now from to }
{
    for r in from..to {
        if agrees(found, rows, r) {
            return true;
        }
    }
    false
}

// Writes a binding as row r.
fn put_row(s: &[u8], found: &[u32; Env::NAMES], rows: &mut Rows, r: usize)
    requires { Standing s.now found.now × (r < most_bindings) × (length rows.old ≡ rows_words) }
    ensures { RowPut s.now found.now rows.old rows.new r }
{
    rows[Env::NAMES * r..Env::NAMES * (r + 1)].copy_from_slice(found);
}

// Puts n in at a place among n numbers, those from there on one further.
fn shift_in(order: &mut RowOrder, at: usize, n: usize)
    requires { (at ≤ n) × (n < most_bindings) × (length order.old ≡ most_bindings) }
    ensures { Shifted order.old order.new at n }
{
    order.copy_within(at..n, at + 1);
    order[at] = n as u8;
}

// Inserts a binding in order, unless it is there.
pub fn insert_row(
    s: &[u8],
    found: &[u32; Env::NAMES],
    rows: &mut Rows,
    order: &mut RowOrder,
    n: usize,
) -> Result<usize, Refusal>
    requires { EntryHeld s.now found.now rows.old order.old n }
    ensures { Entry s.now found.now rows.old order.old n rows.new order.new result }
{
    let Err(at) = find_place(s, found, rows, order, n) else {
        return Ok(n);
    };
    if Value::BINDINGS <= n {
        return Err(Refusal::TooManyBindings);
    }
    put_row(s, found, rows, n);
    shift_in(order, at, n);
    Ok(n + 1)
}
