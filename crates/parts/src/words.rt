// Parts as words of 32 bits, and what each name stands for.
ghost use Rattle.std.specs.Prelude.{◌≡◌, ℕ, ◌%◌, ◌≤◌, ◌<◌, length};
ghost use Rattle.parts.specs.Word.{how_of, unpacked, CellHeld, WordOf, WordHeld, OrderedWords};

use crate::{How, Part};
use std::cmp::Ordering;

// What each name stands for, as words; 0 where it has no value.
#[derive(Clone, Copy)]
pub struct Env {
    pub words: [u32; Env::NAMES],
}

impl Env {
    // The names are 0 to 15.
    pub const NAMES: usize = 16;
}

// A place takes 17 bits of a word.
const PLACES: u32 = 131072;

// A part as a word, 0 where it is none.
pub fn word_of(s: &[u8], p: Part) -> u32
    requires { (length s.now ≤ 65536) × CellHeld s.now p }
    ensures { WordOf s.now p result }
{
    match p.how {
        How::Nothing => 0,
        How::Whole => 1 + 4 * p.at,
        _ => p.how.code() + 4 * (p.at + PLACES * p.extent as u32),
    }
}

// How the part of a word denotes a value, by its lowest two bits.
fn how_of(code: u32) -> How
    requires { code < 4 }
    ensures { result ≡ how_of code }
{
    match code {
        0 => How::Nothing,
        1 => How::Whole,
        2 => How::Units,
        _ => How::Span,
    }
}

// The part that a word stands for.
pub fn unpack(word: u32) -> Part
    ensures { result ≡ unpacked word }
{
    let q = word / 4;
    Part {
        at: q % PLACES,
        extent: (q / PLACES) as u16,
        how: how_of(word % 4),
    }
}

// The order of what two words say of a name, where the values lie.
pub fn order_words(s: &[u8], a: u32, b: u32) -> Ordering
    requires { WordHeld s.now a × WordHeld s.now b }
    ensures { OrderedWords s.now a b result }
{
    if a == b {
        return Ordering::Equal;
    }
    if a == 0 {
        return Ordering::Less;
    }
    if b == 0 {
        return Ordering::Greater;
    }
    let p = unpack(a);
    let q = unpack(b);
    crate::order_parts(s, p, q)
}

// The order of what two words say of a name that both choose units of sets or maps.
pub fn order_chosen(s: &[u8], a: u32, b: u32) -> Ordering
    requires { WordHeld s.now a × WordHeld s.now b × (a % 4 ≡ 2) × (b % 4 ≡ 2) }
    ensures { OrderedWords s.now a b result }
{
    let p = unpack(a);
    let q = unpack(b);
    crate::order_units(s, p, q)
}
