// A sheet: a table with an index of its records. Each record is read from its own part of the table.
ghost use Rattle.std.specs.Prelude.{◌≡◌, List, ℕ, ◌+◌, ◌<◌, ◌≤◌, length, get_or};
ghost use Rattle.tables.specs.Record.{last_kind, named, operand as operand_in, role_at, field as field_in, integer_of, quote_of};
ghost use Rattle.tables.specs.Table.{record_at, kind_at};
ghost use Rattle.tables.specs.Check.{most_records};
ghost use Rattle.tables.specs.Shapes.{first_of};
ghost use Rattle.tables.specs.Accepted.{records};
ghost use Rattle.tables.specs.Reading.{place_in, Indexed, Here, HasField, HasOperand};

use crate::reading::{KINDS, PLACES};
use crate::shape::{first_operand, role_of};
use crate::{HEADING, Index, Role};
use integers::bytes::{read16, read32};
use std::marker::Model;

// Where operands begin: after the heading, or after an operator.
pub const PLAIN: usize = HEADING;

pub const AFTER_OPERATOR: usize = HEADING + 1;

// Contracts see a sheet as the bytes of its table.
#[derive(Drop)]
pub struct Sheet<'a> {
    table: &'a [u8],
    index: &'a Index,
}

impl<'a> Model for Sheet<'a> {
    ghost Value = { List ℕ };

    ghost view = { λ s. s.table.now };

    ghost invariant = { λ s. Indexed s.table.now s.index.now };
}

// Byte i of the record at the start of the part.
fn byte_of(part: &[u8], i: usize) -> usize
    requires { i < length part.now }
    ensures { (result ≡ get_or part.now i 0) × (result < 256) }
{
    usize::from(part[i])
}

// The entry of record r.
fn entry_at(index: &Index, r: usize) -> usize
    requires { r < most_records }
    ensures { result ≡ get_or index.now r 0 }
{
    index[r] as usize
}

// Where record r begins.
fn place(index: &Index, r: usize) -> usize
    requires { r < most_records }
    ensures { result ≡ place_in (get_or index.now r 0) }
{
    entry_at(index, r) % PLACES
}

impl<'a> Sheet<'a> {
    // A table with an index of its records.
    pub fn new(table: &'a [u8], index: &'a Index) -> Sheet<'a>
        requires { Indexed table.now index.now }
        ensures { result ≡ table.now }
    {
        Sheet { table, index }
    }

    // The kind of record r.
    pub fn kind(&self, r: usize) -> usize
        requires { Here self.now r }
        ensures { (result ≡ kind_at (records self.now) r) × (result ≤ last_kind) }
    {
        entry_at(self.index, r) / PLACES % KINDS
    }

    // Field i of record r.
    pub fn field(&self, r: usize, i: usize) -> usize
        requires { HasField self.now r i }
        ensures { (result ≡ field_in (record_at (records self.now) r) i) × (result < 256) }
    {
        let at = place(self.index, r);
        byte_of(&self.table[at..], HEADING + i)
    }

    // The number of operands of record r, whose operands begin at byte `first`.
    pub fn operands_from(&self, r: usize, first: usize) -> usize
        requires { Here self.now r × (first ≡ first_of (kind_at (records self.now) r)) }
        ensures { (result ≡ length (named (record_at (records self.now) r))) × (result ≤ 8) }
    {
        let at = place(self.index, r);
        let len = byte_of(&self.table[at..], 0);
        len - first
    }

    // The number of operands of record r.
    pub fn operand_count(&self, r: usize) -> usize
        requires { Here self.now r }
        ensures { (result ≡ length (named (record_at (records self.now) r))) × (result ≤ 8) }
    {
        let first = first_operand(self.kind(r));
        self.operands_from(r, first)
    }

    // The number in operand i of record r, whose operands begin at byte `first`: whoever knows its kind need not read it again.
    pub fn operand_from(&self, r: usize, first: usize, i: usize) -> usize
        requires { HasOperand self.now r i × (first ≡ first_of (kind_at (records self.now) r)) }
        ensures { (result ≡ operand_in (record_at (records self.now) r) i) × (result < 256) }
    {
        let at = place(self.index, r);
        byte_of(&self.table[at..], first + i)
    }

    // The operand at byte 5 of record r, which the index has: `first` and `i` only tell which one it is.
    pub fn noted_operand(&self, r: usize, first: usize, i: usize) -> usize
        requires { HasOperand self.now r i × (first ≡ first_of (kind_at (records self.now) r)) × (first + i ≡ 5) }
        ensures { (result ≡ operand_in (record_at (records self.now) r) i) × (result < 256) }
    {
        entry_at(self.index, r) / PLACES / KINDS % KINDS
    }

    // The number in operand i of record r.
    pub fn operand(&self, r: usize, i: usize) -> usize
        requires { HasOperand self.now r i }
        ensures { (result ≡ operand_in (record_at (records self.now) r) i) × (result < 256) }
    {
        let first = first_operand(self.kind(r));
        self.operand_from(r, first, i)
    }

    // What operand i of record r is for.
    pub fn role(&self, r: usize, i: usize) -> Role
        requires { HasOperand self.now r i }
        ensures { result ≡ role_at (record_at (records self.now) r) i }
    {
        role_of(self.kind(r), i)
    }

    // The integer of record r, of kind 2 or 35.
    pub fn integer(&self, r: usize) -> i32
        requires { HasField self.now r 3 }
        ensures { result ≡ integer_of (record_at (records self.now) r) }
    {
        let at = place(self.index, r);
        read32(&self.table[at..], HEADING)
    }

    // The number of the quote of record r, of kind 22 or 43.
    pub fn quote(&self, r: usize) -> usize
        requires { HasField self.now r 1 }
        ensures { (result ≡ quote_of (record_at (records self.now) r)) × (result < 65536) }
    {
        let at = place(self.index, r);
        read16(&self.table[at..], HEADING)
    }
}
