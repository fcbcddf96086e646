// Tables of records: what a record's operands are for, and what the check of a table answers.
#![tactic(auto)]

pub mod binary;
pub mod kinds;
pub mod reading;
pub mod shape;
pub mod sheet;
pub mod unary;

ghost use Rattle.std.specs.Prelude.{◌≡◌};
ghost use Rattle.tables.specs.Faults.{number_of};

// The greatest number of bytes of a table, and of records in it; the greatest height.
pub const MOST_BYTES: usize = 2400;

pub const MOST_RECORDS: usize = 200;

pub const MOST_HEIGHT: usize = 32;

// The bytes of a record's length and kind, after which its fields stand.
pub const HEADING: usize = 4;

// Names are 0 to 15.
pub const NAMES: usize = 16;

// An entry for each record of a table: where the record begins in the lowest 16 bits, then its kind and its second field in a byte each. The second
// field is what a unary operator and a binder evaluate first.
pub type Index = [u32; MOST_RECORDS];

// What an operand is for.
#[derive(Clone, Copy, Debug, PartialEq, Eq)]
pub enum Role {
    // An expression outside the binder's names: any operand of a record that binds nothing, a set operand, a let's value.
    Plain,
    // The condition of a binder.
    Condition,
    // A body, element, key or value of a binder.
    Body,
    // A pattern.
    Pattern,
    // A pattern that is a name (kind 32).
    Name,
}

// What a call or its table must not be, in the order in which it is tested. Each rule is told by its number.
#[derive(Clone, Copy, Debug, PartialEq, Eq)]
pub enum Rule {
    ScratchTooShort = 1,
    ResultTooShort = 2,
    // The table is empty or too large.
    WrongSize = 3,
    // A record is cut off, or does not fit its kind.
    UnfitRecord = 4,
    TooManyRecords = 5,
    // An operand is not lower, of the wrong sort or named before; or a record is never named; or the last is a pattern.
    WrongNaming = 6,
    // A name is not bound around it; or a pattern's is bound around its binder.
    WrongBinding = 7,
    ChoiceInCondition = 8,
    TooHigh = 9,
    // The list is too long, or too few entries are lent.
    WrongListSize = 10,
}

impl Rule {
    // The number of a rule.
    pub fn number(self) -> usize
        ensures { result ≡ number_of self }
    {
        self as usize
    }
}

// A rule that is broken, and the record at fault.
#[derive(Clone, Copy, Debug, PartialEq, Eq)]
pub struct Fault {
    pub rule: Rule,
    pub place: usize,
}
