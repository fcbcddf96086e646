// The shape of each kind of record, as its row in the definition tells it: lengths by a constant table, first operands by bits, the rest by the kinds' names.
ghost use Rattle.std.specs.Prelude.{◌≡◌, ◌-◌, ◌<◌, ◌≤◌, ◌&&◌, ◌||◌, leb, length, get_or};
ghost use Rattle.integers.specs.Bytes.{word};
ghost use Rattle.tables.specs.Record.{shape, last_kind, is_expression, is_pattern, is_leaf, is_composed, fits, is_fit};
ghost use Rattle.tables.specs.Table.{first_record};
ghost use Rattle.tables.specs.Sheet.{is_binder};
ghost use Rattle.tables.specs.Shapes.{length_rows, first_of, roles_of, first_role, third_role, binder_role, is_tested, known_first};

use crate::{HEADING, NAMES, Role, binary, kinds, unary};

// No record is longer.
const LONGEST: usize = HEADING + 8;

// The lengths of records, a row for each kind: bit n is set where records of the kind have n bytes after their heading.
pub type Lengths = [u16; kinds::LAST + 1];

const NO_FIELD: u16 = 1;

const ONE: u16 = 2;

const TWO: u16 = 4;

const THREE: u16 = 8;

const FOUR: u16 = 16;

const FIVE: u16 = 32;

const TWO_TO_FOUR: u16 = 0x1c;

const UP_TO_FOUR: u16 = 0x1f;

const UP_TO_EIGHT: u16 = 0x1ff;

const PAIRS: u16 = 0x155;

// The kinds from 0 on. No record has kind 0 or 23 to 31. Whoever tests many records lends this table.
pub const LENGTHS: Lengths = [
    NO_FIELD,
    // 1 boolean, 2 integer, 3 name
    ONE,
    FOUR,
    ONE,
    // 4 unary, 5 binary, 6 if
    TWO,
    THREE,
    THREE,
    // 7 set, 8 sequence, 9 map enumeration, 10 tuple, 11 set range
    UP_TO_EIGHT,
    UP_TO_EIGHT,
    PAIRS,
    TWO_TO_FOUR,
    TWO,
    // 12 let, 13 let-be, 14 forall, 15 exists, 16 exists1, 17 iota
    THREE,
    FOUR,
    THREE,
    THREE,
    THREE,
    THREE,
    // 18 set, 19 sequence, 20 map comprehension, 21 apply
    FOUR,
    FOUR,
    FIVE,
    TWO,
    // 22 quote
    TWO,
    // 23 to 31
    NO_FIELD,
    NO_FIELD,
    NO_FIELD,
    NO_FIELD,
    NO_FIELD,
    NO_FIELD,
    NO_FIELD,
    NO_FIELD,
    NO_FIELD,
    // 32 name, 33 any, 34 boolean, 35 integer
    ONE,
    NO_FIELD,
    ONE,
    FOUR,
    // 36 tuple, 37 set enumeration, 38 union, 39 sequence enumeration, 40 concatenation
    TWO_TO_FOUR,
    UP_TO_FOUR,
    TWO,
    UP_TO_FOUR,
    TWO,
    // 41 map enumeration, 42 munion, 43 quote
    PAIRS,
    TWO,
    TWO,
];

// Bit k is set for each kind k whose records have one byte before their operands (1, 3, 4, 5, 32, 34), an integer (2, 35), or a quote (22, 43).
const BYTE_FIRST: u64 = 0x5_0000_003a;

const INTEGER_FIRST: u64 = 0x8_0000_0004;

const QUOTE_FIRST: u64 = 0x800_0040_0000;

// Bit k is set for each kind k whose records may have operands: 4 to 21, 36 to 42.
const INNER: u64 = 0x7f0_003f_fff0;

// Bit k is set for each kind k of patterns that have parts: 36 to 42.
const COMPOSED: u64 = 0x7f0_0000_0000;

// Bit k is set for each kind k of patterns that make a let loose: 37, 38, 40 to 42.
const LOOSE: u64 = 0x760_0000_0000;

// Bit k is set for each kind k that there is: 1 to 22, 32 to 43.
const KNOWN: u64 = 0xfff_007f_fffe;

// Whether a number is from one to another.
pub fn is_between(low: usize, n: usize, high: usize) -> bool
    ensures { result ≡ (leb low n && leb n high) }
{
    low <= n && n <= high
}

// ---- sorts

pub fn is_expression(kind: usize) -> bool
    ensures { result ≡ is_expression kind }
{
    is_between(kinds::BOOLEAN, kind, kinds::LAST_EXPRESSION)
}

pub fn is_pattern(kind: usize) -> bool
    ensures { result ≡ is_pattern kind }
{
    is_between(kinds::FIRST_PATTERN, kind, kinds::LAST)
}

// Records of the kind have no operands: literals, names and patterns without parts.
pub fn is_leaf(kind: usize) -> bool
    requires { kind ≤ last_kind }
    ensures { result ≡ is_leaf kind }
{
    (INNER >> kind) % 2 == 0
}

// A pattern of the kind has parts.
pub fn is_composed(kind: usize) -> bool
    requires { kind ≤ last_kind }
    ensures { result ≡ is_composed kind }
{
    (COMPOSED >> kind) % 2 == 1
}

// A kind that binds the names of its first operand.
pub fn is_binder(kind: usize) -> bool
    ensures { result ≡ is_binder kind }
{
    is_between(kinds::LET, kind, kinds::MAP_COMPREHENSION)
}

// A let whose pattern holds this kind is a choice.
pub fn is_loose(kind: usize) -> bool
    requires { kind ≤ last_kind }
    ensures { result ≡ (shape kind).loose }
{
    (LOOSE >> kind) % 2 == 1
}

// ---- lengths

// The length is fit for the kind.
pub fn fits_kind(lengths: &Lengths, kind: usize, len: usize) -> bool
    requires lengths_known { lengths.now ≡ length_rows }
    requires kind_known { (kind ≤ last_kind) × (4 ≤ len) }
    ensures { result ≡ fits (shape kind) (len - 4) }
{
    if LONGEST < len {
        return false;
    }
    (lengths[kind] >> (len - HEADING)) % 2 == 1
}

// The place of the first operand in a record of the kind: after length and kind, and what stands before the operands.
pub fn first_operand(kind: usize) -> usize
    requires { kind ≤ last_kind }
    ensures { (result ≡ first_of kind) × (result ≤ 8) }
{
    let byte = (BYTE_FIRST >> kind) % 2;
    let integer = (INTEGER_FIRST >> kind) % 2;
    let quote = (QUOTE_FIRST >> kind) % 2;
    HEADING + byte as usize + 4 * (integer as usize) + 2 * (quote as usize)
}

// ---- operands

// What operand i of a record of the kind is for.
pub fn role_of(kind: usize, i: usize) -> Role
    requires { (kind ≤ last_kind) × (i < length (roles_of kind)) }
    ensures { result ≡ get_or (roles_of kind) i Role.Plain }
{
    if is_pattern(kind) {
        return Role::Pattern;
    }
    if is_binder(kind) {
        return binder_role(kind, i);
    }
    Role::Plain
}

// What operand i of a binder is for: its pattern, its set or value, or what its names cover.
fn binder_role(kind: usize, i: usize) -> Role
    ensures { result ≡ binder_role kind i }
{
    match i {
        0 => first_role(kind),
        1 => Role::Plain,
        2 => third_role(kind),
        _ => Role::Body,
    }
}

// In 17 and 19 the pattern is a name.
fn first_role(kind: usize) -> Role
    ensures { result ≡ first_role kind }
{
    match kind {
        kinds::IOTA => Role::Name,
        kinds::SEQUENCE_COMPREHENSION => Role::Name,
        _ => Role::Pattern,
    }
}

// A let has no condition.
fn third_role(kind: usize) -> Role
    ensures { result ≡ third_role kind }
{
    if kind == kinds::LET {
        return Role::Body;
    }
    Role::Condition
}

// ---- literals, names and operators

// The literal, name or operator of a record of the kind is known, where n is its first field.
fn is_known(kind: usize, n: usize) -> bool
    requires { kind ≤ last_kind }
    ensures { result ≡ known_first (shape kind).head n }
{
    match kind {
        kinds::BOOLEAN => n <= 1,
        kinds::BOOLEAN_PATTERN => n <= 1,
        kinds::NAME => n < NAMES,
        kinds::NAME_PATTERN => n < NAMES,
        kinds::UNARY => is_between(unary::NOT, n, unary::LAST),
        kinds::BINARY => is_between(binary::AND, n, binary::LAST),
        _ => is_kind(kind),
    }
}

// There is such a kind.
fn is_kind(kind: usize) -> bool
    requires { kind ≤ last_kind }
    ensures { result ≡ is_expression kind || is_pattern kind }
{
    (KNOWN >> kind) % 2 == 1
}

// The first field is tested: booleans, names and operators.
fn is_tested(kind: usize) -> bool
    requires { kind ≤ last_kind }
    ensures { result ≡ is_tested kind }
{
    (BYTE_FIRST >> kind) % 2 == 1
}

// The record of this kind and length at the start of the part is fit for its kind.
pub fn is_fit(lengths: &Lengths, part: &[u8], kind: usize, len: usize) -> bool
    requires lengths_known { lengths.now ≡ length_rows }
    requires head_read { (kind ≡ word part.now 2) × (len ≡ word part.now 0) × (4 ≤ len) × (len ≤ length part.now) }
    ensures { result ≡ is_fit (first_record part.now) }
{
    if kinds::LAST < kind || !fits_kind(lengths, kind, len) {
        return false;
    }
    if is_tested(kind) {
        is_known(kind, usize::from(part[HEADING]))
    } else {
        is_kind(kind)
    }
}
