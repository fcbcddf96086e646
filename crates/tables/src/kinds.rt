// The kinds of records by name: expressions 1 to 22, patterns 32 to 43.
pub const BOOLEAN: usize = 1;

pub const INTEGER: usize = 2;

pub const NAME: usize = 3;

pub const UNARY: usize = 4;

pub const BINARY: usize = 5;

pub const IF: usize = 6;

pub const SET: usize = 7;

pub const SEQUENCE: usize = 8;

pub const MAP: usize = 9;

pub const TUPLE: usize = 10;

pub const RANGE: usize = 11;

pub const LET: usize = 12;

pub const LET_BE: usize = 13;

pub const FORALL: usize = 14;

pub const EXISTS: usize = 15;

pub const EXISTS1: usize = 16;

pub const IOTA: usize = 17;

pub const SET_COMPREHENSION: usize = 18;

pub const SEQUENCE_COMPREHENSION: usize = 19;

pub const MAP_COMPREHENSION: usize = 20;

pub const APPLY: usize = 21;

pub const QUOTE: usize = 22;

pub const NAME_PATTERN: usize = 32;

pub const ANY_PATTERN: usize = 33;

pub const BOOLEAN_PATTERN: usize = 34;

pub const INTEGER_PATTERN: usize = 35;

pub const TUPLE_PATTERN: usize = 36;

pub const SET_PATTERN: usize = 37;

pub const UNION_PATTERN: usize = 38;

pub const SEQUENCE_PATTERN: usize = 39;

pub const CONCATENATION_PATTERN: usize = 40;

pub const MAP_PATTERN: usize = 41;

pub const MUNION_PATTERN: usize = 42;

pub const QUOTE_PATTERN: usize = 43;

// Where expressions end, patterns begin, and all kinds end.
pub const LAST_EXPRESSION: usize = QUOTE;

pub const FIRST_PATTERN: usize = NAME_PATTERN;

pub const LAST: usize = QUOTE_PATTERN;
