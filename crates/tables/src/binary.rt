// The binary operators by name.
pub const AND: usize = 1;

pub const OR: usize = 2;

pub const IMPLIES: usize = 3;

pub const EQUIVALENT: usize = 4;

pub const EQUAL: usize = 5;

pub const NOT_EQUAL: usize = 6;

pub const PLUS: usize = 7;

pub const MINUS: usize = 8;

pub const TIMES: usize = 9;

pub const DIV: usize = 10;

pub const REM: usize = 11;

pub const MOD: usize = 12;

pub const LESS: usize = 13;

pub const LESS_EQUAL: usize = 14;

pub const GREATER: usize = 15;

pub const GREATER_EQUAL: usize = 16;

pub const IN_SET: usize = 17;

pub const NOT_IN_SET: usize = 18;

pub const UNION: usize = 19;

pub const INTER: usize = 20;

pub const DIFFERENCE: usize = 21;

pub const SUBSET: usize = 22;

pub const PSUBSET: usize = 23;

pub const CONCATENATE: usize = 24;

pub const MUNION: usize = 25;

pub const OVERRIDE: usize = 26;

pub const RESTRICT_DOMAIN: usize = 27;

pub const RESTRICT_RANGE: usize = 28;

// The last operator.
pub const LAST: usize = RESTRICT_RANGE;
