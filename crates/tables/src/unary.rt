// The unary operators by name.
pub const NOT: usize = 1;

pub const MINUS: usize = 2;

pub const ABS: usize = 3;

pub const CARD: usize = 4;

pub const DUNION: usize = 5;

pub const DINTER: usize = 6;

pub const LEN: usize = 7;

pub const HD: usize = 8;

pub const TL: usize = 9;

pub const ELEMS: usize = 10;

pub const INDS: usize = 11;

pub const CONC: usize = 12;

pub const REVERSE: usize = 13;

pub const DOM: usize = 14;

pub const RNG: usize = 15;

// The last operator.
pub const LAST: usize = RNG;
