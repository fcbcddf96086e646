// The services that the panel calls, on lent bytes and numbers: each computes the definition that its promise names, for whatever it is lent. Each goes
// over `call`: rules 1 to 9 first, then its work on the scratch that it is lent, which is cleared last.
#![tactic(auto)]

pub mod call;
pub mod check;
pub mod evaluate;
pub mod first;
pub mod lent;
pub mod step;

// The bytes of scratch that every service needs, and leaves as zeros.
pub const SCRATCH: usize = 65536;
