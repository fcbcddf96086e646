// Sets, sequences and maps: building them in a lent slice, and finding in them.
#![tactic(auto)]

pub mod building;
pub mod finding;
