// The parts of a pattern: what they meet in each way, and those without parts of their own matched.
#![tactic(auto)]

pub mod leaves;
pub mod nodes;
