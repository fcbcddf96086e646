// Choices: the list of entries that decides a run.
#![tactic(auto)]

pub mod list;
