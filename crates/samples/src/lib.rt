//! The sample sheets of document 01, as theorems about the meaning of their tables.
#![tactic(auto)]
