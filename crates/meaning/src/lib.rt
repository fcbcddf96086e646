// What a sheet means. This crate has definitions and theorems, and no function.
#![tactic(auto)]
