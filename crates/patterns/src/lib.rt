// Matching patterns against values, and the bindings of a binder.
#![tactic(auto)]
