// The operators on abstract values: definitions in specs/, sample answers in proofs/. The crates above do them on records.
#![tactic(auto)]
