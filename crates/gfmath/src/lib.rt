// The field of 256 elements as mathematics: definitions in specs/, their laws in proofs/, and no code.
#![tactic(auto)]
