// Fields, matrices and codes as mathematics: definitions in specs/, their laws in proofs/, and no code.
#![tactic(auto)]
