// The algebra of Pauli rows over numbers: definitions in specs/, laws in proofs/. There is no code here.

#![tactic(auto)]
