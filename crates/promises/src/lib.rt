// What a caller may rely on: the statements are in specs/, their proofs in proofs/. There is no code here; the contracts of the
// operations, of `deoxys`, `pieces` and `record`, tie the statements to the code.

#![tactic(auto)]
