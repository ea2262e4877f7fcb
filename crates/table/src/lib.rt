// No code: the rows P1 to P13 of document 01 are in proofs/Table.antt.

#![tactic(auto)]
