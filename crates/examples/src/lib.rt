// Document 01's examples marked m, those of document 02, the recorder's accident, the plan of `admit`, and the
// worked examples of document 004: one table in specs/Table.antt, and one claim that it holds in proofs/Claim.antt.
// There is no code here.
#![tactic(auto)]
