// Everything that is claimed, stated once, so that a theorem that is deleted or weakened fails the gate. There is
// no code here: specs/ has the page of claims, proofs/ the proof of each.
#![tactic(auto)]
