// What the calls on the frame table mean: document 01, "Board and frame table", and for quotas and for taking a
// recolouring back document 02, Nos. 6 and 10; which free frame a domain takes: document 02, No. 7; and what a fault
// answers by the numbers that it keeps in its one pass: document 02, No. 2. There are only definitions here, in specs/,
// and laws. The code of the calls is in `frames`, `moves` and `taking_back`, the theorems on histories in `isolation`.
#![tactic(auto)]
