// Numbers kept by a test, with their laws, and the laws of choices: what every other crate's definitions are
// written in. There is no code here, only specs/ and proofs/.
#![tactic(auto)]
