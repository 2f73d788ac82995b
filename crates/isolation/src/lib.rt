// The domain rule: document 01, demand 3, as one theorem over whole histories. The statement is one
// page, specs/DomainRule.antt. Another, specs/EvenUse.antt, says that a domain's frames are spread
// evenly over its colours: document 02, No. 7. There is no code here.
#![tactic(auto)]
