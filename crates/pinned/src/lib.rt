// The claims, pinned from outside: their one member has the type that `claims/specs` states, and of each theorem an
// instance follows from it, so that neither a member of another type nor a weaker theorem passes the gate. There is
// no code here.
#![tactic(auto)]
