// Demand 3: two desks that were given the same words never show a settled frame differently.
//
// No function: the claims are in specs/Statement.antt and their proofs in proofs/Claims.antt. They are
// of the definitions that the desk's promises cite; specs/Chain.antt leads from the promises to them.
#![tactic(auto)]
