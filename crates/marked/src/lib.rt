// Document 01's marked examples, M1 to M12, as one list under one claim.
//
// The list is in specs/Marked.antt and its proof in proofs/Claims.antt. Each example is of the
// definitions that the promises of the calls cite, so it says what the calls answer.
#![tactic(auto)]
