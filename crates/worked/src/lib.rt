// Definitions and a theorem alone: document 01's examples P1 to P15, in specs/ and proofs/.
#![tactic(auto)]
