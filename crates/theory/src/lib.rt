// What follows from the definition, below the code: what its proofs and the promises are proved from. Theory only, no code; it stands in specs/.
#![tactic(auto)]
