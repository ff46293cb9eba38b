// The claim that no valence which a pass of swaps keeps passes 1,048,576, and its proof: see specs/ and proofs/.

#![tactic(auto)]
