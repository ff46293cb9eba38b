// The claim that `subdivide` follows Catmull and Clark, and its proof: see specs/ and proofs/.

#![tactic(auto)]
