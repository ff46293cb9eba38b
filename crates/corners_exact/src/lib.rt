// The claim that the corners per point are exact and refused as `quality` refuses, and its proof: see specs/ and
// proofs/.

#![tactic(auto)]
