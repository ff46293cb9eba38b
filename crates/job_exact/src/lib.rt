// The claim that saving and opening gives the same bits, that every file that opens is the one that is saved, and that
// every start is a u32, and its proof: see specs/ and proofs/.

#![tactic(auto)]
