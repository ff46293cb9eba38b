// The rules of `refine` and `subdivide`: definitions only, see specs/.

#![tactic(auto)]
