// The rule of `boundary_rows`: definitions only, see specs/.

#![tactic(auto)]
