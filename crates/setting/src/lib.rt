// What a call brings beside its sheet: see specs/.

#![tactic(auto)]
