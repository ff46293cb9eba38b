// The rules of `save` and `open`: what the end of a file tells here, definitions in specs/.

#![tactic(auto)]

use rule_sheet::Counts;

// What the trailer of a file tells: the counts of its sheet, and the squared sum where it has one.
#[derive(Clone, Copy)]
pub struct Trailer {
    pub counts: Counts,
    pub sum: Option<u64>,
}
