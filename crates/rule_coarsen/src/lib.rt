// The rule of `coarsen`, and its laws: see specs/ and proofs/.

#![tactic(auto)]

use points::Point;

// The merge of the corners a and c of a quad, at a point.
#[derive(Clone, Copy)]
pub struct Merge {
    pub face: usize,
    pub a: usize,
    pub c: usize,
    pub to: Point,
}
