// The rules of `regularize` and `improve_layout`, and their laws: see specs/ and proofs/.

#![tactic(auto)]

use points::Point;

// What both diagonals of a swap are measured by: the normal, and the lesser shape of the two quads.
#[derive(Clone, Copy)]
pub struct Held {
    pub normal: Point,
    pub old: f64,
}
