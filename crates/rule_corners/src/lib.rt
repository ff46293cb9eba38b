// The rule of `corners_per_point`: what it answers here, definitions in specs/.

#![tactic(auto)]

// A quotient of whole numbers, with its remainder.
#[derive(Clone, Copy)]
pub struct Ratio {
    pub quotient: usize,
    pub remainder: usize,
}
