// The rule of `quality`: what it answers here, definitions in specs/.

#![tactic(auto)]

pub mod report;

use points::Point;

// The points at the four corners of a quad, in order round it.
#[derive(Clone, Copy)]
pub struct Corners {
    pub p0: Point,
    pub p1: Point,
    pub p2: Point,
    pub p3: Point,
}

// The measures of a sheet that are made of floats.
#[derive(Clone, Copy)]
pub struct Measures {
    pub minimum_shape: f64,
    pub shape_size_p05: f64,
    pub shape_size_mean: f64,
    pub minimum_sampled_jacobian: f64,
    pub invalid_cells: usize,
}
