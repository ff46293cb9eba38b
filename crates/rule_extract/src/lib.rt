// The rule of `extract_candidate`: what it speaks of here, definitions in specs/.

#![tactic(auto)]

use field::Field;
use points::Point;

// The distance beyond the farthest level or face, negative inside the band, and its label.
#[derive(Clone, Copy)]
pub struct Sampled {
    pub distance: f64,
    pub label: u8,
}

// A band with the scale of its levels, and the first point and the step of the grid over its box.
#[derive(Clone, Copy)]
pub struct Grid {
    pub field: Field,
    pub low: Point,
    pub high: Point,
    pub lower: f64,
    pub upper: f64,
    pub scale: f64,
    pub start: Point,
    pub step: Point,
}

// The place of a grid point or of a cell, counted along the three axes.
#[derive(Clone, Copy)]
pub struct Site {
    pub x: usize,
    pub y: usize,
    pub z: usize,
}

// The two ends of what is left of an edge.
#[derive(Clone, Copy)]
pub struct Span {
    pub a: Point,
    pub b: Point,
}
