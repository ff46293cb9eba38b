// Samples of a band: how far outside it a point lies, and which of its levels and faces is the farthest; the grid
// that extraction lays over its box.

#![tactic(auto)]

ghost use Rattle.std.specs.Prelude.{◌≡◌, ◌<◌};
ghost use Rattle.rule_extract.specs.Samples.{farther_of, levels_of, axis_of, sample_of, is_inside};
ghost use Rattle.rule_extract.specs.Grids.{coordinate_of, grid_point, middle_of, face_centre, step_of, start_of};
ghost use Rattle.rule_extract.specs.Grids.{scale_of};
ghost use Rattle.rule_extract.specs.Grids.{steps_of, starts_of, grid_of};

use band::Band;
use points::Point;
use rule_extract::{Grid, Sampled, Site};

// ---- samples

// The sample so far, or a later distance with its label if that is greater.
fn farther(best: Sampled, distance: f64, label: u8) -> Sampled
    ensures { result ≡ farther_of best distance label }
{
    if distance > best.distance {
        return Sampled { distance, label };
    }
    best
}

// The farther of the two levels, by the field's value v.
fn levels(v: f64, lower: f64, upper: f64, scale: f64) -> Sampled
    ensures { result ≡ levels_of v lower upper scale }
{
    let first = Sampled {
        distance: (v - upper) / scale,
        label: 0,
    };
    farther(first, (lower - v) / scale, 1)
}

// The sample so far, or one of the two faces of an axis; `label` is that of the low face.
fn axis(best: Sampled, low: f64, high: f64, x: f64, label: u8) -> Sampled
    requires { label < 8 }
    ensures { result ≡ axis_of best low high x label }
{
    farther(farther(best, low - x, label), x - high, label + 1)
}

// The sample at a point.
pub fn sample(g: Grid, p: Point) -> Sampled
    ensures { result ≡ sample_of g p }
{
    let f = g.field;
    let first = levels(field::value(f, p), g.lower, g.upper, g.scale);
    let x = axis(first, g.low.x, g.high.x, p.x, 2);
    let y = axis(x, g.low.y, g.high.y, p.y, 4);
    axis(y, g.low.z, g.high.z, p.z, 6)
}

// Whether the sample at a point is negative.
pub fn inside(g: Grid, p: Point) -> bool
    ensures { result ≡ is_inside g p }
{
    sample(g, p).distance < 0.0
}

// ---- the grid

// The coordinate c steps from the start of an axis.
fn coordinate(start: f64, step: f64, c: usize) -> f64
    ensures { result ≡ coordinate_of start step c }
{
    start + numeric::float(c) * step
}

// A point of the grid.
pub fn grid_point(g: Grid, c: Site) -> Point
    ensures { result ≡ grid_point g c }
{
    let x = coordinate(g.start.x, g.step.x, c.x);
    let y = coordinate(g.start.y, g.step.y, c.y);
    let z = coordinate(g.start.z, g.step.z, c.z);
    Point { x, y, z }
}

// A coordinate of a face's centre: c steps from the start on the face's own axis, half a step more on the others.
fn middle(start: f64, step: f64, c: usize, own: bool) -> f64
    ensures { result ≡ middle_of start step c own }
{
    if own {
        return coordinate(start, step, c);
    }
    start + (numeric::float(c) + 0.5) * step
}

// The centre of the face of a cell that is square to an axis and begins at the place c.
pub fn face_centre(g: Grid, c: Site, axis: usize) -> Point
    ensures { result ≡ face_centre g c axis }
{
    let x = middle(g.start.x, g.step.x, c.x, axis == 0);
    let y = middle(g.start.y, g.step.y, c.y, axis == 1);
    let z = middle(g.start.z, g.step.z, c.z, axis == 2);
    Point { x, y, z }
}

// The step of the grid along an axis.
fn step(low: f64, high: f64, cells: usize) -> f64
    ensures { result ≡ step_of low high cells }
{
    (high - low) / numeric::float(cells)
}

// Where the grid starts on an axis: 0.513 of its step below the box.
fn start(low: f64, step: f64) -> f64
    ensures { result ≡ start_of low step }
{
    low - 0.513 * step
}

// The scale of the levels.
fn scale(b: Band) -> f64
    ensures { result ≡ scale_of b }
{
    (b.upper - b.lower) / band::length(b)
}

// The steps of the grid along the three axes.
fn steps(low: Point, high: Point, cells: usize) -> Point
    ensures { result ≡ steps_of low high cells }
{
    let x = step(low.x, high.x, cells);
    let y = step(low.y, high.y, cells);
    let z = step(low.z, high.z, cells);
    Point { x, y, z }
}

// Where the grid starts, by its steps.
fn starts(low: Point, steps: Point) -> Point
    ensures { result ≡ starts_of low steps }
{
    let x = start(low.x, steps.x);
    let y = start(low.y, steps.y);
    let z = start(low.z, steps.z);
    Point { x, y, z }
}

// The grid of a band with a number of cells along each side of its box.
pub fn grid_of(b: Band, cells: usize) -> Grid
    ensures { result ≡ grid_of b cells }
{
    let field = b.field;
    let low = b.low;
    let high = b.high;
    let step = steps(low, high, cells);
    let start = starts(low, step);
    Grid {
        field,
        low,
        high,
        lower: b.lower,
        upper: b.upper,
        scale: scale(b),
        start,
        step,
    }
}
