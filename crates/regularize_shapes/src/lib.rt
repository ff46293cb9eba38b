// What the rule of swaps reads of the points: the shapes of two quads before and after.

#![tactic(auto)]

ghost use Rattle.std.specs.Prelude.{◌≡◌, ◌*◌, ◌<◌, ◌≤◌, length};
ghost use Rattle.points.specs.Points.{add_p, point_at};
ghost use Rattle.rule_sheet.specs.Flat.{quad_at};
ghost use Rattle.incidence.specs.Corners.{Positioned};
ghost use Rattle.pass_shapes.specs.Shaped.{quad_is, FourBelow};
ghost use Rattle.rule_regularize.specs.SwapFits.{hex_centre, lesser_shape, held_of, next_shape, shape_fits, next_fits};
ghost use Rattle.regularize_shapes.specs.SwapFits.{hex_of, number_of, diagonal_of, turned, SixBelow};

use field::Field;
use pass_shapes::Four;
use points::Point;
use rule_regularize::Held;

// What the least shape must rise by where nothing is gained.
pub const LEAST_RISE: f64 = 0.02;

// The six corners round two quads, in order; h0 and h3 are the ends of the edge that they share.
#[derive(Clone, Copy)]
pub struct Six {
    pub h0: usize,
    pub h1: usize,
    pub h2: usize,
    pub h3: usize,
    pub h4: usize,
    pub h5: usize,
}

// The new diagonal of a swap: from h1 to h4, or from h2 to h5.
#[derive(Clone, Copy, PartialEq, Eq)]
pub enum Diagonal {
    First,
    Second,
}

impl Diagonal {
    // The diagonal that a number names: 1 the first, every other the second.
    pub fn of(k: usize) -> Diagonal
        ensures { result ≡ diagonal_of k }
    {
        if k == 1 {
            return Diagonal::First;
        }
        Diagonal::Second
    }

    // The number by which the rule calls it.
    pub fn number(self) -> usize
        ensures { result ≡ number_of self }
    {
        match self {
            Diagonal::First => 1,
            Diagonal::Second => 2,
        }
    }
}

// The sum and point v.
fn added(np: usize, points: &[f64], sum: Point, v: usize) -> Point
    requires np_in_bounds { 3 * np ≤ length points.now }
    requires v_lt_np { v < np }
    ensures { result ≡ add_p sum (point_at points.now v) }
{
    points::add(sum, points::point_at(points, v))
}

// The mean of six corners.
fn hex_centre(np: usize, points: &[f64], h: Six) -> Point
    requires np_in_bounds { 3 * np ≤ length points.now }
    requires six_below { SixBelow np h }
    ensures { result ≡ hex_centre (point_at points.now) (hex_of h) }
{
    let s0 = added(np, points, points::origin(), h.h0);
    let s1 = added(np, points, s0, h.h1);
    let s2 = added(np, points, s1, h.h2);
    let s3 = added(np, points, s2, h.h3);
    let s4 = added(np, points, s3, h.h4);
    points::mul(added(np, points, s4, h.h5), 1.0 / 6.0)
}

// The lesser shape of two quads.
fn lesser_shape(np: usize, points: &[f64], q: Four, r: Four, n: Point) -> f64
    requires np_in_bounds { 3 * np ≤ length points.now }
    requires four_below { FourBelow np q }
    requires four_below_2 { FourBelow np r }
    ensures { result ≡ lesser_shape (point_at points.now) n (quad_is q) (quad_is r) }
{
    numeric::min(
        pass_shapes::quad_shape(np, points, q, n),
        pass_shapes::quad_shape(np, points, r, n),
    )
}

// The normal at the mean of the six corners round quads i and j, and the lesser shape of the two.
pub fn hold(
    np: usize,
    nq: usize,
    f: Field,
    len: f64,
    points: &[f64],
    quads: &[u32],
    i: usize,
    j: usize,
    h: Six,
    label: u8,
) -> Held
    requires positioned { Positioned np nq points.now quads.now }
    requires i_lt_nq { i < nq }
    requires j_lt_nq { j < nq }
    requires six_below { SixBelow np h }
    ensures { result ≡ held_of f len (point_at points.now) label (quad_at quads.now i)
        (quad_at quads.now j) (hex_of h) }
{
    let normal = band::normal(f, len, hex_centre(np, points, h), label);
    let q = pass_shapes::four_at(np, nq, quads, i);
    let r = pass_shapes::four_at(np, nq, quads, j);
    let old = lesser_shape(np, points, q, r, normal);
    Held { normal, old }
}

// The six corners from the beginning of a diagonal on: h1 or h2.
pub fn turned_by(h: Six, k: Diagonal) -> Six
    ensures { result ≡ turned h k }
{
    match k {
        Diagonal::First => Six {
            h0: h.h1,
            h1: h.h2,
            h2: h.h3,
            h3: h.h4,
            h4: h.h5,
            h5: h.h0,
        },
        Diagonal::Second => Six {
            h0: h.h2,
            h1: h.h3,
            h2: h.h4,
            h3: h.h5,
            h4: h.h0,
            h5: h.h1,
        },
    }
}

// The lesser shape of the two quads that a diagonal makes.
fn next_shape(np: usize, points: &[f64], h: Six, k: Diagonal, n: Point) -> f64
    requires np_in_bounds { 3 * np ≤ length points.now }
    requires six_below { SixBelow np h }
    ensures { result ≡ next_shape (point_at points.now) (hex_of h) (number_of k) n }
{
    let g = turned_by(h, k);
    let q = Four {
        a: g.h0,
        b: g.h1,
        c: g.h2,
        d: g.h3,
    };
    let r = Four {
        a: g.h0,
        b: g.h3,
        c: g.h4,
        d: g.h5,
    };
    lesser_shape(np, points, q, r, n)
}

// Whether the shape that a swap makes is good enough; one that gains nothing must raise it.
fn shape_fits(next: f64, old: f64, positive: bool) -> bool
    ensures { result ≡ shape_fits next old positive }
{
    (positive | !(next < old + LEAST_RISE)) & pass_shapes::no_worse(next, old)
}

// Whether diagonal k fits.
pub fn next_fits(np: usize, points: &[f64], h: Six, k: usize, held: Held, positive: bool) -> bool
    requires np_in_bounds { 3 * np ≤ length points.now }
    requires six_below { SixBelow np h }
    ensures { result ≡ next_fits (point_at points.now) (hex_of h) k held positive }
{
    shape_fits(
        next_shape(np, points, h, Diagonal::of(k), held.normal),
        held.old,
        positive,
    )
}
