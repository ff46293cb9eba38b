// The centre and the shape of a quad of a sheet, which both passes read.

#![tactic(auto)]

ghost use Rattle.std.specs.Prelude.{◌≡◌, ◌*◌, ◌<◌, ◌≤◌, length};
ghost use Rattle.points.specs.Points.{point_at};
ghost use Rattle.incidence.specs.Corners.{Cornered};
ghost use Rattle.rule_passes.specs.Shapes.{quad_shape, no_worse};
ghost use Rattle.rule_sheet.specs.Places.{centre_of};
ghost use Rattle.pass_shapes.specs.Shaped.{quad_is, four_at, FourBelow};

use points::Point;

// A shape below this may not fall.
pub const GOOD_SHAPE: f64 = 0.25;

// The four corners of a quad, in order.
#[derive(Clone, Copy)]
pub struct Four {
    pub a: usize,
    pub b: usize,
    pub c: usize,
    pub d: usize,
}

// The corners of quad q.
pub fn four_at(np: usize, nq: usize, quads: &[u32], q: usize) -> Four
    requires cornered { Cornered np nq quads.now }
    requires q_lt_nq { q < nq }
    ensures value { result ≡ four_at quads.now q }
    ensures four_below { FourBelow np result }
{
    let a = sheet::corner_at(quads, q, 0);
    let b = sheet::corner_at(quads, q, 1);
    let c = sheet::corner_at(quads, q, 2);
    let d = sheet::corner_at(quads, q, 3);
    Four { a, b, c, d }
}

// The centre of a quad.
pub fn centre(np: usize, points: &[f64], q: Four) -> Point
    requires np_in_bounds { 3 * np ≤ length points.now }
    requires four_below { FourBelow np q }
    ensures { result ≡ centre_of (point_at points.now) (quad_is q) }
{
    let a = points::point_at(points, q.a);
    let b = points::point_at(points, q.b);
    let c = points::point_at(points, q.c);
    let d = points::point_at(points, q.d);
    points::centre(a, b, c, d)
}

// The shape of a quad with the normal n.
pub fn quad_shape(np: usize, points: &[f64], q: Four, n: Point) -> f64
    requires np_in_bounds { 3 * np ≤ length points.now }
    requires four_below { FourBelow np q }
    ensures { result ≡ quad_shape (point_at points.now) n (quad_is q) }
{
    let a = points::point_at(points, q.a);
    let b = points::point_at(points, q.b);
    let c = points::point_at(points, q.c);
    let d = points::point_at(points, q.d);
    shape::shape(a, b, c, d, n)
}

// Whether a new shape is no less than the smaller of the old one and a good one.
pub fn no_worse(next: f64, old: f64) -> bool
    ensures { result ≡ no_worse next old }
{
    !(next < numeric::min(old, GOOD_SHAPE))
}
