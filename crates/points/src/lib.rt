// Points in space: three f64, each operation rounded as it is written, left to right.

#![tactic(auto)]

ghost use Rattle.std.specs.Prelude.{◌≡◌, ◌+◌, ◌*◌, ◌≤◌, length};
ghost use Rattle.points.specs.Points.{add_p, sub_p, mul_p, times_p, dot_p, cross_p, norm_p, unit_by, unit_p, halfway_p};
ghost use Rattle.points.specs.Points.{origin as origin_p, centre_p, finite_p, point_at};
ghost use Rattle.points.specs.Steps.{with_point};

// A point in space, or a vector.
#[derive(Clone, Copy)]
pub struct Point {
    pub x: f64,
    pub y: f64,
    pub z: f64,
}

// The sum.
pub fn add(a: Point, b: Point) -> Point
    ensures { result ≡ add_p a b }
{
    Point {
        x: a.x + b.x,
        y: a.y + b.y,
        z: a.z + b.z,
    }
}

// The difference.
pub fn sub(a: Point, b: Point) -> Point
    ensures { result ≡ sub_p a b }
{
    Point {
        x: a.x - b.x,
        y: a.y - b.y,
        z: a.z - b.z,
    }
}

// Each coordinate times s.
pub fn mul(a: Point, s: f64) -> Point
    ensures { result ≡ mul_p a s }
{
    Point {
        x: a.x * s,
        y: a.y * s,
        z: a.z * s,
    }
}

// The product coordinate by coordinate.
pub fn times(a: Point, b: Point) -> Point
    ensures { result ≡ times_p a b }
{
    Point {
        x: a.x * b.x,
        y: a.y * b.y,
        z: a.z * b.z,
    }
}

// The dot product, summed left to right from -0.0.
pub fn dot(a: Point, b: Point) -> f64
    ensures { result ≡ dot_p a b }
{
    -0.0 + a.x * b.x + a.y * b.y + a.z * b.z
}

// The cross product.
pub fn cross(a: Point, b: Point) -> Point
    ensures { result ≡ cross_p a b }
{
    Point {
        x: a.y * b.z - a.z * b.y,
        y: a.z * b.x - a.x * b.z,
        z: a.x * b.y - a.y * b.x,
    }
}

// The distance from the origin.
pub fn norm(a: Point) -> f64
    ensures { result ≡ norm_p a }
{
    numeric::sqrt(dot(a, a))
}

// The unit vector of a, whose norm is n: for a caller that has the norm.
pub fn unit_by(a: Point, n: f64) -> Point
    ensures { result ≡ unit_by a n }
{
    mul(a, 1.0 / numeric::max(n, 1e-300))
}

// The unit vector of a; a norm below 1e-300 counts as 1e-300.
pub fn unit(a: Point) -> Point
    ensures { result ≡ unit_p a }
{
    unit_by(a, norm(a))
}

// The halfway point.
pub fn halfway(a: Point, b: Point) -> Point
    ensures { result ≡ halfway_p a b }
{
    let x = numeric::halfway(a.x, b.x);
    let y = numeric::halfway(a.y, b.y);
    let z = numeric::halfway(a.z, b.z);
    Point { x, y, z }
}

// The point from which sums of points start.
pub fn origin() -> Point
    ensures { result ≡ origin_p }
{
    Point {
        x: 0.0,
        y: 0.0,
        z: 0.0,
    }
}

// The centre of four points.
pub fn centre(p: Point, q: Point, r: Point, s: Point) -> Point
    ensures { result ≡ centre_p p q r s }
{
    mul(add(add(add(add(origin(), p), q), r), s), 0.25)
}

// Whether all three coordinates are finite.
pub fn finite(p: Point) -> bool
    ensures { result ≡ finite_p p }
{
    numeric::is_finite(p.x) & numeric::is_finite(p.y) & numeric::is_finite(p.z)
}

// The point at place i of a slice of coordinates.
pub fn point_at(points: &[f64], i: usize) -> Point
    requires { i * 3 + 3 ≤ length points.now }
    ensures { result ≡ point_at points.now i }
{
    Point {
        x: points[i * 3],
        y: points[i * 3 + 1],
        z: points[i * 3 + 2],
    }
}

// Puts p to place i of a slice of coordinates.
pub fn put_point(points: &mut [f64], i: usize, p: Point)
    requires { i * 3 + 3 ≤ length points.old }
    ensures { points.new ≡ with_point points.old i p }
{
    points[i * 3] = p.x;
    points[i * 3 + 1] = p.y;
    points[i * 3 + 2] = p.z;
}
