// What `quality` measures of one quad: its shape, its least Jacobian over 5 by 5 places with ten roots, and its area.

#![tactic(auto)]

ghost use Rattle.std.specs.Prelude.{◌≡◌};
ghost use Rattle.rule_quality.specs.Cells.{quotient_of, corner_of, shape_of, between_of, least_jacobian, area_of};
ghost use Rattle.quality_cell.specs.Arms.{arm_of, arms_of, ratio_of, row_of, rows_of};
ghost use Rattle.points.specs.Points.{sub_p};

use points::Point;
use rule_quality::Corners;

// A direction with its norm.
#[derive(Clone, Copy)]
pub struct Arm {
    pub along: Point,
    pub norm: f64,
}

// x over a denominator that is above 0, else 0.
pub fn quotient(x: f64, denominator: f64) -> f64
    ensures { result ≡ quotient_of x denominator }
{
    if denominator > 0.0 {
        return x / denominator;
    }
    0.0
}

// The shape of a corner at p, between its next and its previous corner.
pub fn corner(p: Point, next: Point, last: Point, n: Point) -> f64
    ensures { result ≡ corner_of (sub_p next p) (sub_p last p) n }
{
    let e = points::sub(next, p);
    let b = points::sub(last, p);
    let denominator = points::dot(e, e) + points::dot(b, b);
    quotient(2.0 * points::dot(points::cross(e, b), n), denominator)
}

// The least shape of the four corners, at most 1.
pub fn shape(p: Corners, n: Point) -> f64
    ensures { result ≡ shape_of p n }
{
    let w0 = numeric::min(1.0, corner(p.p0, p.p1, p.p3, n));
    let w1 = numeric::min(w0, corner(p.p1, p.p2, p.p0, n));
    let w2 = numeric::min(w1, corner(p.p2, p.p3, p.p1, n));
    numeric::min(w2, corner(p.p3, p.p0, p.p2, n))
}

// The direction that is a at 0 and b at 1, with its norm, at t.
pub fn arm_at(a: Point, b: Point, t: f64) -> Arm
    ensures { result ≡ arm_of (between_of a b t) }
{
    let along = points::add(points::mul(a, 1.0 - t), points::mul(b, t));
    let norm = points::norm(along);
    Arm { along, norm }
}

// The directions at 0, 1/4, 1/2, 3/4 and 1.
pub fn arms_of(a: Point, b: Point) -> [Arm; 5]
    ensures { result ≡ arms_of a b }
{
    [
        arm_at(a, b, 0.0),
        arm_at(a, b, 0.25),
        arm_at(a, b, 0.5),
        arm_at(a, b, 0.75),
        arm_at(a, b, 1.0),
    ]
}

// The Jacobian of two directions.
pub fn ratio(x: Arm, y: Arm, n: Point) -> f64
    ensures { result ≡ ratio_of x y n }
{
    quotient(
        points::dot(points::cross(x.along, y.along), n),
        x.norm * y.norm,
    )
}

// The least of w and of the Jacobians of y with each of x.
pub fn row(w: f64, x: &[Arm], y: Arm, n: Point) -> f64
    ensures { result ≡ row_of w x.now y n }
{
    x.iter()
        .fold(w, |least, arm| numeric::min(least, ratio(*arm, y, n)))
}

// The least of 1 and of the Jacobians of each of y with each of x.
pub fn rows(x: &[Arm], y: &[Arm], n: Point) -> f64
    ensures { result ≡ rows_of x.now y.now n }
{
    y.iter().fold(1.0, |least, arm| row(least, x, *arm, n))
}

// The least Jacobian of the quad at 5 by 5 places, at most 1.
pub fn jacobian(p: Corners, n: Point) -> f64
    ensures { result ≡ least_jacobian p n }
{
    let x = arms_of(points::sub(p.p1, p.p0), points::sub(p.p2, p.p3));
    let y = arms_of(points::sub(p.p3, p.p0), points::sub(p.p2, p.p1));
    rows(&x, &y, n)
}

// The area of the quad's two triangles at p0.
pub fn area(p: Corners) -> f64
    ensures { result ≡ area_of p }
{
    let a = points::norm(points::cross(points::sub(p.p1, p.p0), points::sub(p.p2, p.p0)));
    let b = points::norm(points::cross(points::sub(p.p2, p.p0), points::sub(p.p3, p.p0)));
    0.5 * (a + b)
}
