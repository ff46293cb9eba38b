// The shape of a quad, as swaps and merges measure it.

#![tactic(auto)]

ghost use Rattle.std.specs.Prelude.{◌≡◌};
ghost use Rattle.points.specs.Points.{sub_p};
ghost use Rattle.shape.specs.Shapes.{corner_of, shape_of};

use points::Point;

// The shape of a corner: e runs to the next corner and b to the previous one, n is the normal.
pub fn corner(e: Point, b: Point, n: Point) -> f64
    ensures { result ≡ corner_of e b n }
{
    2.0 * points::dot(points::cross(e, b), n)
        / numeric::max(points::dot(e, e) + points::dot(b, b), 1e-30)
}

// The corner at p, between its next and its previous corner.
pub fn corner_at(p: Point, next: Point, last: Point, n: Point) -> f64
    ensures { result ≡ corner_of (sub_p next p) (sub_p last p) n }
{
    corner(points::sub(next, p), points::sub(last, p), n)
}

// The shape of the quad p q r s with the normal n.
pub fn shape(p: Point, q: Point, r: Point, s: Point, n: Point) -> f64
    ensures { result ≡ shape_of p q r s n }
{
    let a = numeric::min(1.0, corner_at(p, q, s, n));
    let b = numeric::min(a, corner_at(q, r, p, n));
    let c = numeric::min(b, corner_at(r, s, q, n));
    numeric::min(c, corner_at(s, p, r, n))
}
