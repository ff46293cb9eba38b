// The smoothing rule of `subdivide`, for points.

#![tactic(auto)]

ghost use Rattle.std.specs.Prelude.{◌≡◌};
ghost use Rattle.smoothing.specs.Smooth.{mean as mean_of, edge_point, crease_point, interior_by};
ghost use Rattle.smoothing.specs.Rounded.{pointwise};

use points::{Point, add, mul};

// The mean of n points, from their sum: each coordinate times the reciprocal of n.
pub fn mean(sum: Point, n: usize) -> Point
    ensures { result ≡ mean_of pointwise sum n }
{
    let count = numeric::float(n);
    mul(sum, 1.0 / count)
}

// The new point of the edge from a to b inside one label, f and g being the centres of its quads in quad order.
pub fn edge_point(a: Point, b: Point, f: Point, g: Point) -> Point
    ensures { result ≡ edge_point pointwise a b f g }
{
    mul(add(add(a, b), add(f, g)), 0.25)
}

// The new place of p, whose two crease edges lead to a and b.
pub fn crease_point(p: Point, a: Point, b: Point) -> Point
    ensures { result ≡ crease_point pointwise p a b }
{
    mul(add(mul(p, 6.0), add(a, b)), 0.125)
}

// The new place of p inside one label, from the sum of the centres of its n quads and that of the midpoints of its
// m edges.
pub fn interior_point(p: Point, n: usize, faces: Point, m: usize, edges: Point) -> Point
    ensures { result ≡ interior_by pointwise p n faces m edges }
{
    let face = mean(faces, n);
    let edge = mean(edges, m);
    mean(
        add(add(face, mul(edge, 2.0)), mul(p, numeric::float(n) - 3.0)),
        n,
    )
}
