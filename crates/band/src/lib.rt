// A band of a field between two levels, clipped by a box: its length, gradient, normal, and the two tests of its
// figures.

#![tactic(auto)]

ghost use Rattle.std.specs.Prelude.{◌≡◌};
ghost use Rattle.band.specs.Bands.{length_of, difference_of, central_of, gradient_with, side_of, level_sign_of};
ghost use Rattle.band.specs.Bands.{face_normal_of, normal_with, axis_valid_of, box_valid_of, levels_valid_of};
ghost use Rattle.band.specs.Bands.{measurable_levels_of, valid_of, measurable_of};

use field::Field;
use points::Point;

// The box from low to high, the levels lower and upper, and the field.
#[derive(Clone, Copy)]
pub struct Band {
    pub low: Point,
    pub high: Point,
    pub lower: f64,
    pub upper: f64,
    pub field: Field,
}

// The box diagonal. It calls `sqrt` itself and not `norm`: with two callers `sqrt` stays a function, and `norm` goes
// in line.
pub fn length(b: Band) -> f64
    ensures { result ≡ length_of b }
{
    let d = points::sub(b.high, b.low);
    numeric::sqrt(points::dot(d, d))
}

// The central difference of the field's value between two points, h to either side.
pub fn difference(f: Field, a: Point, b: Point, h: f64) -> f64
    ensures { result ≡ difference_of f a b h }
{
    (field::value(f, a) - field::value(f, b)) / (2.0 * h)
}

// Central differences of the field at p, h to either side.
pub fn central(f: Field, p: Point, h: f64) -> Point
    ensures { result ≡ central_of f p h }
{
    let right = Point { x: p.x + h, ..p };
    let left = Point { x: p.x - h, ..p };
    let front = Point { y: p.y + h, ..p };
    let back = Point { y: p.y - h, ..p };
    let over = Point { z: p.z + h, ..p };
    let under = Point { z: p.z - h, ..p };
    let x = difference(f, right, left, h);
    let y = difference(f, front, back, h);
    let z = difference(f, over, under, h);
    Point { x, y, z }
}

// The field's gradient at p, its own or central differences; len is the band's length.
pub fn gradient(f: Field, len: f64, p: Point) -> Point
    ensures { result ≡ gradient_with f len p }
{
    let own = field::gradient(f, p);
    match own {
        Some(g) => g,
        None => central(f, p, len * 1e-6),
    }
}

// -1 on a low face, 1 on a high one.
pub fn side(label: u8) -> f64
    ensures { result ≡ side_of label }
{
    if label % 2 == 0 { -1.0 } else { 1.0 }
}

// The outward normal of a box face: labels 2 to 7 are low and high in x, y and z.
pub fn face_normal(label: u8) -> Point
    ensures { result ≡ face_normal_of label }
{
    let s = side(label);
    if label < 4 {
        return Point {
            x: s,
            y: 0.0,
            z: 0.0,
        };
    }
    if label < 6 {
        return Point {
            x: 0.0,
            y: s,
            z: 0.0,
        };
    }
    Point {
        x: 0.0,
        y: 0.0,
        z: s,
    }
}

// 1 on the upper level, -1 on the lower one.
pub fn level_sign(label: u8) -> f64
    ensures { result ≡ level_sign_of label }
{
    if label == 0 { 1.0 } else { -1.0 }
}

// The outward normal at p on the face or level of a label; len is the band's length.
pub fn normal(f: Field, len: f64, p: Point, label: u8) -> Point
    ensures { result ≡ normal_with f len p label }
{
    if label < 2 {
        return points::mul(points::unit(gradient(f, len, p)), level_sign(label));
    }
    face_normal(label)
}

// Whether the bounds of one axis are finite and in order.
pub fn axis_valid(lo: f64, hi: f64) -> bool
    ensures { result ≡ axis_valid_of lo hi }
{
    numeric::is_finite(lo) & numeric::is_finite(hi) & (lo < hi)
}

// Whether the bounds are finite and in order, and the length is finite and not 0.
pub fn box_valid(b: Band) -> bool
    ensures { result ≡ box_valid_of b }
{
    let l = length(b);
    axis_valid(b.low.x, b.high.x)
        & axis_valid(b.low.y, b.high.y)
        & axis_valid(b.low.z, b.high.z)
        & numeric::is_finite(l)
        & !(l <= 0.0)
}

// Whether both levels are finite and in order.
pub fn levels_valid(lower: f64, upper: f64) -> bool
    ensures { result ≡ levels_valid_of lower upper }
{
    numeric::is_finite(lower) & numeric::is_finite(upper) & (lower < upper)
}

// Whether the upper level is finite, the lower one finite or minus infinity, and they are in order.
pub fn measurable_levels(lower: f64, upper: f64) -> bool
    ensures { result ≡ measurable_levels_of lower upper }
{
    (numeric::is_finite(lower) | (lower == -1.0 / 0.0))
        & numeric::is_finite(upper)
        & (lower < upper)
}

// Whether levels and box are fit for an operation.
pub fn validate(b: Band) -> bool
    ensures { result ≡ valid_of b }
{
    levels_valid(b.lower, b.upper) & box_valid(b)
}

// Whether levels and box are fit for measuring a sheet by them.
pub fn measurable(b: Band) -> bool
    ensures { result ≡ measurable_of b }
{
    measurable_levels(b.lower, b.upper) & box_valid(b)
}
