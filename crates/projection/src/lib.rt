// Projection: the masked box coordinates go on their faces, and for a level a number of looks follows.

#![tactic(auto)]

ghost use Rattle.std.specs.Prelude.{◌≡◌, ◌<◌};
ghost use Rattle.projection.specs.Project.{axis_bits, freedom_of, free_part_of, on_face_of, on_faces_of, target_of};
ghost use Rattle.projection.specs.Project.{singular_of, arrived_of, moved_of, look_with, look_of, walk_from};
ghost use Rattle.projection.specs.Project.{within_of, inside_of, close_of, project_with};

use band::Band;
use field::Field;
use points::Point;

// The longest move, as a part of the band's length.
pub const LONGEST_MOVE: f64 = 0.05;
// How many looks a projection takes.
pub const LOOKS: usize = 20;

// One look of a projection: refused, arrived, or the point moved to.
#[derive(Clone, Copy)]
pub enum Look {
    Singular,
    Arrived,
    Moved(Point),
}

// The bits of one axis in a mask: 1 for the low face, 2 for the high one.
pub fn axis_bits(mask: u8, weight: u8) -> u8
    requires { 0 < weight }
    ensures { result ≡ axis_bits mask weight }
{
    mask / weight % 4
}

// 1 on an axis with no face, 0 on the others.
pub fn freedom(bits: u8) -> f64
    ensures { result ≡ freedom_of bits }
{
    if bits == 0 { 1.0 } else { 0.0 }
}

// The axes along which a point of a mask may move.
pub fn free_part(mask: u8) -> Point
    ensures { result ≡ free_part_of mask }
{
    let x = freedom(axis_bits(mask, 4));
    let y = freedom(axis_bits(mask, 16));
    let z = freedom(axis_bits(mask, 64));
    Point { x, y, z }
}

// A coordinate put on its face; the high face comes last.
pub fn on_face(bits: u8, v: f64, lo: f64, hi: f64) -> f64
    ensures { result ≡ on_face_of bits v lo hi }
{
    if 2 <= bits {
        return hi;
    }
    if bits == 1 {
        return lo;
    }
    v
}

// The point with its masked coordinates on their faces of the box.
pub fn on_faces(low: Point, high: Point, p: Point, mask: u8) -> Point
    ensures { result ≡ on_faces_of low high p mask }
{
    let x = on_face(axis_bits(mask, 4), p.x, low.x, high.x);
    let y = on_face(axis_bits(mask, 16), p.y, low.y, high.y);
    let z = on_face(axis_bits(mask, 64), p.z, low.z, high.z);
    Point { x, y, z }
}

// The level aimed at: bit 0 of the mask means the upper one.
pub fn target(lower: f64, upper: f64, mask: u8) -> f64
    ensures { result ≡ target_of lower upper mask }
{
    if mask % 2 == 1 { upper } else { lower }
}

// Whether a projection cannot go on: a residual or a norm that is not finite, or a norm not above the smallest
// normal f64.
pub fn singular(residual: f64, gn: f64) -> bool
    ensures { result ≡ singular_of residual gn }
{
    !numeric::is_finite(residual) | !numeric::is_finite(gn) | (gn <= 2.2250738585072014e-308)
}

// Whether a distance is within length × 1e-12.
pub fn arrived(distance: f64, len: f64) -> bool
    ensures { result ≡ arrived_of distance len }
{
    numeric::abs(distance) <= len * 1e-12
}

// The point after a move against the gradient g, whose norm is gn.
pub fn moved(p: Point, g: Point, gn: f64, distance: f64, len: f64, longest: f64) -> Point
    ensures { result ≡ moved_of p g gn distance len longest }
{
    points::sub(
        p,
        points::mul(
            points::unit_by(g, gn),
            numeric::clamp(distance, -len * longest, len * longest),
        ),
    )
}

// A look from a point with the residual and the free part of the gradient there.
pub fn look_with(p: Point, g: Point, residual: f64, len: f64, longest: f64) -> Look
    ensures { result ≡ look_with p g residual len longest }
{
    let gn = points::norm(g);
    if singular(residual, gn) {
        return Look::Singular;
    }
    let distance = residual / gn;
    if arrived(distance, len) {
        return Look::Arrived;
    }
    Look::Moved(moved(p, g, gn, distance, len, longest))
}

// A look from p for the level t.
pub fn look_at(f: Field, len: f64, longest: f64, t: f64, free: Point, p: Point) -> Look
    ensures { result ≡ look_of f len longest t free p }
{
    let residual = field::value(f, p) - t;
    let g = points::times(band::gradient(f, len, p), free);
    look_with(p, g, residual, len, longest)
}

// Up to `looks` looks, each move followed by the next look.
pub fn walk(
    f: Field,
    len: f64,
    longest: f64,
    looks: usize,
    t: f64,
    free: Point,
    p: Point,
) -> Option<Point>
    ensures { result ≡ walk_from looks f len longest t free p }
{
    let mut q = p;
    for _ in 0..looks {
        let l = look_at(f, len, longest, t, free, q);
        match l {
            Look::Singular => return None,
            Look::Arrived => return Some(q),
            Look::Moved(r) => {
                q = r;
            }
        }
    }
    None
}

// Whether a coordinate is finite and at most `slack` outside its bounds.
pub fn within(v: f64, lo: f64, hi: f64, slack: f64) -> bool
    ensures { result ≡ within_of v lo hi slack }
{
    numeric::is_finite(v) & !(v < lo - slack) & !(v > hi + slack)
}

// Whether p is in the box or at most length × 1e-10 beyond it.
pub fn inside(low: Point, high: Point, p: Point, len: f64) -> bool
    ensures { result ≡ inside_of low high p len }
{
    let slack = len * 1e-10;
    within(p.x, low.x, high.x, slack)
        & within(p.y, low.y, high.y, slack)
        & within(p.z, low.z, high.z, slack)
}

// The point itself if it is inside.
pub fn close(low: Point, high: Point, p: Point, len: f64) -> Option<Point>
    ensures { result ≡ close_of low high p len }
{
    if inside(low, high, p, len) {
        return Some(p);
    }
    None
}

// The point put on the faces and the level of its mask; len is the band's length.
pub fn project(b: Band, len: f64, longest: f64, looks: usize, p: Point, mask: u8) -> Option<Point>
    ensures { result ≡ project_with b len longest looks p mask }
{
    let q = on_faces(b.low, b.high, p, mask);
    if mask % 4 == 0 {
        return close(b.low, b.high, q, len);
    }
    let f = b.field;
    let t = target(b.lower, b.upper, mask);
    let r = walk(f, len, longest, looks, t, free_part(mask), q)?;
    close(b.low, b.high, r, len)
}
