// Where points lie after a merge, and whether a quad keeps its shape then.

#![tactic(auto)]

ghost use Rattle.std.specs.Prelude.{◌≡◌, ◌*◌, ◌<◌, ◌≤◌, length};
ghost use Rattle.points.specs.Points.{halfway_p, point_at};
ghost use Rattle.projection.specs.Project.{longest_move, look_count, project_with};
ghost use Rattle.rule_passes.specs.Shapes.{quad_shape};
ghost use Rattle.pass_shapes.specs.Shaped.{quad_is, FourBelow};
ghost use Rattle.rule_coarsen.specs.MergeFits.{moved_at, quad_stays};

use band::Band;
use field::Field;
use pass_shapes::Four;
use points::Point;
use projection::{LONGEST_MOVE, LOOKS};
use rule_coarsen::Merge;

// The halfway point of a and c, projected with their joined mask.
pub fn new_position(
    np: usize,
    b: Band,
    len: f64,
    points: &[f64],
    a: usize,
    c: usize,
    mask: u8,
) -> Option<Point>
    requires np_in_bounds { 3 * np ≤ length points.now }
    requires a_lt_np { a < np }
    requires c_lt_np { c < np }
    ensures { result ≡ project_with b len longest_move look_count
        (halfway_p (point_at points.now a) (point_at points.now c)) mask }
{
    let p = points::halfway(points::point_at(points, a), points::point_at(points, c));
    projection::project(b, len, LONGEST_MOVE, LOOKS, p, mask)
}

// Where point v lies after the merge.
fn moved_at(np: usize, points: &[f64], m: Merge, v: usize) -> Point
    requires np_in_bounds { 3 * np ≤ length points.now }
    requires v_lt_np { v < np }
    ensures { result ≡ moved_at (point_at points.now) m v }
{
    if v == m.a {
        return m.to;
    }
    if v == m.c {
        return m.to;
    }
    points::point_at(points, v)
}

// The shape of a quad after the merge, with the normal n.
fn moved_shape(np: usize, points: &[f64], m: Merge, q: Four, n: Point) -> f64
    requires np_in_bounds { 3 * np ≤ length points.now }
    requires four_below { FourBelow np q }
    ensures { result ≡ quad_shape (moved_at (point_at points.now) m) n (quad_is q) }
{
    let a = moved_at(np, points, m, q.a);
    let b = moved_at(np, points, m, q.b);
    let c = moved_at(np, points, m, q.c);
    let d = moved_at(np, points, m, q.d);
    shape::shape(a, b, c, d, n)
}

// Whether a quad does not fall below the smaller of its old shape and a good one.
pub fn quad_stays(
    np: usize,
    f: Field,
    len: f64,
    points: &[f64],
    label: u8,
    q: Four,
    m: Merge,
) -> bool
    requires np_in_bounds { 3 * np ≤ length points.now }
    requires four_below { FourBelow np q }
    ensures { result ≡ quad_stays f len (point_at points.now) label (quad_is q) m }
{
    let n = band::normal(f, len, pass_shapes::centre(np, points, q), label);
    let before = pass_shapes::quad_shape(np, points, q, n);
    let after = moved_shape(np, points, m, q, n);
    pass_shapes::no_worse(after, before)
}
