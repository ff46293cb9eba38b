// The corners and the normal of each quad of a lent sheet, and what is measured of it, in regions of the floats.

#![tactic(auto)]

ghost use Rattle.std.specs.Prelude.{◌≡◌, true, ◌+◌, ◌*◌, ◌<◌, ◌≤◌, length};
ghost use Rattle.lists.specs.Regions.{Out, Kept};
ghost use Rattle.points.specs.Points.{point_at};
ghost use Rattle.rule_sheet.specs.Flat.{corner};
ghost use Rattle.rule_sheet.specs.Quads.{all};
ghost use Rattle.rule_sheet.specs.Lent.{limit};
ghost use Rattle.rule_quality.specs.Measure.{good_normal, has_normal};
ghost use Rattle.quality_readings.specs.Readings.{corners_at, cell_with, cells_to, stored, stored_if, Readings, Held};
ghost use Rattle.quality_readings.specs.Readings.{Readable};

use field::Field;
use points::Point;
use rule_quality::Corners;

// The point at corner j of quad q.
fn corner_point(points: &[f64], quads: &[u32], q: usize, j: usize) -> Point
    requires j_in_bounds { 4 * q + j < length quads.now }
    requires j_in_bounds_2 { corner quads.now q j * 3 + 3 ≤ length points.now }
    ensures { result ≡ point_at points.now (corner quads.now q j) }
{
    points::point_at(points, sheet::corner_at(quads, q, j))
}

// The points at the corners of quad q.
fn corners_at(points: &[f64], quads: &[u32], q: usize) -> Corners
    requires { Held (length points.now) quads.now q }
    ensures { result ≡ corners_at points.now quads.now q }
{
    let p0 = corner_point(points, quads, q, 0);
    let p1 = corner_point(points, quads, q, 1);
    let p2 = corner_point(points, quads, q, 2);
    let p3 = corner_point(points, quads, q, 3);
    Corners { p0, p1, p2, p3 }
}

// A normal is finite and not shorter than 0.5.
fn good_normal(n: Point) -> bool
    ensures { result ≡ good_normal n }
{
    points::finite(n) & !(points::norm(n) < 0.5)
}

// Stores the shape, the Jacobian and the area of a cell at place q of the first, the second and the third n floats.
fn store(p: Corners, normal: Point, n: usize, q: usize, floats: &mut [f64])
    requires n_le_limit { n ≤ limit }
    requires q_lt_n { q < n }
    requires n_in_bounds { 3 * n ≤ length floats.old }
    ensures { floats.new ≡ stored n q (record { corners = p; normal = normal }) floats.old }
{
    floats[q] = quality_cell::shape(p, normal);
    floats[n + q] = quality_cell::jacobian(p, normal);
    floats[2 * n + q] = quality_cell::area(p);
}

// Measures a cell with the label of its quad, if it has a normal.
fn read_cell(
    f: Field,
    len: f64,
    p: Corners,
    label: u8,
    n: usize,
    q: usize,
    floats: &mut [f64],
) -> bool
    requires n_le_limit { n ≤ limit }
    requires q_lt_n { q < n }
    requires n_in_bounds { 3 * n ≤ length floats.old }
    ensures value { result ≡ has_normal (cell_with f len p label) }
    ensures floats_after { floats.new ≡ stored_if n q (cell_with f len p label) floats.old }
{
    let centre = points::centre(p.p0, p.p1, p.p2, p.p3);
    let normal = band::normal(f, len, centre, label);
    if good_normal(normal) {
        store(p, normal, n, q, floats);
        return true;
    }
    false
}

// Measures the cells of the first n quads, up to one without a normal.
pub fn read_cells(
    f: Field,
    len: f64,
    n: usize,
    points: &[f64],
    quads: &[u32],
    labels: &[u8],
    floats: &mut [f64],
) -> bool
    requires { Readable n (length points.now) quads.now (length labels.now) (length floats.old) }
    ensures value { result ≡ all has_normal (cells_to f len points.now quads.now labels.now
        n) }
    ensures readings { result ≡ true → Readings n (cells_to f len points.now quads.now
        labels.now n) floats.new }
    ensures kept { Kept (Out 0 (3 * n)) floats.old floats.new }
{
    for q in 0..n {
        let p = corners_at(points, quads, q);
        if !read_cell(f, len, p, labels[q], n, q, floats) {
            return false;
        }
    }
    true
}
