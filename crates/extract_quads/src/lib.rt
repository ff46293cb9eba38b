// The quads and labels that extraction draws: one for each inner edge of the grid that crosses the band.

#![tactic(auto)]

ghost use Rattle.std.specs.Prelude.{◌≡◌, true, ◌+◌, ◌-◌, ◌*◌, ◌≤◌, ◌<◌, length, set};
ghost use Rattle.rule_sheet.specs.Edges.{join_to};
ghost use Rattle.rule_sheet.specs.Flat.{flat_quads};
ghost use Rattle.sheet.specs.Flat.{with_quad};
ghost use Rattle.sheet.specs.Results.{Front};
ghost use Rattle.rule_extract.specs.Crossings.{crossed_label};
ghost use Rattle.extract_grid.specs.Lattice.{Samples};
ghost use Rattle.rule_extract.specs.Lattice.{inside_at};
ghost use Rattle.rule_extract.specs.Paths.{crossed_at};
ghost use Rattle.rule_extract.specs.Drawing.{inner_count, inner_site, inner_quad, quad_if, label_if};
ghost use Rattle.extract_points.specs.Vertices.{AllNumbered};
ghost use Rattle.extract_edges.specs.Rows.{edge_in, RowIn, RowAt, row_count, edge_number};
ghost use Rattle.extract_quads.specs.Faces.{offset_u, offset_w, slot_by, Drawn};

use extract_edges::Row;
use rule_extract::Grid;

// The four cells of an inner edge, in the order of its quad: how far each begins before the edge, along the next
// axis and along the one after.
const OFFSETS: [(usize, usize); 4] = [(1, 1), (0, 1), (0, 0), (1, 0)];

// The slot of the edge j of a row in the cell k of its four.
fn slot_at(g: Grid, n: usize, row: Row, j: usize, k: usize, w: &[u32]) -> u32
    requires all_numbered { AllNumbered g n w.now }
    requires row_in { RowIn n row }
    requires j_bound { j < n - 1 }
    requires axis_value { crossed_at g (inner_site (edge_in row j)) row.axis ≡ true }
    requires k_bound { k < 4 }
    ensures { result ≡ slot_by g n (edge_in row j) (offset_u k) (offset_w k) }
{
    let axis = row.axis;
    let (u, v) = OFFSETS[k];
    let c = extract_edges::place_on(axis, row.a, row.b - u, j + 1 - v);
    w[12 * extract_grid::index_of(n, c) + (axis * 4 + u * 2 + v)]
}

// Puts the quad of the edge j of a row, which begins inside the band or not, and its label.
fn put_quad(
    g: Grid,
    n: usize,
    row: Row,
    j: usize,
    sign: bool,
    w: &[u32],
    place: usize,
    quads: &mut [u32],
    labels: &mut [u8],
)
    requires all_numbered { AllNumbered g n w.now }
    requires row_in { RowIn n row }
    requires j_bound { j < n - 1 }
    requires axis_value { crossed_at g (inner_site (edge_in row j)) row.axis ≡ true }
    requires sign_value { sign ≡ inside_at g (inner_site (edge_in row j)) }
    requires place_in_bounds { 4 * place + 4 ≤ length quads.old }
    requires place_in_bounds_2 { place < length labels.old }
    ensures quads_after { quads.new ≡ with_quad quads.old place (inner_quad g n (edge_in row j)) }
    ensures labels_after { labels.new ≡ set labels.old place
        (crossed_label g (inner_site (edge_in row j)) row.axis) }
{
    let p = slot_at(g, n, row, j, 0, w);
    let q = slot_at(g, n, row, j, 1, w);
    let s = slot_at(g, n, row, j, 2, w);
    let t = slot_at(g, n, row, j, 3, w);
    labels[place] = (s % 8) as u8;
    if sign {
        sheet::put_quad(quads, place, p / 8, q / 8, s / 8, t / 8);
    } else {
        sheet::put_quad(quads, place, t / 8, s / 8, q / 8, p / 8);
    }
}

// Puts the quad and the label of the edge j of the row r, if it crosses; the next place.
fn put_edge(
    g: Grid,
    n: usize,
    r: usize,
    row: Row,
    j: usize,
    place: usize,
    samples: &[f64],
    w: &[u32],
    quads: &mut [u32],
    labels: &mut [u8],
) -> usize
    requires samples { Samples g (n + 1) samples.now }
    requires all_numbered { AllNumbered g n w.now }
    requires row_at { RowAt n r row }
    requires j_bound { j < n - 1 }
    requires drawn { Drawn g n (edge_number n r j) place quads.old labels.old }
    ensures { Drawn g n (edge_number n r j + 1) result quads.new labels.new }
{
    let sign = extract_edges::begins_inside(g, n, row, j, samples);
    if sign == extract_edges::ends_inside(g, n, row, j, samples) {
        return place;
    }
    put_quad(g, n, row, j, sign, w, place, quads, labels);
    place + 1
}

// The same for all edges of the row r.
fn put_row(
    g: Grid,
    n: usize,
    r: usize,
    place: usize,
    samples: &[f64],
    w: &[u32],
    quads: &mut [u32],
    labels: &mut [u8],
) -> usize
    requires samples { Samples g (n + 1) samples.now }
    requires all_numbered { AllNumbered g n w.now }
    requires r_bound { r < row_count n }
    requires drawn { Drawn g n (edge_number n r 0) place quads.old labels.old }
    ensures { Drawn g n (edge_number n (r + 1) 0) result quads.new labels.new }
{
    let row = extract_edges::row_at(n, r);
    let mut next = place;
    for j in 0..n - 1 {
        next = put_edge(g, n, r, row, j, next, samples, w, quads, labels);
    }
    next
}

// Puts the quads and labels of all inner edges that cross, from the front on.
pub fn put_quads(
    g: Grid,
    n: usize,
    samples: &[f64],
    w: &[u32],
    quads: &mut [u32],
    labels: &mut [u8],
)
    requires samples { Samples g (n + 1) samples.now }
    requires all_numbered { AllNumbered g n w.now }
    requires n_in_bounds { 4 * length (join_to (quad_if g n) (inner_count n)) ≤ length quads.old }
    requires n_in_bounds_2 { length (join_to (label_if g n) (inner_count n)) ≤ length labels.old }
    ensures front { Front (flat_quads (join_to (quad_if g n) (inner_count n))) quads.new }
    ensures front_2 { Front (join_to (label_if g n) (inner_count n)) labels.new }
{
    let mut place = 0;
    for r in 0..extract_edges::row_count(n) {
        place = put_row(g, n, r, place, samples, w, quads, labels);
    }
}
