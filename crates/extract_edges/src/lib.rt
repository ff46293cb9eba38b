// The inner edges of the grid, row by row, and how many of them cross the band.

#![tactic(auto)]

ghost use Rattle.std.specs.Prelude.{◌≡◌, ◌+◌, ◌-◌, ◌≤◌, ◌<◌, length};
ghost use Rattle.rule_sheet.specs.Edges.{join_to};
ghost use Rattle.rule_extract.specs.Crossings.{next_site};
ghost use Rattle.extract_grid.specs.Lattice.{Samples};
ghost use Rattle.rule_extract.specs.Lattice.{inside_at};
ghost use Rattle.rule_extract.specs.Drawing.{place_on, inner_count, inner_site, quad_if};
ghost use Rattle.extract_edges.specs.Rows.{edge_in, RowIn, RowAt, row_count, edge_number, Counted};

use rule_extract::{Grid, Site};

// A row of inner edges: those along an axis from its place a, at place b of the next axis. The first one begins at
// the sample `from`; an edge ends at the sample `next` behind, and the edge after it begins `step` behind.
#[derive(Clone, Copy)]
pub struct Row {
    pub axis: usize,
    pub a: usize,
    pub b: usize,
    pub from: usize,
    pub next: usize,
    pub step: usize,
}

// The place a along an axis, b along the next one and d along the one after.
pub fn place_on(axis: usize, a: usize, b: usize, d: usize) -> Site
    ensures { result ≡ place_on axis a b d }
{
    match axis {
        0 => Site { x: a, y: b, z: d },
        1 => Site { x: d, y: a, z: b },
        _ => Site { x: b, y: d, z: a },
    }
}

// The row r.
pub fn row_at(n: usize, r: usize) -> Row
    requires n_bound { n ≤ 130 }
    requires r_bound { r < row_count n }
    ensures { RowAt n r result }
{
    let q = r / (n - 1);
    let axis = q / n;
    let a = q % n;
    let b = r % (n - 1) + 1;
    let c = place_on(axis, a, b, 1);
    Row {
        axis,
        a,
        b,
        from: extract_grid::index_of(n + 1, c),
        next: extract_paths::stride(n + 1, axis),
        step: extract_paths::stride(n + 1, (axis + 2) % 3),
    }
}

// How many rows there are.
pub fn row_count(n: usize) -> usize
    requires { n ≤ 130 }
    ensures value { result ≡ row_count n }
    ensures upper_bound { result ≤ 50700 }
{
    3 * (n * n - n)
}

// Whether the edge j of a row begins inside the band.
pub fn begins_inside(g: Grid, n: usize, row: Row, j: usize, samples: &[f64]) -> bool
    requires samples { Samples g (n + 1) samples.now }
    requires row_in { RowIn n row }
    requires j_bound { j < n - 1 }
    ensures { result ≡ inside_at g (inner_site (edge_in row j)) }
{
    samples[row.from + j * row.step] < 0.0
}

// Whether it ends inside the band.
pub fn ends_inside(g: Grid, n: usize, row: Row, j: usize, samples: &[f64]) -> bool
    requires samples { Samples g (n + 1) samples.now }
    requires row_in { RowIn n row }
    requires j_bound { j < n - 1 }
    ensures { result ≡ inside_at g (next_site (inner_site (edge_in row j)) row.axis) }
{
    samples[row.from + j * row.step + row.next] < 0.0
}

// The count with the quad of the edge j of the row r.
fn count_edge(
    g: Grid,
    n: usize,
    r: usize,
    row: Row,
    j: usize,
    count: usize,
    samples: &[f64],
) -> usize
    requires samples { Samples g (n + 1) samples.now }
    requires row_at { RowAt n r row }
    requires j_bound { j < n - 1 }
    requires counted { Counted g n (edge_number n r j) count }
    ensures { Counted g n (edge_number n r j + 1) result }
{
    let crosses = begins_inside(g, n, row, j, samples) != ends_inside(g, n, row, j, samples);
    count + usize::from(crosses)
}

// The count with the quads of the row r.
fn count_row(g: Grid, n: usize, r: usize, count: usize, samples: &[f64]) -> usize
    requires samples { Samples g (n + 1) samples.now }
    requires r_bound { r < row_count n }
    requires counted { Counted g n (edge_number n r 0) count }
    ensures { Counted g n (edge_number n (r + 1) 0) result }
{
    let row = row_at(n, r);
    let mut next = count;
    for j in 0..n - 1 {
        next = count_edge(g, n, r, row, j, next, samples);
    }
    next
}

// How many quads there are.
pub fn count_quads(g: Grid, n: usize, samples: &[f64]) -> usize
    requires { Samples g (n + 1) samples.now }
    ensures value { result ≡ length (join_to (quad_if g n) (inner_count n)) }
    ensures upper_bound { result ≤ inner_count n }
{
    let mut count = 0;
    for r in 0..row_count(n) {
        count = count_row(g, n, r, count, samples);
    }
    count
}
