// The paths of all crossings of the grid, in twelve slots a cell: slot 12 × e + j is for the edge j of the cell
// with the number e. Each crossing is sampled once: a cell takes over what the cell before it has found.

#![tactic(auto)]

ghost use Rattle.std.specs.Prelude.{◌≡◌, true, ◌+◌, ◌*◌, ◌≤◌, ◌<◌, length};
ghost use Rattle.rule_extract.specs.Cells.{bit_of};
ghost use Rattle.extract_cells.specs.Cells.{kind_of};
ghost use Rattle.extract_grid.specs.Lattice.{Samples};
ghost use Rattle.rule_extract.specs.Lattice.{inside_at, case_of, edge_site};
ghost use Rattle.rule_extract.specs.Paths.{edge_crosses};
ghost use Rattle.extract_paths.specs.Paths.{edge_path, Pathed, along_of, stride_of, source_of, CellAt};

use rule_extract::{Grid, Site};

// The place of c along an axis.
fn along(c: Site, axis: usize) -> usize
    ensures { result ≡ along_of c axis }
{
    match axis {
        0 => c.x,
        1 => c.y,
        _ => c.z,
    }
}

// How far the numbers of two places next to each other along an axis are apart, in a grid of n places a side.
pub fn stride(n: usize, axis: usize) -> usize
    requires { n ≤ 131 }
    ensures { result ≡ stride_of n axis }
{
    match axis {
        0 => n * n,
        1 => n,
        _ => 1,
    }
}

// The slot of the same edge in the cell before c along one of the two other axes, or the slot itself.
fn source(n: usize, c: Site, e: usize, slot: usize, j: usize) -> usize
    requires cell_at { CellAt n c e (12 * e + 12) }
    requires j_bound { j < 12 }
    requires slot_value { slot ≡ 12 * e + j }
    ensures { result ≡ source_of n c slot j }
{
    let u = (j / 4 + 1) % 3;
    if (j / 2 % 2 == 0) & (0 < along(c, u)) {
        return slot + 2 - 12 * stride(n, u);
    }
    let w = (j / 4 + 2) % 3;
    if (j % 2 == 0) & (0 < along(c, w)) {
        return slot + 1 - 12 * stride(n, w);
    }
    slot
}

// The path of the crossing on the edge j of a cell, which begins inside the band or not.
fn edge_path(g: Grid, n: usize, sign: bool, c: Site, e: usize, j: usize, w: &[u32]) -> u32
    requires cell_at { CellAt n c e (length w.now) }
    requires j_bound { j < 12 }
    requires pathed { Pathed g n w.now (12 * e + j) }
    requires j_value { edge_crosses g c j ≡ true }
    requires sign_value { sign ≡ inside_at g (edge_site c j) }
    ensures { result ≡ edge_path g c j }
{
    let slot = 12 * e + j;
    let s = source(n, c, e, slot, j);
    if s < slot {
        return w[s];
    }
    extract_crossings::path(g, sign, extract_grid::edge_site(c, j), j / 4)
}

// Stores the path of the edge j of a cell, if it crosses.
fn put_path(g: Grid, n: usize, case: u32, kind: u32, c: Site, e: usize, j: usize, w: &mut [u32])
    requires cell_at { CellAt n c e (length w.old) }
    requires j_bound { j < 12 }
    requires pathed { Pathed g n w.old (12 * e + j) }
    requires case_value { case ≡ case_of g c }
    requires kind_value { kind ≡ kind_of (bit_of case) }
    ensures { Pathed g n w.new (12 * e + j + 1) }
{
    if extract_cells::bit(kind, j as u32) {
        let sign = extract_cells::bit(case, extract_cells::low_end(j));
        let p = edge_path(g, n, sign, c, e, j, w);
        w[12 * e + j] = p;
    }
}

// Stores the paths of a cell.
fn put_cell(g: Grid, n: usize, case: u32, c: Site, e: usize, w: &mut [u32])
    requires cell_at { CellAt n c e (length w.old) }
    requires pathed { Pathed g n w.old (12 * e) }
    requires case_value { case ≡ case_of g c }
    ensures { Pathed g n w.new (12 * (e + 1)) }
{
    let kind = extract_cells::cell_kind(case);
    for j in 0..12 {
        put_path(g, n, case, kind, c, e, j, w);
    }
}

// The same for the cell with the number e, if its corners differ.
fn put_cell_at(g: Grid, n: usize, e: usize, samples: &[f64], w: &mut [u32])
    requires samples { Samples g (n + 1) samples.now }
    requires e_bound { e < n * n * n }
    requires e_in_bounds { 12 * e + 12 ≤ length w.old }
    requires pathed { Pathed g n w.old (12 * e) }
    ensures { Pathed g n w.new (12 * (e + 1)) }
{
    let c = extract_grid::site_at(n, e);
    let case = extract_grid::case_at(samples, n + 1, c);
    if case == 0 || case == 255 {
        return;
    }
    put_cell(g, n, case, c, e, w);
}

// Stores the paths of all cells.
pub fn put_paths(g: Grid, n: usize, count: usize, samples: &[f64], w: &mut [u32])
    requires samples { Samples g (n + 1) samples.now }
    requires count_bound { count ≤ n * n * n }
    requires count_in_bounds { 12 * count ≤ length w.old }
    ensures { Pathed g n w.new (12 * count) }
{
    for e in 0..count {
        put_cell_at(g, n, e, samples, w);
    }
}
