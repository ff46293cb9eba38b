// The sheet that extraction draws, from the samples of the grid and the paths of its crossings.

#![tactic(auto)]

ghost use Rattle.std.specs.Prelude.{◌≡◌, true, map, ◌+◌, ◌*◌, ◌^◌, ◌≤◌, ◌<◌, length, get_or};
ghost use Rattle.rule_sheet.specs.Lent.{limit};
ghost use Rattle.rule_extract.specs.Lattice.{site_at, case_of};
ghost use Rattle.extract_grid.specs.Lattice.{Samples};
ghost use Rattle.rule_extract.specs.Cells.{bit_of};
ghost use Rattle.extract_cells.specs.Cells.{kind_of};
ghost use Rattle.rule_extract.specs.Paths.{edge_crosses};
ghost use Rattle.extract_paths.specs.Paths.{edge_path, CellAt, Pathed};
ghost use Rattle.rule_extract.specs.Drawing.{crossing_at, members_of, mean_of, group_points, cell_points, points_in};
ghost use Rattle.rule_extract.specs.Drawing.{points_to};
ghost use Rattle.extract_points.specs.Slots.{is_member_in, has_in, rank_in, Known, CellPaths, added_if, put_points};
ghost use Rattle.extract_points.specs.Slots.{label_of, numbered_if, Numbered};
ghost use Rattle.rule_sheet.specs.Sheet.{flat_points};
ghost use Rattle.sheet.specs.Results.{Front};
ghost use Rattle.extract_points.specs.Vertices.{AllNumbered};

use points::Point;
use rule_extract::{Grid, Site};

// The sum of some crossings, and how many they are.
#[derive(Clone, Copy)]
pub struct Sum {
    pub point: Point,
    pub count: usize,
}

// ---- the groups of a cell

// Whether an edge crosses and has the group k.
fn is_member(kind: u32, group: u32, k: u32, e: usize) -> bool
    requires { e < 12 }
    ensures { result ≡ is_member_in kind group k e }
{
    extract_cells::bit(kind, e as u32) & (group == k)
}

// Whether the group k has a crossing.
fn has_member(kind: u32, groups: [u32; 12], k: u32) -> bool
    ensures { result ≡ has_in kind groups k }
{
    for (e, group) in groups.iter().enumerate() {
        if is_member(kind, *group, k, e) {
            return true;
        }
    }
    false
}

// How many of the groups below k have a crossing.
fn rank(kind: u32, groups: [u32; 12], k: u32) -> usize
    requires { k ≤ 12 }
    ensures value { result ≡ rank_in kind groups k }
    ensures upper_bound { result ≤ 12 }
{
    let mut count = 0;
    for i in 0..k {
        count += usize::from(has_member(kind, groups, i));
    }
    count
}

// ---- counts

// How many points the cell with the number e has.
fn cell_count(g: Grid, n: usize, e: usize, samples: &[f64]) -> usize
    requires samples { Samples g (n + 1) samples.now }
    requires e_bound { e < n * n * n }
    ensures value { result ≡ length (points_in g n e) }
    ensures upper_bound { result ≤ 12 }
{
    let c = extract_grid::site_at(n, e);
    let case = extract_grid::case_at(samples, n + 1, c);
    if case == 0 || case == 255 {
        return 0;
    }
    let kind = extract_cells::cell_kind(case);
    let groups = extract_grid::cell_groups(g, c, case, kind);
    rank(kind, groups, 12)
}

// How many points the first cells have.
pub fn count_points(g: Grid, n: usize, count: usize, samples: &[f64]) -> usize
    requires samples { Samples g (n + 1) samples.now }
    requires count_bound { count ≤ n * n * n }
    ensures value { result ≡ length (points_to g n count) }
    ensures upper_bound { result ≤ 12 * count }
{
    let mut total = 0;
    for e in 0..count {
        total += cell_count(g, n, e, samples);
    }
    total
}

// ---- the point of a group

// The crossing on the edge e of the cell at c, which has the number i, by its path.
fn crossing_at(g: Grid, n: usize, c: Site, i: usize, e: usize, w: &[u32]) -> Point
    requires cell_at { CellAt n c i (length w.now) }
    requires e_bound { e < 12 }
    requires e_value { get_or w.now (12 * i + e) 0 ≡ edge_path g c e }
    ensures { result ≡ crossing_at g c e }
{
    extract_crossings::replay(g, extract_grid::edge_site(c, e), e / 4, w[12 * i + e])
}

// The sum with the crossing on the edge e, if it is of the group k.
fn add_member(
    g: Grid,
    n: usize,
    c: Site,
    i: usize,
    kind: u32,
    group: u32,
    k: u32,
    e: usize,
    w: &[u32],
    s: Sum,
) -> Sum
    requires cell_at { CellAt n c i (length w.now) }
    requires cell_paths { CellPaths g c i w.now }
    requires e_bound { e < 12 }
    requires kind_value { kind ≡ kind_of (bit_of (case_of g c)) }
    requires count_bound { s.count ≤ 12 }
    ensures { result ≡ added_if (is_member_in kind group k e) s (crossing_at g c e) }
{
    if is_member(kind, group, k, e) {
        let p = crossing_at(g, n, c, i, e, w);
        let q = s.point;
        return Sum {
            point: points::add(q, p),
            count: s.count + 1,
        };
    }
    s
}

// The mean of the crossings of the group k.
fn group_mean(
    g: Grid,
    n: usize,
    c: Site,
    i: usize,
    kind: u32,
    groups: [u32; 12],
    k: u32,
    w: &[u32],
) -> Point
    requires cell_at { CellAt n c i (length w.now) }
    requires cell_paths { CellPaths g c i w.now }
    requires known { Known g c kind groups }
    ensures { result ≡ mean_of (map (crossing_at g c) (members_of g c k)) }
{
    let mut s = Sum {
        point: points::origin(),
        count: 0,
    };
    for (e, group) in groups.iter().enumerate() {
        s = add_member(g, n, c, i, kind, *group, k, e, w, s);
    }
    points::mul(s.point, 1.0 / numeric::float(s.count))
}

// Puts the point of the group k to place `place` if it has one; the next place.
fn put_group(
    g: Grid,
    n: usize,
    c: Site,
    i: usize,
    kind: u32,
    groups: [u32; 12],
    k: u32,
    place: usize,
    w: &[u32],
    out: &mut [f64],
) -> usize
    requires cell_at { CellAt n c i (length w.now) }
    requires cell_paths { CellPaths g c i w.now }
    requires known { Known g c kind groups }
    requires place_bound { place < 2 ^ 32 }
    requires k_in_bounds { 3 * (place + length (group_points g c k)) ≤ length out.old }
    ensures value { result ≡ place + length (group_points g c k) }
    ensures out_after { out.new ≡ put_points (group_points g c k) place out.old }
{
    if has_member(kind, groups, k) {
        let p = group_mean(g, n, c, i, kind, groups, k, w);
        points::put_point(out, place, p);
        return place + 1;
    }
    place
}

// Puts the points of a cell from place `place` on; the next place.
fn put_groups(
    g: Grid,
    n: usize,
    c: Site,
    i: usize,
    kind: u32,
    groups: [u32; 12],
    place: usize,
    w: &[u32],
    out: &mut [f64],
) -> usize
    requires cell_at { CellAt n c i (length w.now) }
    requires cell_paths { CellPaths g c i w.now }
    requires known { Known g c kind groups }
    requires place_bound { place + 12 < 2 ^ 32 }
    requires c_in_bounds { 3 * (place + length (cell_points g c)) ≤ length out.old }
    ensures value { result ≡ place + length (cell_points g c) }
    ensures out_after { out.new ≡ put_points (cell_points g c) place out.old }
{
    let mut next = place;
    for k in 0..12 {
        next = put_group(g, n, c, i, kind, groups, k, next, w, out);
    }
    next
}

// ---- the numbers of the points

// The label of the crossing on the edge e, where the edge begins at the cell's own place.
fn slot_label(g: Grid, n: usize, c: Site, i: usize, e: usize, w: &[u32]) -> u32
    requires cell_at { CellAt n c i (length w.now) }
    requires e_bound { e < 12 }
    requires e_value { get_or w.now (12 * i + e) 0 ≡ edge_path g c e }
    ensures value { result ≡ label_of g c e }
    ensures upper_bound { result < 8 }
{
    if e % 4 == 0 {
        return u32::from(extract_samples::sample(g, crossing_at(g, n, c, i, e, w)).label);
    }
    0
}

// Puts the number of the point of the edge e into its slot, if the edge crosses.
fn put_number(
    g: Grid,
    n: usize,
    c: Site,
    i: usize,
    kind: u32,
    groups: [u32; 12],
    first: usize,
    e: usize,
    w: &mut [u32],
)
    requires cell_at { CellAt n c i (length w.old) }
    requires e_bound { e < 12 }
    requires known { Known g c kind groups }
    requires first_bound { first < 2 ^ 28 }
    requires e_value { edge_crosses g c e ≡ true → get_or w.old (12 * i + e) 0 ≡ edge_path g c e }
    ensures { w.new ≡ numbered_if g c i first kind groups e w.old }
{
    if extract_cells::bit(kind, e as u32) {
        let label = slot_label(g, n, c, i, e, w);
        let number = first + rank(kind, groups, groups[e]);
        w[12 * i + e] = 8 * (number as u32) + label;
    }
}

// Puts the numbers of the points of a cell into its slots; `first` is the number of its first point.
fn put_numbers(
    g: Grid,
    n: usize,
    c: Site,
    i: usize,
    kind: u32,
    groups: [u32; 12],
    first: usize,
    w: &mut [u32],
)
    requires cell_at { CellAt n c i (length w.old) }
    requires cell_paths { CellPaths g c i w.old }
    requires known { Known g c kind groups }
    requires first_bound { first < 2 ^ 28 }
    requires first_value { first ≡ length (points_to g n i) }
    ensures { Numbered g n c i w.old w.new }
{
    for e in 0..12 {
        put_number(g, n, c, i, kind, groups, first, e, w);
    }
}

// Puts the points of a cell from place `place` on and their numbers into its slots; the next place.
fn draw_cell(
    g: Grid,
    n: usize,
    case: u32,
    c: Site,
    i: usize,
    place: usize,
    w: &mut [u32],
    out: &mut [f64],
) -> usize
    requires cell_at { CellAt n c i (length w.old) }
    requires cell_paths { CellPaths g c i w.old }
    requires case_value { case ≡ case_of g c }
    requires place_bound { place < 2 ^ 28 }
    requires place_value { place ≡ length (points_to g n i) }
    requires c_in_bounds { 3 * (place + length (cell_points g c)) ≤ length out.old }
    ensures value { result ≡ place + length (cell_points g c) }
    ensures out_after { out.new ≡ put_points (cell_points g c) place out.old }
    ensures numbered { Numbered g n c i w.old w.new }
{
    let kind = extract_cells::cell_kind(case);
    let groups = extract_grid::cell_groups(g, c, case, kind);
    let next = put_groups(g, n, c, i, kind, groups, place, w, out);
    put_numbers(g, n, c, i, kind, groups, place, w);
    next
}

// The same for the cell with the number e, if its corners differ.
pub fn draw_cell_at(
    g: Grid,
    n: usize,
    e: usize,
    place: usize,
    samples: &[f64],
    w: &mut [u32],
    out: &mut [f64],
) -> usize
    requires samples { Samples g (n + 1) samples.now }
    requires e_bound { e < n * n * n }
    requires cell_paths { CellPaths g (site_at n e) e w.old }
    requires place_bound { place < 2 ^ 28 }
    requires place_value { place ≡ length (points_to g n e) }
    requires e_in_bounds { 3 * (place + length (points_in g n e)) ≤ length out.old }
    ensures value { result ≡ place + length (points_in g n e) }
    ensures out_after { out.new ≡ put_points (points_in g n e) place out.old }
    ensures numbered { Numbered g n (site_at n e) e w.old w.new }
{
    let c = extract_grid::site_at(n, e);
    let case = extract_grid::case_at(samples, n + 1, c);
    if case == 0 || case == 255 {
        return place;
    }
    draw_cell(g, n, case, c, e, place, w, out)
}

// ---- all cells

// Draws the points of all cells in order, and their numbers into the slots; answers how many points.
pub fn draw_points(g: Grid, n: usize, samples: &[f64], w: &mut [u32], out: &mut [f64]) -> usize
    requires samples { Samples g (n + 1) samples.now }
    requires pathed { Pathed g n w.old (12 * (n * n * n)) }
    requires n_len_bound { length (points_to g n (n * n * n)) ≤ limit }
    requires n_in_bounds { 3 * length (points_to g n (n * n * n)) ≤ length out.old }
    ensures value { result ≡ length (points_to g n (n * n * n)) }
    ensures front { Front (flat_points (points_to g n (n * n * n))) out.new }
    ensures all_numbered { AllNumbered g n w.new }
{
    let mut place = 0;
    for e in 0..n * n * n {
        place = draw_cell_at(g, n, e, place, samples, w, out);
    }
    place
}
