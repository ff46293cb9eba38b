// The edges of a sheet. The edge map: is a pair of points an edge? The corners in the order of their edges, and a
// search by halves among those of a smaller point. The walk over the corners in that order: what begins at each place.

#![tactic(auto)]

ghost use Rattle.std.specs.Prelude.{◌≡◌, true, ◌+◌, ◌-◌, ◌*◌, ◌<◌, ◌≤◌, length, get_or, take, ltb};
ghost use Rattle.lists.specs.Sort.{tabulate};
ghost use Rattle.lists.specs.Steps.{count_of};
ghost use Rattle.lists.specs.Regions.{part, Part, Out, Out3, Kept, Three};
ghost use Rattle.rule_sheet.specs.Quads.{all, is_edge};
ghost use Rattle.rule_sheet.specs.Flat.{quads_of};
ghost use Rattle.rule_sheet.specs.Tests.{proper};
ghost use Rattle.sheet.specs.Flat.{to};
ghost use Rattle.sheet.specs.Edges.{larger};
ghost use Rattle.incidence.specs.Corners.{Known, Cornered, edge_order};
ghost use Rattle.edges.specs.Steps.{first_edge, same_edge, linked, goes_on, same_start, kind_at, pair_at, edge_counts};
ghost use Rattle.edges.specs.Conditions.{EdgeMapHolds, Ascending, Narrowed, WalkAsks};

use incidence::Key;

// The places from lo up to hi.
#[derive(Clone, Copy)]
struct Span {
    lo: usize,
    hi: usize,
}

// What begins at a place in edge order: no edge, one with one corner, with two from different ends, with two from the
// same end, with more.
#[derive(Clone, Copy, PartialEq, Eq)]
pub enum EdgeKind {
    Nothing,
    Boundary,
    Opposite,
    Turned,
    Nonmanifold,
}

// The edges with one quad, with more than two, and with two that run the same way.
#[derive(Clone, Copy)]
pub struct EdgeCounts {
    pub boundary: usize,
    pub nonmanifold: usize,
    pub orientation: usize,
}

// Copies nq quads to the region at was.
pub fn copy_quads(nq: usize, quads: &[u32], was: usize, w: &mut [u32])
    requires nq_in_bounds { 4 * nq ≤ length quads.now }
    requires nq_in_bounds_2 { was + 4 * nq ≤ length w.old }
    ensures part { Part was (4 * nq) (take (4 * nq) quads.now) w.new }
    ensures kept { Kept (Out was (4 * nq)) w.old w.new }
{
    lists::copy(&mut w[was..was + 4 * nq], &quads[..4 * nq]);
}

// The corners of nq quads by ascending (smaller, larger) point of their edges in the region at order, and where those
// of each smaller point begin in the np + 1 elements at starts. The region at first is work.
pub fn edge_map(
    np: usize,
    nq: usize,
    quads: &[u32],
    first: usize,
    starts: usize,
    order: usize,
    w: &mut [u32],
)
    requires cornered { Cornered np nq quads.now }
    requires three { Three first (4 * nq) starts (np + 1) order (4 * nq) w.old }
    ensures part { Part order (4 * nq) (edge_order np nq quads.now) w.new }
    ensures part_2 { Part starts (np + 1) (tabulate (first_edge np nq quads.now) (np + 1)) w.new }
    ensures kept { Kept (Out3 first (4 * nq) starts (np + 1) order (4 * nq)) w.old w.new }
{
    incidence::edge_order(np, nq, quads, first, starts + 1, order, w);
    w[starts] = 0;
}

// The half of s in which the first corner stands whose larger point is not below b.
fn halved(quads: &[u32], corners: &[u32], b: usize, s: Span) -> Span
    requires ascending { Ascending quads.now corners.now }
    requires narrowed { Narrowed quads.now corners.now b s.lo s.hi }
    requires lo_lt_hi { s.lo < s.hi }
    ensures narrowed_2 { Narrowed quads.now corners.now b result.lo result.hi }
    ensures lo_bound { 2 * (result.hi - result.lo) ≤ s.hi - s.lo }
{
    let mid = s.lo + (s.hi - s.lo) / 2;
    let c = lists::at(corners, mid);
    if incidence::key_at(quads, Key::Larger, c) < b {
        return Span {
            lo: mid + 1,
            hi: s.hi,
        };
    }
    Span { lo: s.lo, hi: mid }
}

// Where the first corner stands whose larger point is not below b. The library's `partition_point` would read a key of
// any number, and only the quads' own corners have one.
fn first_from(quads: &[u32], corners: &[u32], b: usize) -> usize
    requires { Ascending quads.now corners.now }
    ensures { Narrowed quads.now corners.now b result result }
{
    let mut s = Span {
        lo: 0,
        hi: corners.len(),
    };
    while s.lo < s.hi {
        s = halved(quads, corners, b, s);
    }
    s.lo
}

// Whether one of the corners has the larger point b.
fn has_larger(quads: &[u32], corners: &[u32], b: usize) -> bool
    requires { Ascending quads.now corners.now }
    ensures { result ≡ ltb 0 (count_of (larger quads.now) corners.now b) }
{
    let i = first_from(quads, corners, b);
    if i < corners.len() {
        let c = lists::at(corners, i);
        return incidence::key_at(quads, Key::Larger, c) == b;
    }
    false
}

// Whether a and b, the smaller one first, are an edge of the map.
fn is_rising_edge(
    np: usize,
    nq: usize,
    was: usize,
    starts: usize,
    order: usize,
    a: usize,
    b: usize,
    w: &[u32],
) -> bool
    requires edge_map_holds { EdgeMapHolds np nq was starts order w.now }
    requires a_le_b { a ≤ b }
    requires b_lt_np { b < np }
    ensures { result ≡ is_edge (quads_of nq (part was (4 * nq) w.now)) a b }
{
    let s = lists::at(w, starts + a);
    let e = lists::at(w, starts + a + 1);
    has_larger(&w[was..was + 4 * nq], &w[order + s..order + e], b)
}

// Whether u and v are an edge of the map.
pub fn is_edge(
    np: usize,
    nq: usize,
    was: usize,
    starts: usize,
    order: usize,
    u: usize,
    v: usize,
    w: &[u32],
) -> bool
    requires edge_map_holds { EdgeMapHolds np nq was starts order w.now }
    requires u_lt_np { u < np }
    requires v_lt_np { v < np }
    ensures { result ≡ is_edge (quads_of nq (part was (4 * nq) w.now)) u v }
{
    is_rising_edge(np, nq, was, starts, order, u.min(v), u.max(v), w)
}

// ---- the walk over the corners in edge order

// The point after corner c in its quad.
pub fn point_after(quads: &[u32], c: usize) -> usize
    requires { Known quads.now c }
    ensures { result ≡ to quads.now c }
{
    lists::at(quads, c / 4 * 4 + (c + 1) % 4)
}

// The corners c and d begin the same edge.
pub fn same_edge(quads: &[u32], c: usize, d: usize) -> bool
    requires known { Known quads.now c }
    requires known_2 { Known quads.now d }
    ensures { result ≡ same_edge quads.now c d }
{
    let a = lists::at(quads, c);
    let b = point_after(quads, c);
    let e = lists::at(quads, d);
    let f = point_after(quads, d);
    ((a == e) & (b == f)) | ((a == f) & (b == e))
}

// The corner at place i of the n at order.
pub fn place_at(order: usize, n: usize, i: usize, w: &[u32]) -> usize
    requires n_in_bounds { order + n ≤ length w.now }
    requires i_lt_n { i < n }
    ensures { result ≡ get_or (part order n w.now) i 0 }
{
    lists::at(w, order + i)
}

// There is a place j, and its corner begins the same edge as that of place i.
fn is_linked(quads: &[u32], order: usize, n: usize, i: usize, j: usize, w: &[u32]) -> bool
    requires walk_asks { WalkAsks quads.now order n w.now }
    requires i_lt_n { i < n }
    ensures { result ≡ linked quads.now n (part order n w.now) i j }
{
    if j >= n {
        return false;
    }
    same_edge(quads, place_at(order, n, i, w), place_at(order, n, j, w))
}

// The corner of place i begins the same edge as that of the place before.
fn goes_on(quads: &[u32], order: usize, n: usize, i: usize, w: &[u32]) -> bool
    requires walk_asks { WalkAsks quads.now order n w.now }
    requires i_lt_n { i < n }
    ensures { result ≡ goes_on quads.now (part order n w.now) i }
{
    if i == 0 {
        return false;
    }
    same_edge(
        quads,
        place_at(order, n, i - 1, w),
        place_at(order, n, i, w),
    )
}

// The corners of the places i and i + 1 begin at the same point.
fn same_start(quads: &[u32], order: usize, n: usize, i: usize, w: &[u32]) -> bool
    requires walk_asks { WalkAsks quads.now order n w.now }
    requires i_bound { i + 1 < n }
    ensures { result ≡ same_start quads.now (part order n w.now) i }
{
    let a = lists::at(quads, place_at(order, n, i, w));
    let b = lists::at(quads, place_at(order, n, i + 1, w));
    a == b
}

// What begins at place i.
fn kind_at(quads: &[u32], order: usize, n: usize, i: usize, w: &[u32]) -> EdgeKind
    requires walk_asks { WalkAsks quads.now order n w.now }
    requires i_lt_n { i < n }
    ensures { result ≡ kind_at quads.now n (part order n w.now) i }
{
    if goes_on(quads, order, n, i, w) {
        return EdgeKind::Nothing;
    }
    if !is_linked(quads, order, n, i, i + 1, w) {
        return EdgeKind::Boundary;
    }
    if is_linked(quads, order, n, i, i + 2, w) {
        return EdgeKind::Nonmanifold;
    }
    if same_start(quads, order, n, i, w) {
        return EdgeKind::Turned;
    }
    EdgeKind::Opposite
}

// An edge of exactly two corners begins at place i.
pub fn is_pair(quads: &[u32], order: usize, n: usize, i: usize, w: &[u32]) -> bool
    requires walk_asks { WalkAsks quads.now order n w.now }
    requires i_lt_n { i < n }
    ensures { result ≡ pair_at quads.now n (part order n w.now) i }
{
    matches!(
        kind_at(quads, order, n, i, w),
        EdgeKind::Opposite | EdgeKind::Turned
    )
}

// Counts the edges of each kind in the corners of nq quads in edge order, at order.
pub fn edge_counts(np: usize, nq: usize, quads: &[u32], order: usize, w: &[u32]) -> EdgeCounts
    requires cornered { Cornered np nq quads.now }
    requires quads_value { all (proper np) (quads_of nq quads.now) ≡ true }
    requires part { Part order (4 * nq) (edge_order np nq quads.now) w.now }
    ensures { result ≡ edge_counts np (quads_of nq quads.now) }
{
    let n = 4 * nq;
    let mut boundary = 0;
    let mut nonmanifold = 0;
    let mut orientation = 0;
    for i in 0..n {
        match kind_at(quads, order, n, i, w) {
            EdgeKind::Nothing => {}
            EdgeKind::Boundary => boundary += 1,
            EdgeKind::Opposite => {}
            EdgeKind::Turned => orientation += 1,
            EdgeKind::Nonmanifold => nonmanifold += 1,
        }
    }
    EdgeCounts {
        boundary,
        nonmanifold,
        orientation,
    }
}
