// What a swap reads and writes: the quads, and in regions of one work slice the map of the pass's start, the valences
// and the barred quads.

#![tactic(auto)]

ghost use Rattle.std.specs.Prelude.{◌≡◌, ◌+◌, ◌-◌, ◌*◌, ◌/◌, ◌%◌, ◌<◌, ◌≤◌, ◌^◌, length, get_or};
ghost use Rattle.rule_sheet.specs.Flat.{quads_of};
ghost use Rattle.rule_sheet.specs.Claims.{All, Differ};
ghost use Rattle.rule_sheet.specs.Lent.{limit};
ghost use Rattle.lists.specs.Sort.{tabulate};
ghost use Rattle.lists.specs.Regions.{part, Part, Out, Kept};
ghost use Rattle.incidence.specs.Corners.{Known};
ghost use Rattle.incidence.specs.Marks.{barred_by};
ghost use Rattle.incidence.specs.Bounds.{Bounded};
ghost use Rattle.edges.specs.Steps.{pair_at};
ghost use Rattle.regularize_shapes.specs.SwapFits.{diagonal_of, SixBelow};
ghost use Rattle.pass_map.specs.Regions.{was_in, edges_in};
ghost use Rattle.pass_map.specs.Conditions.{WorkFits, MapAsks, MapHolds};
ghost use Rattle.regularize_swap.specs.Regions.{marks_at, marks_in, free_in, sum_in, edge_corner};
ghost use Rattle.regularize_swap.specs.Steps.{six_at, six_apart, is_hexagon, open_in, gains_in, better_in};
ghost use Rattle.regularize_swap.specs.Steps.{with_pair, moved, mark_if, uses_three, uses_six};
ghost use Rattle.regularize_swap.specs.Conditions.{SwapPassHolds, BeginPassLeaves, ChangeAsks, ChangeLeaves};
ghost use Rattle.regularize_swap.specs.Conditions.{MoveValencesAsks, MakeSwapAsks, MakeSwapLeaves};

use regularize_shapes::{Diagonal, Six};

// Where the marks of barred quads begin in the work slice, in units of all points and quads together.
const MARKS: usize = 22;

// An edge of exactly two corners begins at place i in the order of the edges.
pub fn is_pair(np: usize, nq: usize, i: usize, w: &[u32]) -> bool
    requires map_holds { MapHolds np nq w.now }
    requires i_bound { i < 4 * nq }
    ensures { result ≡ pair_at (was_in np nq w.now) (4 * nq) (edges_in np nq w.now) i }
{
    let n = np + nq;
    let was = pass_map::WAS * n;
    edges::is_pair(&w[was..was + 4 * nq], pass_map::EDGES * n, 4 * nq, i, w)
}

// The quads i and j are not barred, and their labels agree.
pub fn is_free(np: usize, nq: usize, labels: &[u8], i: usize, j: usize, w: &[u32]) -> bool
    requires work_fits { WorkFits np nq w.now }
    requires nq_in_bounds { nq ≤ length labels.now }
    requires i_lt_nq { i < nq }
    requires j_lt_nq { j < nq }
    ensures { result ≡ free_in np nq labels.now w.now i j }
{
    let marks = MARKS * (np + nq);
    let a = lists::at(w, marks + i);
    let b = lists::at(w, marks + j);
    (a == 0) & (b == 0) & (lists::byte_at(labels, i) == lists::byte_at(labels, j))
}

// The corner k steps behind corner c in its quad.
fn corner_from(quads: &[u32], c: usize, k: usize) -> usize
    requires known { Known quads.now c }
    requires k_bound { k < 4 }
    ensures { result ≡ get_or quads.now (c / 4 * 4 + (c + k) % 4) 0 }
{
    lists::at(quads, c / 4 * 4 + (c + k) % 4)
}

// The six corners round the quads of the corners c and d, from their shared edge on.
pub fn six_at(quads: &[u32], c: usize, d: usize) -> Six
    requires known { Known quads.now c }
    requires known_2 { Known quads.now d }
    ensures { result ≡ six_at quads.now c d }
{
    Six {
        h0: lists::at(quads, c),
        h1: corner_from(quads, d, 2),
        h2: corner_from(quads, d, 3),
        h3: corner_from(quads, c, 1),
        h4: corner_from(quads, c, 2),
        h5: corner_from(quads, c, 3),
    }
}

// No two of the six corners are equal.
fn six_differ(h: Six) -> bool
    ensures { result ≡ six_apart h }
{
    let first = (h.h0 != h.h1) & (h.h0 != h.h2) & (h.h0 != h.h3) & (h.h0 != h.h4) & (h.h0 != h.h5);
    let second = (h.h1 != h.h2) & (h.h1 != h.h3) & (h.h1 != h.h4) & (h.h1 != h.h5);
    let third = (h.h2 != h.h3) & (h.h2 != h.h4) & (h.h2 != h.h5);
    let last = (h.h3 != h.h4) & (h.h3 != h.h5) & (h.h4 != h.h5);
    first & second & third & last
}

// The quad of corner d goes along the edge the other way, and the six corners differ.
pub fn is_hexagon(quads: &[u32], d: usize, h: Six) -> bool
    requires { Known quads.now d }
    ensures { result ≡ is_hexagon quads.now d h }
{
    let back = corner_from(quads, d, 1);
    (back == h.h0) & (lists::at(quads, d) == h.h3) & six_differ(h)
}

// The sum of the valences of u and v.
fn valence_sum(np: usize, nq: usize, u: usize, v: usize, w: &[u32]) -> usize
    requires work_fits { WorkFits np nq w.now }
    requires u_lt_np { u < np }
    requires v_lt_np { v < np }
    ensures value { result ≡ sum_in np nq w.now u v }
    ensures upper_bound { result < 2 ^ 33 }
{
    let val = pass_map::VALENCES * (np + nq);
    lists::at(w, val + u) + lists::at(w, val + v)
}

// The diagonal k is no edge of the pass's start, and half its gain is at least `least`.
pub fn is_open(np: usize, nq: usize, least: usize, h: Six, k: usize, w: &[u32]) -> bool
    requires map_holds { MapHolds np nq w.now }
    requires six_below { SixBelow np h }
    requires least_bound { least ≤ 1 }
    ensures { result ≡ open_in np nq least h (diagonal_of k) w.now }
{
    let g = regularize_shapes::turned_by(h, Diagonal::of(k));
    let after = valence_sum(np, nq, g.h0, g.h3, w) + 2 + least;
    if valence_sum(np, nq, h.h0, h.h3, w) < after {
        return false;
    }
    !pass_map::is_edge(np, nq, g.h0, g.h3, w)
}

// The diagonal k gains more than 0.
pub fn gains(np: usize, nq: usize, h: Six, k: usize, w: &[u32]) -> bool
    requires work_fits { WorkFits np nq w.now }
    requires six_below { SixBelow np h }
    ensures { result ≡ gains_in np nq h (diagonal_of k) w.now }
{
    let g = regularize_shapes::turned_by(h, Diagonal::of(k));
    let after = valence_sum(np, nq, g.h0, g.h3, w) + 2;
    after < valence_sum(np, nq, h.h0, h.h3, w)
}

// The second diagonal gains more than the first.
pub fn is_second_better(np: usize, nq: usize, h: Six, w: &[u32]) -> bool
    requires work_fits { WorkFits np nq w.now }
    requires six_below { SixBelow np h }
    ensures { result ≡ better_in np nq h w.now }
{
    let second = valence_sum(np, nq, h.h2, h.h5, w);
    second < valence_sum(np, nq, h.h1, h.h4, w)
}

// The corner at place i in the order of the edges.
pub fn edge_corner(np: usize, nq: usize, i: usize, w: &[u32]) -> usize
    requires map_holds { MapHolds np nq w.now }
    requires i_bound { i < 4 * nq }
    ensures value { result ≡ edge_corner np nq w.now i }
    ensures upper_bound { result < 4 * nq }
{
    lists::at(w, pass_map::EDGES * (np + nq) + i)
}

// Puts the quads on both sides of the diagonal from h0 to h3 at the places i and j.
fn put_pair(quads: &mut [u32], i: usize, j: usize, g: Six)
    requires i_in_bounds { 4 * i + 3 < length quads.old }
    requires j_in_bounds { 4 * j + 3 < length quads.old }
    requires six_below { SixBelow limit g }
    ensures { quads.new ≡ with_pair quads.old i j g }
{
    sheet::put_quad(quads, i, g.h0 as u32, g.h1 as u32, g.h2 as u32, g.h3 as u32);
    sheet::put_quad(quads, j, g.h0 as u32, g.h3 as u32, g.h4 as u32, g.h5 as u32);
}

// One quad less at the point v.
fn one_less(np: usize, val: usize, v: usize, w: &mut [u32])
    requires change_asks { ChangeAsks val np v w.old }
    requires bound { 1 ≤ get_or w.old (val + v) 0 }
    ensures { ChangeLeaves val np v (get_or w.old (val + v) 0 - 1) w.old w.new }
{
    w[val + v] = w[val + v] - 1;
}

// One quad more at the point v, whose valence has not reached the limit.
fn one_more(np: usize, val: usize, v: usize, w: &mut [u32])
    requires change_asks { ChangeAsks val np v w.old }
    requires v_bound { get_or w.old (val + v) 0 < limit }
    ensures { ChangeLeaves val np v (get_or w.old (val + v) 0 + 1) w.old w.new }
{
    w[val + v] = w[val + v] + 1;
}

// One quad less at a and b, one more at c and d.
fn move_valences(np: usize, val: usize, a: usize, b: usize, c: usize, d: usize, w: &mut [u32])
    requires np_in_bounds { val + np ≤ length w.old }
    requires move_valences_asks { MoveValencesAsks np (part val np w.old) a b c d }
    requires bounded { Bounded val np w.old }
    ensures part { Part val np (moved (part val np w.old) a b c d) w.new }
    ensures kept { Kept (Out val np) w.old w.new }
    ensures bounded_2 { Bounded val np w.new }
{
    one_less(np, val, a, w);
    one_less(np, val, b, w);
    one_more(np, val, c, w);
    one_more(np, val, d, w);
}

// Bars the quads that the pass's start has at point v.
fn bar_point(np: usize, nq: usize, v: usize, w: &mut [u32])
    requires map_holds { MapHolds np nq w.old }
    requires v_lt_np { v < np }
    ensures part { Part (marks_at np nq) nq
        (tabulate (barred_by (was_in np nq w.old) v (marks_in np nq w.old)) nq) w.new }
    ensures kept { Kept (Out (marks_at np nq) nq) w.old w.new }
{
    let n = np + nq;
    incidence::bar_around(
        np,
        nq,
        pass_map::WAS * n,
        v,
        pass_map::POINT_STARTS * n,
        pass_map::POINTS * n,
        MARKS * n,
        w,
    );
}

// Bars the quads at three points.
fn bar_three(np: usize, nq: usize, a: usize, b: usize, c: usize, w: &mut [u32])
    requires map_holds { MapHolds np nq w.old }
    requires a_lt_np { (a < np) × (b < np) × (c < np) }
    ensures part { Part (marks_at np nq) nq
        (tabulate (mark_if (uses_three a b c) (was_in np nq w.old) (marks_in np nq w.old)) nq)
        w.new }
    ensures kept { Kept (Out (marks_at np nq) nq) w.old w.new }
{
    bar_point(np, nq, a, w);
    bar_point(np, nq, b, w);
    bar_point(np, nq, c, w);
}

// "A swap bars every quad at its six corners for that pass."
fn bar_six(np: usize, nq: usize, h: Six, w: &mut [u32])
    requires map_holds { MapHolds np nq w.old }
    requires six_below { SixBelow np h }
    ensures part { Part (marks_at np nq) nq
        (tabulate (mark_if (uses_six h) (was_in np nq w.old) (marks_in np nq w.old)) nq)
        w.new }
    ensures kept { Kept (Out (marks_at np nq) nq) w.old w.new }
{
    bar_three(np, nq, h.h0, h.h1, h.h2, w);
    bar_three(np, nq, h.h3, h.h4, h.h5, w);
}

// Begins a pass: the map of its quads, their valences, and no quad barred.
pub fn begin_pass(np: usize, nq: usize, quads: &[u32], w: &mut [u32])
    requires map_asks { MapAsks np nq quads.now w.old }
    requires all { All Differ (quads_of nq quads.now) }
    ensures { BeginPassLeaves np nq quads.now w.new }
{
    let marks = MARKS * (np + nq);
    pass_map::map_sheet(np, nq, quads, w);
    lists::clear(&mut w[marks..marks + nq]);
}

// Makes the swap of the quads i and j that puts the diagonal k between them, and bars the quads at its six corners.
pub fn make_swap(
    np: usize,
    nq: usize,
    k: usize,
    h: Six,
    i: usize,
    j: usize,
    quads: &mut [u32],
    w: &mut [u32],
)
    requires swap_pass_holds { SwapPassHolds np nq quads.old w.old }
    requires make_swap_asks { MakeSwapAsks np nq quads.old h i j }
    ensures { MakeSwapLeaves np nq (diagonal_of k) h i j quads.old w.old
        quads.new w.new }
{
    let g = regularize_shapes::turned_by(h, Diagonal::of(k));
    put_pair(quads, i, j, g);
    move_valences(
        np,
        pass_map::VALENCES * (np + nq),
        h.h0,
        h.h3,
        g.h0,
        g.h3,
        w,
    );
    bar_six(np, nq, h, w);
}
