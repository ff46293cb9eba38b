// One pass of swaps: each edge of two quads is tried once, in the order of the edges of the pass's start.

#![tactic(auto)]

ghost use Rattle.std.specs.Prelude.{◌≡◌, ◌+◌, ◌*◌, ◌/◌, ◌<◌, ◌≤◌, ◌^◌, length, take};
ghost use Rattle.rule_sheet.specs.Flat.{quads_of};
ghost use Rattle.regularize_shapes.specs.SwapFits.{SixBelow, hex_of};
ghost use Rattle.incidence.specs.Bounds.{Bounded};
ghost use Rattle.pass_map.specs.Regions.{valences_at, start_in};
ghost use Rattle.pass_map.specs.Conditions.{WorkFits};
ghost use Rattle.regularize_swap.specs.Conditions.{BeginPassLeaves};
ghost use Rattle.regularize_pass.specs.Steps.{fits_in, diagonal, pick_of, may_take, best_of, choice_in, try_in};
ghost use Rattle.regularize_pass.specs.Steps.{step_in};
ghost use Rattle.regularize_pass.specs.Conditions.{TryAsks, StepLeaves, SwapPassAsks, SwapPassLeaves};

use field::Field;
use regularize_shapes::{Diagonal, Six};
use rule_regularize::Held;

// What swaps are tried with: the least gain, the field, the length of the band.
#[derive(Clone, Copy)]
pub struct Trial {
    pub least: usize,
    pub field: Field,
    pub length: f64,
}

// A diagonal that is free may be taken: it fits.
fn may_take(
    np: usize,
    nq: usize,
    points: &[f64],
    h: Six,
    k: Diagonal,
    held: Held,
    free: bool,
    w: &[u32],
) -> bool
    requires work_fits { WorkFits np nq w.now }
    requires six_below { SixBelow np h }
    requires np_in_bounds { 3 * np ≤ length points.now }
    ensures { result ≡ may_take np nq points.now h k held free w.now }
{
    if !free {
        return false;
    }
    regularize_shapes::next_fits(
        np,
        points,
        h,
        k.number(),
        held,
        regularize_swap::gains(np, nq, h, k.number(), w),
    )
}

// The higher gain wins, the first on a tie.
fn chosen(first: bool, second: bool, better: bool) -> Option<Diagonal>
    ensures { result ≡ diagonal first second better }
{
    if second & (better | !first) {
        return Some(Diagonal::Second);
    }
    first.then_some(Diagonal::First)
}

// The diagonal that is taken of those that are open.
fn best(
    np: usize,
    nq: usize,
    points: &[f64],
    h: Six,
    held: Held,
    first: bool,
    second: bool,
    w: &[u32],
) -> Option<Diagonal>
    requires work_fits { WorkFits np nq w.now }
    requires six_below { SixBelow np h }
    requires np_in_bounds { 3 * np ≤ length points.now }
    ensures { result ≡ best_of np nq points.now h held first second w.now }
{
    let one = may_take(np, nq, points, h, Diagonal::First, held, first, w);
    let two = may_take(np, nq, points, h, Diagonal::Second, held, second, w);
    chosen(one, two, regularize_swap::is_second_better(np, nq, h, w))
}

// The diagonal that is taken at the six corners of the quads i and j.
fn choice(
    np: usize,
    nq: usize,
    t: Trial,
    points: &[f64],
    quads: &[u32],
    labels: &[u8],
    i: usize,
    j: usize,
    h: Six,
    w: &[u32],
) -> Option<Diagonal>
    requires try_asks { TryAsks np nq t points.now quads.now labels.now w.now }
    requires i_lt_nq { i < nq }
    requires j_lt_nq { j < nq }
    requires six_below { SixBelow np h }
    ensures { result ≡ pick_of (start_in np nq w.now) (take nq labels.now) t.least
        (fits_in t np nq points.now labels.now) (quads_of nq quads.now) i j (hex_of h) }
{
    let first = regularize_swap::is_open(np, nq, t.least, h, Diagonal::First.number(), w);
    let second = regularize_swap::is_open(np, nq, t.least, h, Diagonal::Second.number(), w);
    if !(first | second) {
        return None;
    }
    let f = t.field;
    let held = regularize_shapes::hold(np, nq, f, t.length, points, quads, i, j, h, labels[i]);
    best(np, nq, points, h, held, first, second, w)
}

// The diagonal that is taken at the corners c and d of an edge.
fn choice_at(
    np: usize,
    nq: usize,
    t: Trial,
    points: &[f64],
    quads: &[u32],
    labels: &[u8],
    c: usize,
    d: usize,
    w: &[u32],
) -> Option<Diagonal>
    requires try_asks { TryAsks np nq t points.now quads.now labels.now w.now }
    requires c_bound { c < 4 * nq }
    requires d_bound { d < 4 * nq }
    ensures { result ≡ choice_in np nq t points.now quads.now
        labels.now c d w.now }
{
    if !regularize_swap::is_free(np, nq, labels, c / 4, d / 4, w) {
        return None;
    }
    let h = regularize_swap::six_at(quads, c, d);
    if !regularize_swap::is_hexagon(quads, d, h) {
        return None;
    }
    choice(np, nq, t, points, quads, labels, c / 4, d / 4, h, w)
}

// Tries the corners c and d of an edge; the swaps so far.
fn try_pair(
    np: usize,
    nq: usize,
    t: Trial,
    points: &[f64],
    labels: &[u8],
    c: usize,
    d: usize,
    count: usize,
    quads: &mut [u32],
    w: &mut [u32],
) -> usize
    requires try_asks { TryAsks np nq t points.now quads.old labels.now w.old }
    requires c_bound { c < 4 * nq }
    requires d_bound { d < 4 * nq }
    requires count_bound { count < 2 ^ 32 }
    ensures { StepLeaves np nq (try_in np nq t points.now labels.now w.old c d)
        count result quads.old w.old quads.new w.new }
{
    let Some(k) = choice_at(np, nq, t, points, quads, labels, c, d, w) else {
        return count;
    };
    let h = regularize_swap::six_at(quads, c, d);
    regularize_swap::make_swap(np, nq, k.number(), h, c / 4, d / 4, quads, w);
    count + 1
}

// "Only an edge of exactly two unbarred quads running opposite ways is tried": the edge whose corners begin at place i;
// the swaps so far.
fn try_edge(
    np: usize,
    nq: usize,
    t: Trial,
    points: &[f64],
    labels: &[u8],
    i: usize,
    count: usize,
    quads: &mut [u32],
    w: &mut [u32],
) -> usize
    requires try_asks { TryAsks np nq t points.now quads.old labels.now w.old }
    requires i_bound { i < 4 * nq }
    requires count_bound { count < 2 ^ 32 }
    ensures { StepLeaves np nq (step_in np nq t points.now labels.now w.old i)
        count result quads.old w.old quads.new w.new }
{
    if !regularize_swap::is_pair(np, nq, i, w) {
        return count;
    }
    let c = regularize_swap::edge_corner(np, nq, i, w);
    let d = regularize_swap::edge_corner(np, nq, i + 1, w);
    try_pair(np, nq, t, points, labels, c, d, count, quads, w)
}

// Tries every edge once; the swaps made.
fn sweep(
    np: usize,
    nq: usize,
    t: Trial,
    points: &[f64],
    labels: &[u8],
    quads: &mut [u32],
    w: &mut [u32],
) -> usize
    requires begin_pass_leaves { BeginPassLeaves np nq quads.old w.old }
    requires try_asks { TryAsks np nq t points.now quads.old labels.now w.old }
    ensures swap_pass_leaves { SwapPassLeaves np nq t points.now labels.now
        quads.old quads.new result }
    ensures bounded { Bounded (valences_at np nq) np w.new }
{
    let mut count = 0;
    for i in 0..4 * nq {
        count = try_edge(np, nq, t, points, labels, i, count, quads, w);
    }
    count
}

// One pass; the swaps made.
pub fn swap_pass(
    np: usize,
    nq: usize,
    t: Trial,
    points: &[f64],
    labels: &[u8],
    quads: &mut [u32],
    w: &mut [u32],
) -> usize
    requires { SwapPassAsks np nq t points.now quads.old labels.now w.old }
    ensures swap_pass_leaves { SwapPassLeaves np nq t points.now labels.now
        quads.old quads.new result }
    ensures bounded { Bounded (valences_at np nq) np w.new }
{
    regularize_swap::begin_pass(np, nq, quads, w);
    sweep(np, nq, t, points, labels, quads, w)
}
