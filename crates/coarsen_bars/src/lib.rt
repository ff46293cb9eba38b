// The merge of two opposite corners of a quad: the new name of a point, the barred points, and those that they touch.

#![tactic(auto)]

ghost use Rattle.std.specs.Prelude.{◌≡◌, ◌*◌, ◌<◌, ◌≤◌, length, set};
ghost use Rattle.lists.specs.Sort.{tabulate};
ghost use Rattle.lists.specs.Regions.{part, Part, Out, Kept};
ghost use Rattle.points.specs.Steps.{with_point};
ghost use Rattle.coarsen_bars.specs.Steps.{marked_by, marked_in, marked_near, renamed_at, renamed_quads};
ghost use Rattle.coarsen_merge.specs.Conditions.{StartHolds, TouchedHolds};
ghost use Rattle.coarsen_bars.specs.Conditions.{MarkPointsAsks, RenameAsks, MergeAsks, BarLeaves, MergeLeaves};
ghost use Rattle.coarsen_merge.specs.Regions.{touched_at, used_in, touched_in};
ghost use Rattle.pass_map.specs.Regions.{was_in};

use points::Point;

// Marks, in the np elements at to, the m points at from.
fn mark_points(from: usize, m: usize, to: usize, np: usize, w: &mut [u32])
    requires { MarkPointsAsks from m to np (part from m w.old) w.old }
    ensures part { Part to np
        (tabulate (marked_by (part from m w.old) (part to np w.old) m) np) w.new }
    ensures kept { Kept (Out to np) w.old w.new }
{
    for j in 0..m {
        let v = w[from + j] as usize;
        w[to + v] = 1;
    }
}

// Touches the corners of quad q.
fn touch_quad(np: usize, nq: usize, q: usize, w: &mut [u32])
    requires start_holds { StartHolds np nq w.old }
    requires q_lt_nq { q < nq }
    ensures part { Part (touched_at np nq) np
        (tabulate (marked_in (was_in np nq w.old) (touched_in np nq w.old) q) np) w.new }
    ensures kept { Kept (Out (touched_at np nq) np) w.old w.new }
{
    let n = np + nq;
    mark_points(
        pass_map::WAS * n + 4 * q,
        4,
        coarsen_merge::TOUCHED * n,
        np,
        w,
    );
}

// Touches the corners of all quads at point x.
fn touch_around(np: usize, nq: usize, x: usize, w: &mut [u32])
    requires start_holds { StartHolds np nq w.old }
    requires x_lt_np { x < np }
    ensures part { Part (touched_at np nq) np
        (tabulate (marked_near (was_in np nq w.old) (touched_in np nq w.old) nq x) np)
        w.new }
    ensures kept { Kept (Out (touched_at np nq) np) w.old w.new }
{
    for i in coarsen_merge::corners_of(np, nq, x, w).range() {
        touch_quad(np, nq, lists::at(w, i) / 4, w);
    }
}

// Bars the point x. The first time, the corners of all quads at it are touched, so a quad is touched at most four times
// a pass.
fn bar_point(np: usize, nq: usize, x: usize, w: &mut [u32])
    requires start_holds { StartHolds np nq w.old }
    requires touched_holds { TouchedHolds np nq w.old }
    requires x_lt_np { x < np }
    ensures { BarLeaves np nq (set (used_in np nq w.old) x 1) w.old w.new }
{
    let at = coarsen_merge::USED * (np + nq) + x;
    let first = w[at] == 0;
    w[at] = 1;
    if first {
        touch_around(np, nq, x, w);
    }
}

// Bars the corners of quad q.
fn bar_quad(np: usize, nq: usize, q: usize, w: &mut [u32])
    requires start_holds { StartHolds np nq w.old }
    requires touched_holds { TouchedHolds np nq w.old }
    requires q_lt_nq { q < nq }
    ensures { BarLeaves np nq
        (tabulate (marked_in (was_in np nq w.old) (used_in np nq w.old) q) np)
        w.old w.new }
{
    let from = pass_map::WAS * (np + nq) + 4 * q;
    for j in 0..4 {
        bar_point(np, nq, lists::at(w, from + j), w);
    }
}

// Bars the corners of all quads at point v.
fn bar_around(np: usize, nq: usize, v: usize, w: &mut [u32])
    requires start_holds { StartHolds np nq w.old }
    requires touched_holds { TouchedHolds np nq w.old }
    requires v_lt_np { v < np }
    ensures { BarLeaves np nq
        (tabulate (marked_near (was_in np nq w.old) (used_in np nq w.old) nq v) np)
        w.old w.new }
{
    for i in coarsen_merge::corners_of(np, nq, v, w).range() {
        bar_quad(np, nq, lists::at(w, i) / 4, w);
    }
}

// The corners of a list become the point a.
fn rename_corners(cs: &[u32], a: u32, quads: &mut [u32])
    requires { RenameAsks cs.now (length quads.old) }
    ensures { quads.new ≡
        tabulate (renamed_at cs.now quads.old a (length cs.now))
        (length quads.old) }
{
    for c in cs {
        quads[*c as usize] = a;
    }
}

// The corners at c become the point a.
fn rename(np: usize, nq: usize, c: usize, a: usize, quads: &mut [u32], w: &[u32])
    requires start_holds { StartHolds np nq w.now }
    requires c_lt_np { c < np }
    requires a_lt_np { a < np }
    requires nq_in_bounds { 4 * nq ≤ length quads.old }
    ensures { quads.new ≡ renamed_quads (was_in np nq w.now) nq c a quads.old }
{
    let corners = coarsen_merge::corners_of(np, nq, c, w).range();
    rename_corners(&w[corners], a as u32, quads);
}

// The merge of the corners a and c of quad f at the point p.
pub fn merge(
    np: usize,
    nq: usize,
    f: usize,
    a: usize,
    c: usize,
    p: Point,
    points: &mut [f64],
    quads: &mut [u32],
    w: &mut [u32],
)
    requires start_holds { StartHolds np nq w.old }
    requires merge_asks { MergeAsks np nq f a c (length points.old) (length quads.old) }
    requires touched_holds { TouchedHolds np nq w.old }
    ensures points_after { points.new ≡ with_point points.old a p }
    ensures merge_leaves { MergeLeaves np nq f a c quads.old w.old
        quads.new w.new }
{
    points::put_point(points, a, p);
    rename(np, nq, c, a, quads, w);
    bar_around(np, nq, a, w);
    bar_around(np, nq, c, w);
    w[coarsen_merge::REMOVED * (np + nq) + f] = 1;
}
