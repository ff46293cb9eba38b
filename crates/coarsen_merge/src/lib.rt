// The tests of a tried diagonal of a quad, whose two corners may become one point.

#![tactic(auto)]

ghost use Rattle.std.specs.Prelude.{◌≡◌, ◌+◌, ◌*◌, ◌<◌, ◌≤◌, length};
ghost use Rattle.lists.specs.Every.{every};
ghost use Rattle.rule_sheet.specs.Quads.{valence};
ghost use Rattle.rule_sheet.specs.Flat.{corner, quad_at};
ghost use Rattle.rule_sheet.specs.Squared.{sq};
ghost use Rattle.rule_coarsen.specs.Coarse.{has_corner};
ghost use Rattle.incidence.specs.Corners.{Cornered};
ghost use Rattle.coarsen_merge.specs.Steps.{sum_of_four, sum_of_three, unmarked, quad_free, not_further, apart_from};
ghost use Rattle.coarsen_merge.specs.Steps.{shares_at, shares_none, free_around, none_further, shared_only, meet_only};
ghost use Rattle.coarsen_merge.specs.Steps.{gain_of, worth_it, allowed_in};
ghost use Rattle.coarsen_merge.specs.Conditions.{ListAsks, StartHolds, TouchedHolds, CornersOfLeaves, FaceAsks};
ghost use Rattle.coarsen_merge.specs.Regions.{used_in};
ghost use Rattle.pass_map.specs.Regions.{was_in, start_in};

use std::ops::Range;

// Where the regions of a pass begin in the work slice, in units of points and quads together, behind those of its
// start: the barred points, the quads that are out, the touched points, those at which a quad has a barred corner, and
// where the last walk round each point ended. The unit before the touched points is the renumbering's.
pub const USED: usize = 22;

pub const REMOVED: usize = 23;

pub const TOUCHED: usize = 25;

pub const ENDED: usize = 26;

// A part of the work slice, from one place to another.
#[derive(Clone, Copy)]
pub struct Span {
    pub from: usize,
    pub to: usize,
}

impl Span {
    // The places of the part.
    pub fn range(self) -> Range<usize>
        ensures { result ≡ record { start = self.from; end = self.to } }
    {
        self.from..self.to
    }
}

// The sums over the corners of a quad before a merge and after it.
#[derive(Clone, Copy)]
pub struct Sums {
    pub before: usize,
    pub after: usize,
}

// ---- gain

// How far a number of quads is from 4, squared.
fn square(k: usize) -> usize
    requires { k ≤ 16777216 }
    ensures { result ≡ sq k }
{
    if k < 4 {
        return (4 - k) * (4 - k);
    }
    (k - 4) * (k - 4)
}

// The sum over the four corners of a quad, by how many quads each has.
fn sum_before(a: usize, b: usize, c: usize, d: usize) -> usize
    requires { a + b + c + d ≤ 16777216 }
    ensures { result ≡ sum_of_four a b c d }
{
    square(a) + (square(b) + (square(c) + square(d)))
}

// The sum over the merged point and the other two corners.
fn sum_after(a: usize, b: usize, c: usize, d: usize) -> usize
    requires d_bound { a + b + c + d ≤ 16777216 }
    requires bound { 2 ≤ a + c }
    requires le_b { 1 ≤ b }
    requires le_d { 1 ≤ d }
    ensures { result ≡ sum_of_three a b c d }
{
    square(a + c - 2) + (square(b - 1) + square(d - 1))
}

// ---- corners

// Quad q has the corner v.
fn has_corner(quads: &[u32], q: usize, v: usize) -> bool
    requires { 4 * q + 3 < length quads.now }
    ensures { result ≡ has_corner (quad_at quads.now q) v }
{
    let a = sheet::corner_at(quads, q, 0);
    let b = sheet::corner_at(quads, q, 1);
    let c = sheet::corner_at(quads, q, 2);
    let d = sheet::corner_at(quads, q, 3);
    (a == v) | (b == v) | (c == v) | (d == v)
}

// Corner j of quad q is not marked.
fn corner_free(np: usize, nq: usize, quads: &[u32], used: &[u32], q: usize, j: usize) -> bool
    requires cornered { Cornered np nq quads.now }
    requires used_len { length used.now ≡ np }
    requires q_lt_nq { q < nq }
    requires j_bound { j < 4 }
    ensures { result ≡ unmarked used.now (corner quads.now q j) }
{
    lists::at(used, sheet::corner_at(quads, q, j)) == 0
}

// No corner of quad q is marked.
pub fn quad_free(np: usize, nq: usize, quads: &[u32], used: &[u32], q: usize) -> bool
    requires cornered { Cornered np nq quads.now }
    requires used_len { length used.now ≡ np }
    requires q_lt_nq { q < nq }
    ensures { result ≡ quad_free quads.now used.now q }
{
    corner_free(np, nq, quads, used, q, 0)
        & corner_free(np, nq, quads, used, q, 1)
        & corner_free(np, nq, quads, used, q, 2)
        & corner_free(np, nq, quads, used, q, 3)
}

// No quad of the corners of a list has the corner v, but quad f.
fn none_further(np: usize, nq: usize, cs: &[u32], quads: &[u32], f: usize, v: usize) -> bool
    requires { ListAsks np nq cs.now quads.now }
    ensures { result ≡ every (not_further cs.now quads.now f v) (length cs.now) }
{
    for c in cs {
        let q = *c as usize / 4;
        if q != f && has_corner(quads, q, v) {
            return false;
        }
    }
    true
}

// ---- the corners of a point

// Where the corners of point v stand.
pub fn corners_of(np: usize, nq: usize, v: usize, w: &[u32]) -> Span
    requires start_holds { StartHolds np nq w.now }
    requires v_lt_np { v < np }
    ensures { CornersOfLeaves np nq v result w.now }
{
    let n = np + nq;
    let starts = pass_map::POINT_STARTS * n;
    let order = pass_map::POINTS * n;
    let from = order + lists::at(w, starts + v);
    let to = order + lists::at(w, starts + v + 1);
    Span { from, to }
}

// No quad at point v has a barred corner.
fn near_free(np: usize, nq: usize, v: usize, w: &[u32]) -> bool
    requires start_holds { StartHolds np nq w.now }
    requires touched_holds { TouchedHolds np nq w.now }
    requires v_lt_np { v < np }
    ensures { result ≡ free_around (was_in np nq w.now) (used_in np nq w.now) nq v }
{
    lists::at(w, TOUCHED * (np + nq) + v) == 0
}

// No quad at point v has the corner u, but quad f.
fn no_further(np: usize, nq: usize, f: usize, v: usize, u: usize, w: &[u32]) -> bool
    requires start_holds { StartHolds np nq w.now }
    requires v_lt_np { v < np }
    ensures { result ≡ none_further (was_in np nq w.now) nq f v u }
{
    let was = pass_map::WAS * (np + nq);
    none_further(
        np,
        nq,
        &w[corners_of(np, nq, v, w).range()],
        &w[was..was + 4 * nq],
        f,
        u,
    )
}

// The point x is one of two corners, or no neighbour of v.
fn apart_from(np: usize, nq: usize, b: usize, d: usize, v: usize, x: usize, w: &[u32]) -> bool
    requires start_holds { StartHolds np nq w.now }
    requires v_lt_np { v < np }
    requires x_lt_np { x < np }
    ensures { result ≡ apart_from (start_in np nq w.now) b d v x }
{
    if x == b {
        return true;
    }
    if x == d {
        return true;
    }
    !pass_map::is_edge(np, nq, v, x, w)
}

// Both neighbours at corner c are one of two corners, or no neighbours of v.
fn shares_none(np: usize, nq: usize, b: usize, d: usize, v: usize, c: usize, w: &[u32]) -> bool
    requires start_holds { StartHolds np nq w.now }
    requires v_lt_np { v < np }
    requires c_bound { c < 4 * nq }
    ensures { result ≡ shares_at (was_in np nq w.now) (start_in np nq w.now) b d v c }
{
    let was = pass_map::WAS * (np + nq);
    let x = lists::at(w, was + (c / 4 * 4 + (c + 3) % 4));
    let y = lists::at(w, was + (c / 4 * 4 + (c + 1) % 4));
    apart_from(np, nq, b, d, v, x, w) & apart_from(np, nq, b, d, v, y, w)
}

// The same at every corner of a list.
fn none_shared(np: usize, nq: usize, cs: &[u32], b: usize, d: usize, v: usize, w: &[u32]) -> bool
    requires start_holds { StartHolds np nq w.now }
    requires v_lt_np { v < np }
    requires list_asks { ListAsks np nq cs.now (was_in np nq w.now) }
    ensures { result ≡
        every (shares_none cs.now (was_in np nq w.now) (start_in np nq w.now) b d v)
        (length cs.now) }
{
    for c in cs {
        if !shares_none(np, nq, b, d, v, *c as usize, w) {
            return false;
        }
    }
    true
}

// The points v and u share only the two corners b and d as neighbours.
fn share_only(np: usize, nq: usize, v: usize, b: usize, u: usize, d: usize, w: &[u32]) -> bool
    requires start_holds { StartHolds np nq w.now }
    requires v_lt_np { v < np }
    requires u_lt_np { u < np }
    ensures { result ≡ shared_only (was_in np nq w.now) nq v b u d }
{
    none_shared(np, nq, &w[corners_of(np, nq, v, w).range()], b, d, u, w)
}

// How many quads point v has.
fn valence_at(np: usize, nq: usize, v: usize, w: &[u32]) -> usize
    requires start_holds { StartHolds np nq w.now }
    requires v_lt_np { v < np }
    ensures { result ≡ valence (start_in np nq w.now) v }
{
    lists::at(w, pass_map::VALENCES * (np + nq) + v)
}

// The points a and c have no further quad than f in common, and only the two corners b and d as neighbours; the walk is
// round the point with fewer quads.
fn meet_only(
    np: usize,
    nq: usize,
    f: usize,
    a: usize,
    b: usize,
    c: usize,
    d: usize,
    w: &[u32],
) -> bool
    requires start_holds { StartHolds np nq w.now }
    requires a_lt_np { a < np }
    requires c_lt_np { c < np }
    ensures { result ≡ meet_only np nq f a b c d w.now }
{
    if valence_at(np, nq, c, w) < valence_at(np, nq, a, w) {
        return share_only(np, nq, c, b, a, d, w) & no_further(np, nq, f, c, a, w);
    }
    share_only(np, nq, a, b, c, d, w) & no_further(np, nq, f, a, c, w)
}

// The sums before and after a merge of the corners a and c of a quad.
pub fn sums_of(np: usize, nq: usize, a: usize, b: usize, c: usize, d: usize, w: &[u32]) -> Sums
    requires start_holds { StartHolds np nq w.now }
    requires face_asks { FaceAsks np nq a b c d w.now }
    ensures { result ≡ gain_of np nq a b c d w.now }
{
    let va = valence_at(np, nq, a, w);
    let vb = valence_at(np, nq, b, w);
    let vc = valence_at(np, nq, c, w);
    let vd = valence_at(np, nq, d, w);
    let before = sum_before(va, vb, vc, vd);
    let after = sum_after(va, vb, vc, vd);
    Sums { before, after }
}

// What the masks and the numbers of quads at the corners a, b, c and d say of a merge of a and c.
fn worth(np: usize, nq: usize, a: usize, b: usize, c: usize, d: usize, w: &[u32]) -> bool
    requires start_holds { StartHolds np nq w.now }
    requires face_asks { FaceAsks np nq a b c d w.now }
    ensures { result ≡ worth_it np nq a b c d w.now }
{
    let vb = valence_at(np, nq, b, w);
    let vd = valence_at(np, nq, d, w);
    let s = sums_of(np, nq, a, b, c, d, w);
    coarsen_masks::masks_join(w[a], w[c]) & (4 <= vb) & (4 <= vd) & (s.after <= s.before)
}

// Whether the rule allows the merge of the corners a and c of quad f = (a, b, c, d), as far as it does not read the
// points.
pub fn allowed(
    np: usize,
    nq: usize,
    f: usize,
    a: usize,
    b: usize,
    c: usize,
    d: usize,
    w: &[u32],
) -> bool
    requires start_holds { StartHolds np nq w.now }
    requires face_asks { FaceAsks np nq a b c d w.now }
    requires touched_holds { TouchedHolds np nq w.now }
    ensures { result ≡ allowed_in np nq f a b c d w.now }
{
    if worth(np, nq, a, b, c, d, w) {
        if meet_only(np, nq, f, a, b, c, d, w) {
            return near_free(np, nq, a, w) & near_free(np, nq, c, w);
        }
    }
    false
}
