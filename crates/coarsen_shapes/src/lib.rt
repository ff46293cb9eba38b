// Whether the quads round a merged point keep their shapes.

#![tactic(auto)]

ghost use Rattle.std.specs.Prelude.{◌≡◌, true, false, ◌+◌, ◌*◌, ◌<◌, ◌≤◌, MatchResult, IfErr, length, get_or};
ghost use Rattle.points.specs.Points.{point_at};
ghost use Rattle.lists.specs.Every.{every};
ghost use Rattle.lists.specs.Regions.{part};
ghost use Rattle.incidence.specs.Corners.{Positioned};
ghost use Rattle.edges.specs.Conditions.{PointMapHolds};
ghost use Rattle.coarsen_shapes.specs.MergeFits.{face_stays, corner_stays, stays_at, CornersIn, AllPass, FirstFallen};

use field::Field;
use rule_coarsen::Merge;

// Whether quad j is the merge's own or stays.
fn face_stays(
    np: usize,
    nq: usize,
    f: Field,
    len: f64,
    points: &[f64],
    quads: &[u32],
    labels: &[u8],
    m: Merge,
    j: usize,
) -> bool
    requires positioned { Positioned np nq points.now quads.now }
    requires nq_in_bounds { nq ≤ length labels.now }
    requires j_lt_nq { j < nq }
    ensures { result ≡ face_stays f len (point_at points.now) labels.now quads.now m
        j }
{
    if j == m.face {
        return true;
    }
    let q = pass_shapes::four_at(np, nq, quads, j);
    coarsen_moves::quad_stays(np, f, len, points, labels[j], q, m)
}

// Whether the quads of the corners from one place of the work slice to another are the merge's own or stay; if not,
// the first place whose quad does not.
fn stay_between(
    np: usize,
    nq: usize,
    f: Field,
    len: f64,
    points: &[f64],
    quads: &[u32],
    labels: &[u8],
    m: Merge,
    from: usize,
    to: usize,
    w: &[u32],
) -> Result<(), usize>
    requires positioned { Positioned np nq points.now quads.now }
    requires nq_in_bounds { nq ≤ length labels.now }
    requires corners_in { CornersIn nq from to w.now }
    ensures { let stays = corner_stays f len (point_at points.now) labels.now quads.now m w.now in
        MatchResult result (λ _. AllPass stays from to) (λ place. FirstFallen stays from to place) }
{
    for i in from..to {
        let j = lists::at(w, i) / 4;
        if !face_stays(np, nq, f, len, points, quads, labels, m, j) {
            return Err(i);
        }
    }
    Ok(())
}

// A place from s to e: where it lies there, else s.
fn within(s: usize, e: usize, place: usize) -> usize
    requires { s ≤ e }
    ensures lower_bound { s ≤ result }
    ensures upper_bound { result ≤ e }
{
    if (s..e).contains(&place) { place } else { s }
}

// Whether every quad at point v is the merge's own or stays; if not, the place of a corner whose quad does not. The
// walk begins at a place, where one before it ended, and goes once round the corners of v.
pub fn quads_stay(
    np: usize,
    nq: usize,
    f: Field,
    len: f64,
    points: &[f64],
    labels: &[u8],
    was: usize,
    starts: usize,
    order: usize,
    v: usize,
    m: Merge,
    place: usize,
    w: &[u32],
) -> Result<(), usize>
    requires point_map_holds { PointMapHolds np nq was starts order w.now }
    requires np_in_bounds { 3 * np ≤ length points.now }
    requires nq_in_bounds { nq ≤ length labels.now }
    requires v_lt_np { v < np }
    ensures stays_value { let stays = every (stays_at f len (point_at points.now) labels.now
        (part was (4 * nq) w.now) m v) nq in
        MatchResult result (λ _. stays ≡ true) (λ _. stays ≡ false) }
    ensures at_bound { IfErr result (λ at. at ≤ order + get_or w.now (starts + v + 1) 0) }
{
    let first = lists::at(w, starts + v);
    let next = lists::at(w, starts + v + 1);
    let s = order + first;
    let e = order + next;
    let from = within(s, e, place);
    let quads = &w[was..was + 4 * nq];
    stay_between(np, nq, f, len, points, quads, labels, m, from, e, w)?;
    stay_between(np, nq, f, len, points, quads, labels, m, s, from, w)
}
