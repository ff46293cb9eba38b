// The search for the merge in a quad: its two diagonals are tried, and the one that gains more is taken.

#![tactic(auto)]

ghost use Rattle.std.specs.Prelude.{◌≡◌, ◌+◌, ◌*◌, ◌<◌, ◌≤◌, IfSome, IfErr, MatchResult, max, length, true, false};
ghost use Rattle.coarsen_merge.specs.Conditions.{StartHolds, TouchedHolds};
ghost use Rattle.coarsen_merge.specs.Steps.{allowed_in};
ghost use Rattle.pass_map.specs.Regions.{points_at};
ghost use Rattle.coarsen_merge.specs.Regions.{ended_at};
ghost use Rattle.coarsen_search.specs.Steps.{diagonal_of, better_of, landing_of, stay_around, candidate_of, weighed_of};
ghost use Rattle.coarsen_search.specs.Steps.{found_to, tried_in};
ghost use Rattle.coarsen_search.specs.Conditions.{DiagonalAsks, LandingAsks, SearchAsks, Holding, Noted};
ghost use Rattle.coarsen_search.specs.Conditions.{InOrder, TakeAsks, TakeLeaves, MergePassHolds, VisitLeaves};
ghost use Rattle.coarsen_search.specs.Conditions.{VisitAllLeaves};
ghost use Rattle.lists.specs.Regions.{Out, Kept};
ghost use Rattle.rule_coarsen.specs.MergeFits.{merge_at};
ghost use Rattle.band.specs.Bands.{length_of};
ghost use Rattle.incidence.specs.Corners.{Cornered};

use band::Band;
use field::Field;
use points::Point;
use rule_coarsen::Merge;

// A diagonal of a quad: the corners a and c that a merge makes one, and the other two.
#[derive(Clone, Copy)]
pub struct Diagonal {
    pub face: usize,
    pub a: usize,
    pub b: usize,
    pub c: usize,
    pub d: usize,
}

// A merge that the rule allows: what it gains, the corners that become one, and where.
#[derive(Clone, Copy)]
pub struct Candidate {
    pub gain: usize,
    pub a: usize,
    pub c: usize,
    pub to: Point,
}

// Where the walk round a point ended before it was round.
#[derive(Clone, Copy)]
pub struct Ended {
    pub point: usize,
    pub place: usize,
}

// The ends of a diagonal, in the order in which the quads at them are asked.
#[derive(Clone, Copy)]
pub struct Ends {
    pub first: usize,
    pub second: usize,
}

// The better of what was found and a diagonal, and where a walk for it ended.
#[derive(Clone, Copy)]
pub struct Weighing {
    pub best: Option<Candidate>,
    pub ended: Option<Ended>,
}

// What a search finds, and where walks for its two diagonals ended.
#[derive(Clone, Copy)]
pub struct Found {
    pub choice: Option<Candidate>,
    pub first: Option<Ended>,
    pub second: Option<Ended>,
}

// Diagonal k of quad f.
fn diagonal_at(quads: &[u32], f: usize, k: usize) -> Diagonal
    requires f_in_bounds { 4 * f + 3 < length quads.now }
    requires k_bound { k < 2 }
    ensures { result ≡ diagonal_of quads.now f k }
{
    let a = sheet::corner_at(quads, f, k);
    let b = sheet::corner_at(quads, f, k + 1);
    let c = sheet::corner_at(quads, f, k + 2);
    let d = sheet::corner_at(quads, f, (k + 3) % 4);
    Diagonal {
        face: f,
        a,
        b,
        c,
        d,
    }
}

// The greater of two masks.
fn joined(a: usize, c: usize) -> u8
    requires a_bound { a < 256 }
    requires c_bound { c < 256 }
    ensures { result ≡ max a c }
{
    a.max(c) as u8
}

// Where the merge of a diagonal lands: the projection of its halfway point by the joined mask.
fn landing(np: usize, g: Diagonal, b: Band, len: f64, points: &[f64], w: &[u32]) -> Option<Point>
    requires landing_asks { LandingAsks np g w.now }
    requires np_in_bounds { 3 * np ≤ length points.now }
    ensures { result ≡ landing_of g b len points.now w.now }
{
    let mask = joined(lists::at(w, g.a), lists::at(w, g.c));
    coarsen_moves::new_position(np, b, len, points, g.a, g.c, mask)
}

// Of what was found and a new candidate the one that gains more, the first on a tie.
fn better(best: Option<Candidate>, next: Candidate) -> Option<Candidate>
    ensures { result ≡ better_of best next }
{
    match best {
        Some(old) if next.gain <= old.gain => Some(old),
        _ => Some(next),
    }
}

// The merge of a diagonal at p.
fn merge_of(g: Diagonal, p: Point) -> Merge
    ensures { result ≡ merge_at g.face g.a g.c p }
{
    Merge {
        face: g.face,
        a: g.a,
        c: g.c,
        to: p,
    }
}

// Whether the other quads at the point v stay, if the merge of a diagonal lands at p; if not, where the walk ended. It
// begins where the last one round v ended.
fn stay_around(
    np: usize,
    nq: usize,
    g: Diagonal,
    f: Field,
    len: f64,
    p: Point,
    points: &[f64],
    labels: &[u8],
    w: &[u32],
    v: usize,
) -> Result<(), usize>
    requires start_holds { StartHolds np nq w.now }
    requires np_in_bounds { 3 * np ≤ length points.now }
    requires nq_in_bounds { nq ≤ length labels.now }
    requires v_lt_np { v < np }
    ensures stays_value { let stays = stay_around np nq g f len p points.now labels.now w.now v in
        MatchResult result (λ _. stays ≡ true) (λ _. stays ≡ false) }
    ensures at_bound { IfErr result (λ at. at ≤ points_at np nq + 4 * nq) }
{
    let n = np + nq;
    let m = merge_of(g, p);
    let place = lists::at(w, coarsen_merge::ENDED * n + v);
    coarsen_shapes::quads_stay(
        np,
        nq,
        f,
        len,
        points,
        labels,
        pass_map::WAS * n,
        pass_map::POINT_STARTS * n,
        pass_map::POINTS * n,
        v,
        m,
        place,
        w,
    )
}

// The ends of a diagonal, the one with fewer quads first.
fn ends_of(np: usize, nq: usize, g: Diagonal, w: &[u32]) -> Ends
    requires start_holds { StartHolds np nq w.now }
    requires diagonal_asks { DiagonalAsks np nq g w.now }
    ensures { InOrder g result }
{
    let valences = pass_map::VALENCES * (np + nq);
    let a = lists::at(w, valences + g.a);
    let c = lists::at(w, valences + g.c);
    if c < a {
        return Ends {
            first: g.c,
            second: g.a,
        };
    }
    Ends {
        first: g.a,
        second: g.c,
    }
}

// The candidate of a diagonal whose merge lands at p.
fn candidate_of(np: usize, nq: usize, g: Diagonal, p: Point, w: &[u32]) -> Candidate
    requires start_holds { StartHolds np nq w.now }
    requires diagonal_asks { DiagonalAsks np nq g w.now }
    requires w_value { allowed_in np nq g.face g.a g.b g.c g.d w.now ≡ true }
    ensures { result ≡ candidate_of np nq g p w.now }
{
    let s = coarsen_merge::sums_of(np, nq, g.a, g.b, g.c, g.d, w);
    Candidate {
        gain: s.before - s.after,
        a: g.a,
        c: g.c,
        to: p,
    }
}

// The better of what was found and a diagonal whose merge lands at p, if no other quad's shape falls too far.
fn weighed(
    np: usize,
    nq: usize,
    g: Diagonal,
    f: Field,
    len: f64,
    p: Point,
    points: &[f64],
    labels: &[u8],
    w: &[u32],
    best: Option<Candidate>,
) -> Weighing
    requires start_holds { StartHolds np nq w.now }
    requires diagonal_asks { DiagonalAsks np nq g w.now }
    requires np_in_bounds { 3 * np ≤ length points.now }
    requires nq_in_bounds { nq ≤ length labels.now }
    requires w_value { allowed_in np nq g.face g.a g.b g.c g.d w.now ≡ true }
    ensures best_value { result.best ≡ weighed_of np nq g f len p points.now
        labels.now w.now best }
    ensures noted { IfSome result.ended (Noted np nq) }
{
    let ends = ends_of(np, nq, g, w);
    if let Err(place) = stay_around(np, nq, g, f, len, p, points, labels, w, ends.first) {
        let point = ends.first;
        let ended = Some(Ended { point, place });
        return Weighing { best, ended };
    }
    if let Err(place) = stay_around(np, nq, g, f, len, p, points, labels, w, ends.second) {
        let point = ends.second;
        let ended = Some(Ended { point, place });
        return Weighing { best, ended };
    }
    let next = candidate_of(np, nq, g, p, w);
    Weighing {
        best: better(best, next),
        ended: None,
    }
}

// The merge that the rule takes in quad f.
fn search(
    np: usize,
    nq: usize,
    f: usize,
    b: Band,
    len: f64,
    points: &[f64],
    quads: &[u32],
    labels: &[u8],
    w: &[u32],
) -> Found
    requires start_holds { StartHolds np nq w.now }
    requires search_asks { SearchAsks np nq f quads.now w.now }
    requires holding { Holding np nq (length points.now) (length quads.now) (length labels.now) }
    requires touched_holds { TouchedHolds np nq w.now }
    ensures choice_value { result.choice ≡ found_to np nq b len points.now quads.now
        labels.now w.now f 2 }
    ensures noted { IfSome result.first (Noted np nq) }
    ensures noted_2 { IfSome result.second (Noted np nq) }
{
    let field = b.field;
    let mut choice: Option<Candidate> = None;
    let mut first: Option<Ended> = None;
    let mut second: Option<Ended> = None;
    for k in 0..2 {
        let g = diagonal_at(quads, f, k);
        if !coarsen_merge::allowed(np, nq, g.face, g.a, g.b, g.c, g.d, w) {
            continue;
        }
        let Some(p) = landing(np, g, b, len, points, w) else {
            continue;
        };
        let r = weighed(np, nq, g, field, len, p, points, labels, w, choice);
        choice = r.best;
        first = second;
        second = r.ended;
    }
    Found {
        choice,
        first,
        second,
    }
}

// Quad f is still here, and none of its corners is barred.
fn is_tried(np: usize, nq: usize, f: usize, quads: &[u32], w: &[u32]) -> bool
    requires start_holds { StartHolds np nq w.now }
    requires cornered { Cornered np nq quads.now }
    requires f_lt_nq { f < nq }
    ensures { result ≡ tried_in np nq f quads.now w.now }
{
    let n = np + nq;
    let used = coarsen_merge::USED * n;
    let here = lists::at(w, coarsen_merge::REMOVED * n + f) == 0;
    here & coarsen_merge::quad_free(np, nq, quads, &w[used..used + np], f)
}

// Makes the merge that was chosen in quad f, if one was; answers how many merges that is.
fn take(
    np: usize,
    nq: usize,
    f: usize,
    choice: Option<Candidate>,
    points: &mut [f64],
    quads: &mut [u32],
    w: &mut [u32],
) -> usize
    requires start_holds { StartHolds np nq w.old }
    requires take_asks { TakeAsks np nq f choice (length points.old) (length quads.old) }
    requires touched_holds { TouchedHolds np nq w.old }
    ensures { TakeLeaves np nq f choice result points.old quads.old w.old
        points.new quads.new w.new }
{
    match choice {
        None => 0,
        Some(m) => {
            coarsen_bars::merge(np, nq, f, m.a, m.c, m.to, points, quads, w);
            1
        }
    }
}

// Keeps where a walk ended, if one did, for the next one round the same point.
fn remember(np: usize, nq: usize, ended: Option<Ended>, w: &mut [u32])
    requires start_holds { StartHolds np nq w.old }
    requires noted { IfSome ended (Noted np nq) }
    ensures { Kept (Out (ended_at np nq) np) w.old w.new }
{
    if let Some(e) = ended {
        w[coarsen_merge::ENDED * (np + nq) + e.point] = e.place as u32;
    }
}

// Visits quad f: makes the merge that the rule takes there, if any; answers how many merges that is.
fn visit(
    np: usize,
    nq: usize,
    f: usize,
    b: Band,
    len: f64,
    points: &mut [f64],
    quads: &mut [u32],
    labels: &[u8],
    w: &mut [u32],
) -> usize
    requires merge_pass_holds { MergePassHolds np nq labels.now (length points.old) quads.old w.old }
    requires f_lt_nq { f < nq }
    requires len_value { len ≡ length_of b }
    ensures { VisitLeaves b np nq labels.now f result points.old quads.old
        w.old points.new quads.new w.new }
{
    if is_tried(np, nq, f, quads, w) {
        let found = search(np, nq, f, b, len, points, quads, labels, w);
        let choice = found.choice;
        let made = take(np, nq, f, choice, points, quads, w);
        remember(np, nq, found.first, w);
        remember(np, nq, found.second, w);
        return made;
    }
    0
}

// Visits the quads in order; answers how many merges were made.
pub fn visit_all(
    np: usize,
    nq: usize,
    b: Band,
    len: f64,
    points: &mut [f64],
    quads: &mut [u32],
    labels: &[u8],
    w: &mut [u32],
) -> usize
    requires merge_pass_holds { MergePassHolds np nq labels.now (length points.old) quads.old w.old }
    requires len_value { len ≡ length_of b }
    ensures { VisitAllLeaves b np nq labels.now result points.old quads.old
        w.old points.new quads.new w.new }
{
    let mut count = 0;
    for f in 0..nq {
        count += visit(np, nq, f, b, len, points, quads, labels, w);
    }
    count
}
