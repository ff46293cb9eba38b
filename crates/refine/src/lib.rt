// The finer sheet: every edge gets its halfway point, every quad its centre, and every quad becomes four. Request 5
// q + j is for the point of the edge of corner j of quad q, or for the centre where j is 4; the first request of an
// edge makes its point.

#![tactic(auto)]

ghost use Rattle.std.specs.Prelude.{ℕ, ◌≡◌, true, cond, ◌++◌, ◌+◌, ◌*◌, ◌/◌, ◌%◌, ◌<◌, ◌≤◌, ◌^◌, length};
ghost use Rattle.points.specs.Points.{point_at};
ghost use Rattle.lists.specs.Sort.{tabulate};
ghost use Rattle.lists.specs.Every.{every, count_to};
ghost use Rattle.lists.specs.Regions.{part, Part, Out, Kept};
ghost use Rattle.rule_sheet.specs.Flat.{corner, flat_quads};
ghost use Rattle.sheet.specs.Flat.{with_quad};
ghost use Rattle.rule_sheet.specs.Sheet.{points_of, flat_points, sheet_of};
ghost use Rattle.rule_sheet.specs.Results.{Makes, Cleared};
ghost use Rattle.rule_sheet.specs.Lent.{limit, lent_of, room_of, work_of, work_with};
ghost use Rattle.sheet.specs.Results.{Fills, Front};
ghost use Rattle.incidence.specs.Corners.{Cornered, Positioned};
ghost use Rattle.rule_finer.specs.Finer.{finer_sheet, made_or_short, refine_rule};
ghost use Rattle.refine.specs.Requests.{request_of, position_in, position_at, first_of, linked_to, own, number_of};
ghost use Rattle.refine.specs.Requests.{child_at, label_at, firsts_of};
ghost use Rattle.refine.specs.Loops.{low_at, Linking, Numbering, Making, Adds, made_to, Writing, Numbered, Behind};
ghost use Rattle.refine.specs.Loops.{Worked, Finished, Refinable, points_after};
ghost use Rattle.lists.specs.Steps.{nth};

use points::Point;
use rule_sheet::{Counts, Refusal, Tally};

// Regions of the work slice, in units of points and quads together: behind the counters of the sort and its first
// order stand the corners in the order of their edges, the first request of each request's key, and the numbers of
// the requests' points.
pub const ORDER: usize = 5;

pub const FIRST: usize = 9;

pub const NUMBERS: usize = 14;

// Every one of the first n corners is a number of the np points.
fn in_range(np: usize, n: usize, quads: &[u32]) -> bool
    requires { n ≤ length quads.now }
    ensures { result ≡ every (low_at np quads.now) n }
{
    quads[..n].iter().all(|c| (*c as usize) < np)
}

// The request for the edge of corner c.
fn request_of(c: usize) -> usize
    requires { c < 2 ^ 32 }
    ensures { result ≡ request_of c }
{
    c / 4 * 5 + c % 4
}

// Corner i in the order of edges takes over the first request of the corner before it, if that has the same edge.
fn link(np: usize, nq: usize, quads: &[u32], order: usize, first: usize, i: usize, w: &mut [u32])
    requires linking { Linking np nq quads.now order first i w.old }
    requires i_bound { i < 4 * nq }
    ensures part { Part first (5 * nq) (tabulate (linked_to np nq quads.now (i + 1)) (5 * nq))
        w.new }
    ensures kept { Kept (Out first (5 * nq)) w.old w.new }
{
    if i == 0 {
        return;
    }
    let p = w[order + i - 1] as usize;
    let c = w[order + i] as usize;
    if edges::same_edge(quads, p, c) {
        w[first + request_of(c)] = w[first + request_of(p)];
        return;
    }
}

// The first request of each edge, for all requests that are numbered there.
fn link_edges(np: usize, nq: usize, quads: &[u32], order: usize, first: usize, w: &mut [u32])
    requires { Linking np nq quads.now order first 0 w.old }
    ensures part { Part first (5 * nq) (tabulate (first_of np nq quads.now) (5 * nq)) w.new }
    ensures kept { Kept (Out first (5 * nq)) w.old w.new }
{
    for i in 0..4 * nq {
        link(np, nq, quads, order, first, i, w);
    }
}

// 1 if request t is the first of its key, else 0.
fn own_at(m: usize, first: usize, t: usize, w: &[u32]) -> usize
    requires t_lt_m { t < m }
    requires m_in_bounds { first + m ≤ length w.now }
    ensures { result ≡ cond (own (part first m w.now) t) 1 0 }
{
    usize::from(w[first + t] as usize == t)
}

// The number of the point of request t: the next one if it is the first of its key, else that of the first.
fn number_at(n: usize, m: usize, first: usize, num: usize, t: usize, next: usize, w: &[u32]) -> u32
    requires numbering { Numbering n m first num (part first m w.now) t next w.now }
    requires t_lt_m { t < m }
    ensures { result ≡ number_of n (part first m w.now) t }
{
    let f = w[first + t] as usize;
    if f == t {
        return next as u32;
    }
    w[num + f]
}

// Numbers the points of m requests behind n points, by their first requests; how many points there are then.
fn number_points(n: usize, m: usize, first: usize, num: usize, w: &mut [u32]) -> usize
    requires { Numbering n m first num (part first m w.old) 0 n w.old }
    ensures value { result ≡ n + count_to (own (part first m w.old)) m }
    ensures part { Part num m (tabulate (number_of n (part first m w.old)) m) w.new }
    ensures kept { Kept (Out num m) w.old w.new }
{
    let mut next = n;
    for t in 0..m {
        let k = number_at(n, m, first, num, t, next, w);
        next += own_at(m, first, t, w);
        w[num + t] = k;
    }
    next
}

// The point at corner j of quad q.
pub fn corner_point(
    points: &[f64],
    quads: &[u32],
    np: usize,
    nq: usize,
    q: usize,
    j: usize,
) -> Point
    requires positioned { Positioned np nq points.now quads.now }
    requires q_lt_nq { q < nq }
    requires j_bound { j < 4 }
    ensures { result ≡ point_at points.now (corner quads.now q j) }
{
    points::point_at(points, sheet::corner_at(quads, q, j))
}

// The position of the request j of quad q.
fn position(points: &[f64], quads: &[u32], np: usize, nq: usize, q: usize, j: usize) -> Point
    requires positioned { Positioned np nq points.now quads.now }
    requires q_lt_nq { q < nq }
    requires j_bound { j < 5 }
    ensures { result ≡ position_in (point_at points.now) quads.now q j }
{
    if j == 4 {
        let a = corner_point(points, quads, np, nq, q, 0);
        let b = corner_point(points, quads, np, nq, q, 1);
        let c = corner_point(points, quads, np, nq, q, 2);
        let d = corner_point(points, quads, np, nq, q, 3);
        return points::centre(a, b, c, d);
    }
    let a = corner_point(points, quads, np, nq, q, j);
    let b = corner_point(points, quads, np, nq, q, (j + 1) % 4);
    points::halfway(a, b)
}

// Copies the first n points.
pub fn copy_points(n: usize, points: &[f64], out: &mut [f64])
    requires n_in_bounds { 3 * n ≤ length points.now }
    requires n_in_bounds_2 { 3 * n ≤ length out.old }
    ensures { Front (flat_points (points_of n points.now)) out.new }
{
    for v in 0..n {
        points::put_point(out, v, points::point_at(points, v));
    }
}

// Puts the new points behind n points: for each of m requests that is the first of its key, the point that place
// gives, at the request's number.
pub fn put_new<F: Fn(usize) -> Point>(
    n: usize,
    m: usize,
    first: usize,
    num: usize,
    w: &[u32],
    out: &mut [f64],
    place: F,
)
    requires making { Making n m first num (part first m w.now) (part num m w.now) w.now (length out.old) }
    requires placed { (t : ℕ) → t < m → own (part first m w.now) t ≡ true → F.pre place t }
    ensures { Adds (F.post place) n m (part first m w.now) out.old out.new m }
{
    for t in 0..m {
        if lists::at(w, first + t) == t {
            points::put_point(out, lists::at(w, num + t), place(t));
        }
    }
}

// Puts the points of all requests at their numbers, behind the np old points.
fn put_points(
    np: usize,
    nq: usize,
    points: &[f64],
    quads: &[u32],
    first: usize,
    num: usize,
    w: &[u32],
    out: &mut [f64],
)
    requires writing { Writing np nq points.now quads.now first num (part first (5 * nq) w.now)
        (part num (5 * nq) w.now) w.now (length out.old) }
    requires numbered { Numbered np (5 * nq) (part first (5 * nq) w.now) (part num (5 * nq) w.now) }
    requires front { Front (flat_points (points_of np points.now)) out.old }
    ensures { Front (flat_points (points_of np points.now
        ++ made_to (part first (5 * nq) w.now) (position_at (point_at points.now)
        quads.now) (5 * nq))) out.new }
{
    put_new(np, 5 * nq, first, num, w, out, |t| {
        position(points, quads, np, nq, t / 5, t % 5)
    });
}

// Puts the child quad at corner c.
fn put_child(nq: usize, quads: &[u32], num: usize, c: usize, w: &[u32], out: &mut [u32])
    requires c_bound { c < 4 * nq }
    requires nq_in_bounds { 4 * nq ≤ length quads.now }
    requires nq_in_bounds_2 { num + 5 * nq ≤ length w.now }
    requires nq_in_bounds_3 { 16 * nq ≤ length out.old }
    ensures { out.new ≡ with_quad out.old c
        (child_at (nth (part num (5 * nq) w.now)) quads.now c) }
{
    let q = c / 4;
    let j = c % 4;
    let a = quads[4 * q + j];
    let b = w[num + (5 * q + j)];
    let e = w[num + (5 * q + 4)];
    let d = w[num + (5 * q + (j + 3) % 4)];
    sheet::put_quad(out, c, a, b, e, d);
}

// Puts the four children of every quad.
pub fn put_quads(nq: usize, quads: &[u32], num: usize, w: &[u32], out: &mut [u32])
    requires nq_in_bounds { 4 * nq ≤ length quads.now }
    requires nq_in_bounds_2 { num + 5 * nq ≤ length w.now }
    requires nq_in_bounds_3 { 16 * nq ≤ length out.old }
    ensures { Front (flat_quads (tabulate (child_at (nth (part num (5 * nq) w.now))
        quads.now) (4 * nq))) out.new }
{
    for c in 0..4 * nq {
        put_child(nq, quads, num, c, w, out);
    }
}

// Puts each quad's label four times.
pub fn put_labels(nq: usize, labels: &[u8], out: &mut [u8])
    requires nq_in_bounds { nq ≤ length labels.now }
    requires nq_in_bounds_2 { 4 * nq ≤ length out.old }
    ensures { Front (tabulate (label_at labels.now) (4 * nq)) out.new }
{
    for i in 0..4 * nq {
        out[i] = labels[i / 4];
    }
}

// Finds the first request of each key and numbers the new points, in regions of the work slice; how many points
// there are then.
pub fn number_sheet(np: usize, nq: usize, quads: &[u32], w: &mut [u32]) -> usize
    requires cornered { Cornered np nq quads.now }
    requires np_le_limit { np ≤ limit }
    requires nq_in_bounds { 64 * (np + nq) ≤ length w.old }
    ensures value { result ≡ points_after np nq quads.now }
    ensures worked { Worked np nq quads.now w.new }
    ensures kept { Kept (Behind np nq) w.old w.new }
{
    let n = np + nq;
    let order = ORDER * n;
    let first = FIRST * n;
    let m = 5 * nq;
    incidence::edge_order(np, nq, quads, n, 0, order, w);
    lists::number(&mut w[first..first + m]);
    link_edges(np, nq, quads, order, first, w);
    number_points(np, m, first, NUMBERS * n, w)
}

// Writes the points, quads and labels of the finer sheet.
fn put_sheet(
    np: usize,
    nq: usize,
    points: &[f64],
    quads: &[u32],
    labels: &[u8],
    w: &[u32],
    new_points: &mut [f64],
    new_quads: &mut [u32],
    new_labels: &mut [u8],
)
    requires { Finished np nq points.now quads.now labels.now w.now (length new_points.old)
        (length new_quads.old) (length new_labels.old) }
    ensures front { Front (flat_points (points_of np points.now
        ++ made_to (firsts_of np nq quads.now) (position_at (point_at points.now)
        quads.now) (5 * nq))) new_points.new }
    ensures front_2 { Front (flat_quads (tabulate (child_at (number_of np (firsts_of np nq quads.now))
        quads.now) (4 * nq))) new_quads.new }
    ensures front_3 { Front (tabulate (label_at labels.now) (4 * nq)) new_labels.new }
{
    let n = np + nq;
    copy_points(np, points, new_points);
    put_points(np, nq, points, quads, FIRST * n, NUMBERS * n, w, new_points);
    put_quads(nq, quads, NUMBERS * n, w, new_quads);
    put_labels(nq, labels, new_labels);
}

// The finer sheet of a sheet whose corners are points; 13 if the result slices or the limit hold less.
fn refine_tested(
    c: Counts,
    points: &[f64],
    quads: &[u32],
    labels: &[u8],
    new_points: &mut [f64],
    new_quads: &mut [u32],
    new_labels: &mut [u8],
    w: &mut [u32],
) -> Result<Tally, Refusal>
    requires { Refinable c (length points.now) quads.now (length labels.now) (length w.old) }
    ensures { Fills (made_or_short (finer_sheet (sheet_of c points.now quads.now
        labels.now)) (room_of new_points.old new_quads.old
        new_labels.old)) result new_points.new new_quads.new
        new_labels.new }
{
    let np = c.points;
    let nq = c.quads;
    let made = Counts {
        points: number_sheet(np, nq, quads, w),
        quads: 4 * nq,
        labels: 4 * nq,
    };
    if sheet::is_large(made) {
        return Err(Refusal::Short);
    }
    if sheet::is_short(made, new_points.len(), new_quads.len(), new_labels.len()) {
        return Err(Refusal::Short);
    }
    put_sheet(
        np, nq, points, quads, labels, w, new_points, new_quads, new_labels,
    );
    Ok(Tally {
        count: 0,
        sheet: made,
    })
}

// The finer sheet, or the first refusal; the slices behind it may hold anything.
fn refine_or_refusal(
    c: Counts,
    points: &[f64],
    quads: &[u32],
    labels: &[u8],
    new_points: &mut [f64],
    new_quads: &mut [u32],
    new_labels: &mut [u8],
    w: &mut [u32],
    floats: usize,
) -> Result<Tally, Refusal>
    ensures { Fills (refine_rule (lent_of c points.now quads.now labels.now)
        (work_with (length w.old) floats) (room_of new_points.old new_quads.old
        new_labels.old)) result new_points.new new_quads.new
        new_labels.new }
{
    sheet::lent(c, points.len(), quads.len(), labels.len(), w.len(), floats)?;
    if c.labels != c.quads {
        return Err(Refusal::Bare);
    }
    if in_range(c.points, 4 * c.quads, quads) {
        return refine_tested(
            c, points, quads, labels, new_points, new_quads, new_labels, w,
        );
    }
    Err(Refusal::Corner)
}

// Refines a sheet: a halfway point on each edge, a centre in each quad, four quads for each. The sheet goes to the
// result slices, the answer has its counts.
pub fn refine(
    c: Counts,
    points: &[f64],
    quads: &[u32],
    labels: &[u8],
    new_points: &mut [f64],
    new_quads: &mut [u32],
    new_labels: &mut [u8],
    work: &mut [u32],
    floats: &mut [f64],
) -> Result<Tally, Refusal>
    ensures sheet { let x = lent_of c points.now quads.now labels.now in
        let room = room_of new_points.old new_quads.old new_labels.old in
        Makes (refine_rule x (work_of work.old floats.old) room) room result
        new_points.new new_quads.new new_labels.new }
    ensures cleared { Cleared work.old floats.old work.new
        floats.new }
{
    let r = refine_or_refusal(
        c,
        points,
        quads,
        labels,
        new_points,
        new_quads,
        new_labels,
        work,
        floats.len(),
    );
    sheet::clear_unused(sheet::shown_counts(r), new_points, new_quads, new_labels);
    sheet::clear_work(work, floats);
    r
}
