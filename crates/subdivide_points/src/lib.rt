// The finer sheet with its points smoothed by Catmull and Clark's rule, with creases between labels.

#![tactic(auto)]

ghost use Rattle.std.specs.Prelude.{◌≡◌, true, cond, ◌++◌, map, ◌+◌, ◌*◌, ◌/◌, ◌%◌, ◌<◌, ◌≤◌, length, get_or};
ghost use Rattle.rule_sheet.specs.Lent.{limit};
ghost use Rattle.lists.specs.Sort.{tabulate};
ghost use Rattle.lists.specs.Regions.{part, Part, Out, Kept};
ghost use Rattle.points.specs.Points.{point_at};
ghost use Rattle.rule_sheet.specs.Quads.{all};
ghost use Rattle.rule_sheet.specs.Flat.{quad_at, quads_of, flat_quads};
ghost use Rattle.rule_sheet.specs.Sheet.{points_of, flat_points};
ghost use Rattle.rule_sheet.specs.Tests.{proper};
ghost use Rattle.sheet.specs.Results.{Front};
ghost use Rattle.incidence.specs.Corners.{Cornered, edge_order, Positioned};
ghost use Rattle.incidence.specs.Marks.{Incident};
ghost use Rattle.smoothing.specs.Smooth.{sum_of};
ghost use Rattle.smoothing.specs.Rounded.{pointwise};
ghost use Rattle.refine.specs.Loops.{order_at, made_to, Numbered};
ghost use Rattle.rule_finer.specs.Smoothed.{paired, smooth_sheet};
ghost use Rattle.rule_sheet.specs.Places.{centre_of};
ghost use Rattle.subdivide_points.specs.Steps.{ones_of, Below, Low, Lead, end_at, Ends, Pairing, Seconds};
ghost use Rattle.subdivide_points.specs.Steps.{corner_centre};
ghost use Rattle.subdivide_points.specs.Steps.{other_end, halfway_to, crease_at, creases_of, with_crease, crease_ends};
ghost use Rattle.subdivide_points.specs.Steps.{moved_by, interior_at, edge_at, corner_of, place_at, seconds_at};
ghost use Rattle.subdivide_points.specs.Steps.{BeforeScratch, Spans, Listed, Gathered, moved_in, Placing};
ghost use Rattle.subdivide_points.specs.Steps.{Gathering, Smoothable, flat_sheet};

use incidence::Key;
use points::Point;

// Regions of the work slice behind those of the finer sheet, in units of points and quads together: the masks, a
// region that sorts use, the corners of each point behind where they begin, the same for the ends of edges, and the
// second corner of each edge.
pub const MASKS: usize = 19;

const SCRATCH: usize = 20;

const STARTS: usize = 24;

const LIST: usize = 25;

const END_STARTS: usize = 29;

const END_LIST: usize = 30;

const SECONDS: usize = 34;

// The crease edges at a point: where they lead, if there are one or two.
#[derive(Clone, Copy)]
pub enum Creases {
    Zero,
    One(usize),
    Two(usize, usize),
    More,
}

// How many bits of a mask of eight are set.
pub fn ones(m: u32) -> u32
    ensures { result ≡ ones_of m }
{
    m % 2 + m / 2 % 2 + m / 4 % 2 + m / 8 % 2 + m / 16 % 2 + m / 32 % 2 + m / 64 % 2 + m / 128 % 2
}

// The end of an edge at place i: its smaller point at even places, its larger one at odd places.
fn end_at(quads: &[u32], nq: usize, order: usize, i: usize, w: &[u32]) -> u32
    requires nq_in_bounds { 4 * nq ≤ length quads.now }
    requires below { Below (4 * nq) order (4 * nq) w.now }
    requires i_bound { i < 4 * nq }
    ensures { result ≡ end_at quads.now (part order (4 * nq) w.now) i }
{
    let c = lists::at(w, order + i);
    let a = quads[c];
    let b = quads[c / 4 * 4 + (c + 1) % 4];
    if i % 2 == 0 {
        return if a <= b { a } else { b };
    }
    if a <= b { b } else { a }
}

// The ends of all edges, two to an edge.
fn put_ends(quads: &[u32], nq: usize, order: usize, w: &[u32], ends: &mut [u32])
    requires nq_in_bounds { 4 * nq ≤ length quads.now }
    requires below { Below (4 * nq) order (4 * nq) w.now }
    requires nq_in_bounds_2 { 4 * nq ≤ length ends.old }
    ensures { Front (tabulate (end_at quads.now (part order (4 * nq) w.now)) (4 * nq))
        ends.new }
{
    for i in 0..4 * nq {
        ends[i] = end_at(quads, nq, order, i, w);
    }
}

// Notes, for the first corner of each edge, the second one.
fn put_seconds(nq: usize, order: usize, second: usize, w: &mut [u32])
    requires { Pairing nq order second (part order (4 * nq) w.old) w.old }
    ensures seconds { Seconds second (part order (4 * nq) w.old) (2 * nq) w.new }
    ensures kept { Kept (Out second (4 * nq)) w.old w.new }
{
    for k in 0..2 * nq {
        let c = lists::at(w, order + 2 * k);
        w[second + c] = w[order + (2 * k + 1)];
    }
}

// The centre of quad q.
pub fn centre_at(points: &[f64], quads: &[u32], np: usize, nq: usize, q: usize) -> Point
    requires positioned { Positioned np nq points.now quads.now }
    requires q_lt_nq { q < nq }
    ensures { result ≡ centre_of (point_at points.now) (quad_at quads.now q) }
{
    let a = refine::corner_point(points, quads, np, nq, q, 0);
    let b = refine::corner_point(points, quads, np, nq, q, 1);
    let c = refine::corner_point(points, quads, np, nq, q, 2);
    let d = refine::corner_point(points, quads, np, nq, q, 3);
    points::centre(a, b, c, d)
}

// The sum of the centres of the quads of some corners.
fn sum_centres(points: &[f64], quads: &[u32], np: usize, nq: usize, corners: &[u32]) -> Point
    requires positioned { Positioned np nq points.now quads.now }
    requires low { Low (4 * nq) corners.now }
    ensures { result ≡ sum_of pointwise (map (corner_centre points.now quads.now) corners.now) }
{
    let mut sum = points::origin();
    for c in corners {
        sum = points::add(sum, centre_at(points, quads, np, nq, *c as usize / 4));
    }
    sum
}

// The other end of the edge whose end stands at place i of the ends of edges.
fn other_end(ends: &[u32], i: usize) -> usize
    requires { i / 2 * 2 + 1 < length ends.now }
    ensures { result ≡ other_end ends.now i }
{
    lists::at(ends, i / 2 * 2 + (i + 1) % 2)
}

// The sum of the halfway points from p to the other ends of the edges at some places.
fn sum_halfways(
    p: Point,
    points: &[f64],
    ends: &[u32],
    np: usize,
    nq: usize,
    places: &[u32],
) -> Point
    requires positioned { Positioned np nq points.now ends.now }
    requires low { Low (4 * nq) places.now }
    ensures { result ≡ sum_of pointwise (map (halfway_to p points.now ends.now) places.now) }
{
    let mut sum = points::origin();
    for i in places {
        let q = points::point_at(points, other_end(ends, *i as usize));
        sum = points::add(sum, points::halfway(p, q));
    }
    sum
}

// One more crease, which leads to u.
fn with_crease(c: Creases, u: usize) -> Creases
    ensures { result ≡ with_crease c u }
{
    match c {
        Creases::Zero => Creases::One(u),
        Creases::One(a) => Creases::Two(a, u),
        Creases::Two(_, _) | Creases::More => Creases::More,
    }
}

// Whether the edge whose end stands at place i is a crease, by its two corners in the order of edges.
fn is_crease(labels: &[u8], nq: usize, order: usize, i: usize, w: &[u32]) -> bool
    requires nq_in_bounds { nq ≤ length labels.now }
    requires below { Below (4 * nq) order (4 * nq) w.now }
    requires i_bound { i < 4 * nq }
    ensures { result ≡ crease_at labels.now (part order (4 * nq) w.now) i }
{
    let c = lists::at(w, order + i / 2 * 2);
    let d = lists::at(w, order + (i / 2 * 2 + 1));
    lists::byte_at(labels, c / 4) != lists::byte_at(labels, d / 4)
}

// The creases among the edges at some places.
fn creases_at(
    labels: &[u8],
    ends: &[u32],
    nq: usize,
    order: usize,
    places: &[u32],
    w: &[u32],
) -> Creases
    requires nq_in_bounds { nq ≤ length labels.now }
    requires nq_in_bounds_2 { 4 * nq ≤ length ends.now }
    requires below { Below (4 * nq) order (4 * nq) w.now }
    requires low { Low (4 * nq) places.now }
    ensures { result ≡ creases_of (crease_ends labels.now (part order (4 * nq) w.now)
        ends.now places.now) }
{
    let mut c = Creases::Zero;
    for i in places {
        if is_crease(labels, nq, order, *i as usize, w) {
            c = with_crease(c, other_end(ends, *i as usize));
        }
    }
    c
}

// The corners of point v in the list of corners by point.
pub fn span_at<'a>(
    np: usize,
    nq: usize,
    quads: &[u32],
    starts: usize,
    list: usize,
    v: usize,
    w: &'a [u32],
) -> &'a [u32]
    requires incident { Incident np nq quads.now starts list 0 w.now }
    requires v_lt_np { v < np }
    ensures { Spans nq quads.now v result.now }
{
    let s = lists::at(w, starts + v);
    let e = lists::at(w, starts + v + 1);
    &w[list + s..list + e]
}

// Where point v comes to inside one label.
fn interior_at(
    points: &[f64],
    quads: &[u32],
    ends: &[u32],
    np: usize,
    nq: usize,
    v: usize,
    w: &[u32],
) -> Point
    requires np_in_bounds { 3 * np ≤ length points.now }
    requires listed { Listed np nq quads.now ends.now w.now }
    requires v_lt_np { v < np }
    ensures { result ≡ interior_at nq points.now quads.now ends.now v }
{
    let n = np + nq;
    let p = points::point_at(points, v);
    let a = span_at(np, nq, quads, STARTS * n, LIST * n, v, w);
    let b = span_at(np, nq, ends, END_STARTS * n, END_LIST * n, v, w);
    let faces = sum_centres(points, quads, np, nq, a);
    let edges = sum_halfways(p, points, ends, np, nq, b);
    smoothing::interior_point(p, a.len(), faces, b.len(), edges)
}

// Where point v comes to by its creases.
fn moved_by(
    c: Creases,
    points: &[f64],
    quads: &[u32],
    ends: &[u32],
    np: usize,
    nq: usize,
    v: usize,
    w: &[u32],
) -> Point
    requires lead { Lead np c }
    requires np_in_bounds { 3 * np ≤ length points.now }
    requires listed { Listed np nq quads.now ends.now w.now }
    requires v_lt_np { v < np }
    ensures { result ≡ moved_by points.now c (point_at points.now v)
        (interior_at nq points.now quads.now ends.now v) }
{
    let p = points::point_at(points, v);
    match c {
        Creases::Zero => interior_at(points, quads, ends, np, nq, v, w),
        Creases::Two(a, b) => {
            smoothing::crease_point(p, points::point_at(points, a), points::point_at(points, b))
        }
        Creases::One(_) | Creases::More => p,
    }
}

// Where point v comes to: one of more than two labels stays, another is moved by its creases.
fn old_point(
    points: &[f64],
    quads: &[u32],
    labels: &[u8],
    ends: &[u32],
    np: usize,
    nq: usize,
    v: usize,
    w: &[u32],
) -> Point
    requires gathered { Gathered np nq points.now quads.now labels.now ends.now w.now }
    requires v_lt_np { v < np }
    ensures { result ≡ moved_in np nq points.now quads.now labels.now
        ends.now w.now v }
{
    let n = np + nq;
    if ones(w[MASKS * n + v]) > 2 {
        return points::point_at(points, v);
    }
    let s = span_at(np, nq, ends, END_STARTS * n, END_LIST * n, v, w);
    let c = creases_at(labels, ends, nq, refine::ORDER * n, s, w);
    moved_by(c, points, quads, ends, np, nq, v, w)
}

// Puts the old points where they come to.
fn put_old_points(
    points: &[f64],
    quads: &[u32],
    labels: &[u8],
    ends: &[u32],
    np: usize,
    nq: usize,
    w: &[u32],
    out: &mut [f64],
)
    requires gathered { Gathered np nq points.now quads.now labels.now ends.now w.now }
    requires np_in_bounds { 3 * np ≤ length out.old }
    ensures { Front (flat_points (tabulate (moved_in np nq points.now quads.now
        labels.now ends.now w.now) np)) out.new }
{
    for v in 0..np {
        let p = old_point(points, quads, labels, ends, np, nq, v, w);
        points::put_point(out, v, p);
    }
}

// The new point of the edge whose corners are c and d.
fn edge_place(
    points: &[f64],
    quads: &[u32],
    labels: &[u8],
    np: usize,
    nq: usize,
    c: usize,
    d: usize,
) -> Point
    requires positioned { Positioned np nq points.now quads.now }
    requires nq_in_bounds { nq ≤ length labels.now }
    requires c_bound { c < 4 * nq }
    requires d_bound { d < 4 * nq }
    ensures { result ≡ edge_at points.now quads.now labels.now c d }
{
    let a = points::point_at(points, incidence::key_at(quads, Key::Smaller, c));
    let b = points::point_at(points, incidence::key_at(quads, Key::Larger, c));
    if lists::byte_at(labels, c / 4) != lists::byte_at(labels, d / 4) {
        return points::halfway(a, b);
    }
    let f = centre_at(points, quads, np, nq, c / 4);
    let g = centre_at(points, quads, np, nq, d / 4);
    smoothing::edge_point(a, b, f, g)
}

// Where the new point of request t comes to.
fn new_place(
    points: &[f64],
    quads: &[u32],
    labels: &[u8],
    np: usize,
    nq: usize,
    second: usize,
    t: usize,
    w: &[u32],
) -> Point
    requires positioned { Positioned np nq points.now quads.now }
    requires nq_in_bounds { nq ≤ length labels.now }
    requires nq_in_bounds_2 { second + 4 * nq ≤ length w.now }
    requires t_bound { t < 5 * nq }
    requires t_bound_2 { (t % 5 ≡ 4 → ⊥) → get_or w.now (second + corner_of t) 0 < 4 * nq }
    ensures { result ≡ place_at points.now quads.now labels.now
        (part second (4 * nq) w.now) t }
{
    if t % 5 == 4 {
        return centre_at(points, quads, np, nq, t / 5);
    }
    let c = t / 5 * 4 + t % 5;
    let d = lists::at(w, second + c);
    edge_place(points, quads, labels, np, nq, c, d)
}

// Puts the new points of all requests at their numbers, behind the np points in front.
fn put_places(
    np: usize,
    nq: usize,
    points: &[f64],
    quads: &[u32],
    labels: &[u8],
    first: usize,
    num: usize,
    second: usize,
    w: &[u32],
    out: &mut [f64],
)
    requires placing { Placing np nq points.now quads.now labels.now first num second (part first (5 * nq) w.now)
        (part num (5 * nq) w.now) w.now (length out.old) }
    requires numbered { Numbered np (5 * nq) (part first (5 * nq) w.now) (part num (5 * nq) w.now) }
    requires np_in_bounds { 3 * np ≤ length out.old }
    ensures { Front (flat_points (points_of np out.old
        ++ made_to (part first (5 * nq) w.now) (place_at points.now quads.now
        labels.now (part second (4 * nq) w.now)) (5 * nq))) out.new }
{
    refine::put_new(np, 5 * nq, first, num, w, out, |t| {
        new_place(points, quads, labels, np, nq, second, t, w)
    });
}

// Gathers what the smoothing reads: the ends of the edges in a slice of their own, the second corners and the lists
// by point in the work slice.
fn gather(np: usize, nq: usize, quads: &[u32], ends: &mut [u32], w: &mut [u32])
    requires { Gathering np nq quads.now (length ends.old) w.old }
    ensures ends { Ends nq quads.now (edge_order np nq quads.now) ends.new }
    ensures listed { Listed np nq quads.now ends.new w.new }
    ensures seconds { Seconds (seconds_at np nq) (edge_order np nq quads.now) (2 * nq) w.new }
    ensures kept { Kept (BeforeScratch np nq) w.old w.new }
{
    let n = np + nq;
    let order = refine::ORDER * n;
    put_ends(quads, nq, order, w, ends);
    put_seconds(nq, order, SECONDS * n, w);
    incidence::quads_at(np, nq, quads, SCRATCH * n, STARTS * n, LIST * n, w);
    incidence::quads_at(np, nq, ends, SCRATCH * n, END_STARTS * n, END_LIST * n, w);
}

// Writes the points, quads and labels of the smoothed sheet.
pub fn put_smoothed(
    np: usize,
    nq: usize,
    points: &[f64],
    quads: &[u32],
    labels: &[u8],
    w: &mut [u32],
    new_points: &mut [f64],
    new_quads: &mut [u32],
    new_labels: &mut [u8],
)
    requires { Smoothable np nq points.now quads.now labels.now w.old (length new_points.old)
        (length new_quads.old) (length new_labels.old) }
    ensures front { Front (flat_points (smooth_sheet (flat_sheet np nq points.now quads.now
        labels.now)).points) new_points.new }
    ensures front_2 { Front (flat_quads (smooth_sheet (flat_sheet np nq points.now quads.now
        labels.now)).quads) new_quads.new }
    ensures front_3 { Front (smooth_sheet (flat_sheet np nq points.now quads.now
        labels.now)).labels new_labels.new }
{
    let n = np + nq;
    let first = refine::FIRST * n;
    let num = refine::NUMBERS * n;
    gather(np, nq, quads, new_quads, w);
    put_old_points(points, quads, labels, new_quads, np, nq, w, new_points);
    put_places(
        np,
        nq,
        points,
        quads,
        labels,
        first,
        num,
        SECONDS * n,
        w,
        new_points,
    );
    refine::put_quads(nq, quads, num, w, new_quads);
    refine::put_labels(nq, labels, new_labels);
}

// Whether every edge has exactly two quads.
pub fn is_paired(np: usize, nq: usize, quads: &[u32], w: &[u32]) -> bool
    requires cornered { Cornered np nq quads.now }
    requires np_le_limit { np ≤ limit }
    requires quads_value { all (proper np) (quads_of nq quads.now) ≡ true }
    requires part { Part (order_at np nq) (4 * nq) (edge_order np nq quads.now) w.now }
    ensures { result ≡ paired np (quads_of nq quads.now) }
{
    let c = edges::edge_counts(np, nq, quads, refine::ORDER * (np + nq), w);
    (c.boundary == 0) & (c.nonmanifold == 0)
}
