// Where the copies lie, and the points of the sheet with rows: the old ones, and behind them the copies.

#![tactic(auto)]

ghost use Rattle.std.specs.Prelude.{◌≡◌, true, ◌++◌, ◌*◌, ◌<◌, ◌≤◌, length};
ghost use Rattle.lists.specs.Sort.{keep};
ghost use Rattle.lists.specs.Every.{every};
ghost use Rattle.lists.specs.Regions.{part};
ghost use Rattle.band.specs.Bands.{length_of};
ghost use Rattle.setting.specs.Settings.{setting_of};
ghost use Rattle.rule_sheet.specs.Sheet.{points_of, flat_points};
ghost use Rattle.sheet.specs.Results.{Front};
ghost use Rattle.incidence.specs.Corners.{Positioned};
ghost use Rattle.incidence.specs.Marks.{Incident};
ghost use Rattle.subdivide_points.specs.Steps.{Low};
ghost use Rattle.rule_rows.specs.Rows.{first_step, try_count, try_from};
ghost use Rattle.rows_gather.specs.Steps.{points_after, starts_at, list_at, masks_at, Labelled, Gathered};
ghost use Rattle.rows_copies.specs.Steps.{of_label, centres_of, with_centre, inward_at, copy_at, found_at, put_copy};
ghost use Rattle.rows_copies.specs.Steps.{copies_to};

use band::Band;
use points::Point;
use projection::{LONGEST_MOVE, LOOKS};

// The first step of a copy towards the centres, and how many are tried, each half as long as the one before.
pub const FIRST_STEP: f64 = 0.7;

pub const TRIES: usize = 20;

// The sum of some centres, and how many there are.
#[derive(Clone, Copy)]
pub struct Centres {
    pub sum: Point,
    pub count: usize,
}

// One centre more.
fn with_centre(c: Centres, p: Point) -> Centres
    requires { c.count < 4294967296 }
    ensures { result ≡ with_centre c p }
{
    Centres {
        sum: points::add(c.sum, p),
        count: c.count + 1,
    }
}

// The centres of those quads of some corners that have the label l.
fn centres_at(
    points: &[f64],
    quads: &[u32],
    labels: &[u8],
    np: usize,
    nq: usize,
    corners: &[u32],
    l: u32,
) -> Centres
    requires positioned { Positioned np nq points.now quads.now }
    requires nq_in_bounds { nq ≤ length labels.now }
    requires low { Low (4 * nq) corners.now }
    requires few { length corners.now < 4294967296 }
    ensures { result ≡ centres_of points.now quads.now
        (keep (of_label labels.now l) corners.now) }
{
    let mut c = Centres {
        sum: points::origin(),
        count: 0,
    };
    for corner in corners {
        let q = *corner as usize / 4;
        if lists::byte_at(labels, q) == l {
            let p = subdivide_points::centre_at(points, quads, np, nq, q);
            c = with_centre(c, p);
        }
    }
    c
}

// The first projection of p + d × step that succeeds, the steps halved from the first on.
fn first_found(b: Band, len: f64, p: Point, d: Point, mask: u8) -> Option<Point>
    requires { len ≡ length_of b }
    ensures { result ≡ try_from try_count (setting_of b) p d mask first_step }
{
    let mut step = FIRST_STEP;
    for _tried in 0..TRIES {
        let q = points::add(p, points::mul(d, step));
        let r = projection::project(b, len, LONGEST_MOVE, LOOKS, q, mask);
        if let Some(_) = r {
            return r;
        }
        step *= 0.5;
    }
    None
}

// From point v to the mean of the centres of the quads of the label l at it.
fn inward_at(
    points: &[f64],
    quads: &[u32],
    labels: &[u8],
    np: usize,
    nq: usize,
    v: usize,
    l: u32,
    w: &[u32],
) -> Point
    requires labelled { Labelled np nq points.now quads.now labels.now }
    requires incident { Incident np nq quads.now (starts_at np nq) (list_at np nq) 0 w.now }
    requires v_lt_np { v < np }
    ensures { result ≡ inward_at nq points.now quads.now labels.now v l }
{
    let n = np + nq;
    let s = subdivide_points::span_at(
        np,
        nq,
        quads,
        rows_gather::STARTS * n,
        rows_gather::LIST * n,
        v,
        w,
    );
    let c = centres_at(points, quads, labels, np, nq, s, l);
    let mean = smoothing::mean(c.sum, c.count);
    points::sub(mean, points::point_at(points, v))
}

// The copy of the key k.
fn copy_at(
    b: Band,
    len: f64,
    points: &[f64],
    quads: &[u32],
    labels: &[u8],
    np: usize,
    nq: usize,
    k: usize,
    w: &[u32],
) -> Option<Point>
    requires len_value { len ≡ length_of b }
    requires labelled { Labelled np nq points.now quads.now labels.now }
    requires incident { Incident np nq quads.now (starts_at np nq) (list_at np nq) 0 w.now }
    requires k_bound { k < 8 * np }
    ensures { result ≡ copy_at (setting_of b) nq points.now quads.now labels.now
        k }
{
    let l = (k % 8) as u32;
    let d = inward_at(points, quads, labels, np, nq, k / 8, l, w);
    let p = points::point_at(points, k / 8);
    first_found(b, len, p, d, (1u32 << l) as u8)
}

// Puts the copy of the key k at its number, if it has one; whether it is found.
fn put_copy(
    b: Band,
    len: f64,
    points: &[f64],
    quads: &[u32],
    labels: &[u8],
    np: usize,
    nq: usize,
    k: usize,
    w: &[u32],
    out: &mut [f64],
) -> bool
    requires len_value { len ≡ length_of b }
    requires gathered { Gathered np nq points.now quads.now labels.now (part (masks_at np nq) np w.now) w.now }
    requires k_bound { k < 8 * np }
    requires w_in_bounds { 3 * points_after np (part (masks_at np nq) np w.now) ≤ length out.old }
    ensures value { result ≡ found_at (setting_of b) nq points.now quads.now labels.now
        (part (masks_at np nq) np w.now) k }
    ensures out_after { result ≡ true → out.new ≡ put_copy (setting_of b) np nq points.now
        quads.now labels.now (part (masks_at np nq) np w.now) k
        out.old }
{
    let n = np + nq;
    if rows_gather::is_copied(np, rows_gather::MASKS * n, k, w) {
        let r = copy_at(b, len, points, quads, labels, np, nq, k, w);
        let Some(p) = r else {
            return false;
        };
        points::put_point(out, lists::at(w, rows_gather::NUMBERS * n + k), p);
        return true;
    }
    true
}

// Puts all copies behind the np old points, ps; whether all are found.
pub fn put_copies(
    b: Band,
    points: &[f64],
    quads: &[u32],
    labels: &[u8],
    np: usize,
    nq: usize,
    w: &[u32],
    out: &mut [f64],
) -> bool
    requires gathered { Gathered np nq points.now quads.now labels.now (part (masks_at np nq) np w.now) w.now }
    requires w_in_bounds { 3 * points_after np (part (masks_at np nq) np w.now) ≤ length out.old }
    requires front { Front (flat_points (points_of np points.now)) out.old }
    ensures value { result ≡ every (found_at (setting_of b) nq points.now quads.now
        labels.now (part (masks_at np nq) np w.now)) (8 * np) }
    ensures front_2 { result ≡ true → Front (flat_points (points_of np points.now
        ++ copies_to (setting_of b) nq points.now quads.now labels.now
        (part (masks_at np nq) np w.now) (8 * np))) out.new }
{
    let len = band::length(b);
    for k in 0..8 * np {
        if !put_copy(b, len, points, quads, labels, np, nq, k, w, out) {
            return false;
        }
    }
    true
}
