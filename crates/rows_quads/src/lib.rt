// The quads of the sheet with rows, and their labels: the old ones, whose corners are copies, and behind them the
// strips.

#![tactic(auto)]

ghost use Rattle.std.specs.Prelude.{◌≡◌, ◌++◌, map, ◌+◌, ◌*◌, ◌<◌, ◌≤◌, length, take};
ghost use Rattle.lists.specs.Sort.{tabulate};
ghost use Rattle.lists.specs.Regions.{part};
ghost use Rattle.rule_sheet.specs.Flat.{flat_quads};
ghost use Rattle.sheet.specs.Flat.{with_quad};
ghost use Rattle.sheet.specs.Results.{Front};
ghost use Rattle.rows_quads.specs.Steps.{corner_in, strip_in};
ghost use Rattle.rows_gather.specs.Steps.{masks_at, seams_of, corner_label, Gathered};

// What stands for corner c: the copy of its point, where there is one.
fn corner_for(
    points: &[f64],
    quads: &[u32],
    labels: &[u8],
    np: usize,
    nq: usize,
    c: usize,
    w: &[u32],
) -> u32
    requires gathered { Gathered np nq points.now quads.now labels.now (part (masks_at np nq) np w.now) w.now }
    requires c_bound { c < 4 * nq }
    ensures { result ≡ corner_in np quads.now labels.now
        (part (masks_at np nq) np w.now) c }
{
    let n = np + nq;
    let k = 8 * lists::at(quads, c) + lists::byte_at(labels, c / 4) as usize;
    if rows_gather::is_copied(np, rows_gather::MASKS * n, k, w) {
        return w[rows_gather::NUMBERS * n + k];
    }
    quads[c]
}

// Puts the quads with their corners replaced by the copies.
fn put_copied(
    points: &[f64],
    quads: &[u32],
    labels: &[u8],
    np: usize,
    nq: usize,
    w: &[u32],
    out: &mut [u32],
)
    requires gathered { Gathered np nq points.now quads.now labels.now (part (masks_at np nq) np w.now) w.now }
    requires nq_in_bounds { 4 * nq ≤ length out.old }
    ensures { Front (tabulate (corner_in np quads.now labels.now
        (part (masks_at np nq) np w.now)) (4 * nq)) out.new }
{
    for c in 0..4 * nq {
        out[c] = corner_for(points, quads, labels, np, nq, c, w);
    }
}

// Copies the labels.
fn copy_labels(nq: usize, labels: &[u8], out: &mut [u8])
    requires nq_in_bounds { nq ≤ length labels.now }
    requires nq_in_bounds_2 { nq ≤ length out.old }
    ensures { Front (take nq labels.now) out.new }
{
    lists::copy(&mut out[..nq], &labels[..nq]);
}

// Puts the strip at corner c to place i.
fn put_strip(
    points: &[f64],
    quads: &[u32],
    labels: &[u8],
    np: usize,
    nq: usize,
    c: usize,
    i: usize,
    w: &[u32],
    out: &mut [u32],
)
    requires gathered { Gathered np nq points.now quads.now labels.now (part (masks_at np nq) np w.now) w.now }
    requires c_bound { c < 4 * nq }
    requires i_in_bounds { 4 * i + 4 ≤ length out.old }
    ensures { out.new ≡ with_quad out.old i
        (strip_in np quads.now labels.now (part (masks_at np nq) np w.now) c) }
{
    let num = rows_gather::NUMBERS * (np + nq);
    let l = lists::byte_at(labels, c / 4) as usize;
    let a = quads[c];
    let b = quads[c / 4 * 4 + (c + 1) % 4];
    let e = w[num + (8 * b as usize + l)];
    let f = w[num + (8 * a as usize + l)];
    sheet::put_quad(out, i, a, b, e, f);
}

// Puts the m strips.
fn put_strips(
    points: &[f64],
    quads: &[u32],
    labels: &[u8],
    np: usize,
    nq: usize,
    m: usize,
    w: &[u32],
    out: &mut [u32],
)
    requires gathered { Gathered np nq points.now quads.now labels.now (part (masks_at np nq) np w.now) w.now }
    requires m_value { m ≡ length (seams_of np nq quads.now labels.now) }
    requires m_in_bounds { 4 * m ≤ length out.old }
    ensures { Front (flat_quads (map (strip_in np quads.now labels.now
        (part (masks_at np nq) np w.now)) (seams_of np nq quads.now labels.now)))
        out.new }
{
    let at = rows_gather::SEAMS * (np + nq);
    for t in 0..m {
        let c = lists::at(w, at + t);
        put_strip(points, quads, labels, np, nq, c, t, w, out);
    }
}

// Puts the labels of the m strips.
fn put_strip_labels(
    points: &[f64],
    quads: &[u32],
    labels: &[u8],
    np: usize,
    nq: usize,
    m: usize,
    w: &[u32],
    out: &mut [u8],
)
    requires gathered { Gathered np nq points.now quads.now labels.now (part (masks_at np nq) np w.now) w.now }
    requires m_value { m ≡ length (seams_of np nq quads.now labels.now) }
    requires m_in_bounds { m ≤ length out.old }
    ensures { Front (map (corner_label labels.now)
        (seams_of np nq quads.now labels.now)) out.new }
{
    let at = rows_gather::SEAMS * (np + nq);
    for t in 0..m {
        out[t] = labels[lists::at(w, at + t) / 4];
    }
}

// Writes the quads and their labels: the copied ones, and behind them the m strips.
pub fn put_quads(
    points: &[f64],
    quads: &[u32],
    labels: &[u8],
    np: usize,
    nq: usize,
    m: usize,
    w: &[u32],
    new_quads: &mut [u32],
    new_labels: &mut [u8],
)
    requires gathered { Gathered np nq points.now quads.now labels.now (part (masks_at np nq) np w.now) w.now }
    requires m_value { m ≡ length (seams_of np nq quads.now labels.now) }
    requires m_in_bounds { 4 * (nq + m) ≤ length new_quads.old }
    requires m_in_bounds_2 { nq + m ≤ length new_labels.old }
    ensures front { Front (tabulate (corner_in np quads.now labels.now
        (part (masks_at np nq) np w.now)) (4 * nq)
        ++ flat_quads (map (strip_in np quads.now labels.now
        (part (masks_at np nq) np w.now)) (seams_of np nq quads.now labels.now)))
        new_quads.new }
    ensures front_2 { Front (take nq labels.now
        ++ map (corner_label labels.now) (seams_of np nq quads.now labels.now))
        new_labels.new }
{
    put_copied(points, quads, labels, np, nq, w, new_quads);
    put_strips(
        points,
        quads,
        labels,
        np,
        nq,
        m,
        w,
        &mut new_quads[4 * nq..],
    );
    copy_labels(nq, labels, new_labels);
    put_strip_labels(points, quads, labels, np, nq, m, w, &mut new_labels[nq..]);
}
