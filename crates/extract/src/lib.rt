// The sheet drawn around a band: the surface where its levels and the faces of its box are met, in quads.

#![tactic(auto)]

ghost use Rattle.std.specs.Prelude.{◌≡◌, true, ◌+◌, ◌*◌, ◌≤◌, length, take};
ghost use Rattle.setting.specs.Settings.{domain_of};
ghost use Rattle.rule_sheet.specs.Flat.{quads_of, flat_quads};
ghost use Rattle.sheet.specs.Flat.{Holds};
ghost use Rattle.rule_sheet.specs.Tests.{good_corners, good_masks};
ghost use Rattle.rule_sheet.specs.Sheet.{flat_points, sheet_of, counts_of};
ghost use Rattle.rule_sheet.specs.Lent.{room_of, work_with, work_of};
ghost use Rattle.rule_sheet.specs.Results.{answer_of, made, Makes, Cleared};
ghost use Rattle.sheet.specs.Sheet.{LentSheet};
ghost use Rattle.sheet.specs.Results.{Front, Fills};
ghost use Rattle.extract_grid.specs.Lattice.{Samples};
ghost use Rattle.rule_extract.specs.Drawing.{good_cells, short_work, drawn_sheet, drawn_or, extract_rule};
ghost use Rattle.extract.specs.Stages.{tested_or, sampled_or};

use band::Band;
use rule_extract::Grid;
use rule_sheet::{Counts, Refusal, Tally};

// The fewest and the most cells along a side of the box.
pub const FEWEST_CELLS: usize = 4;

pub const MOST_CELLS: usize = 128;

// ---- the last tests

// 7, of nq good quads and as many points as there are masks: whether no mask clashes.
fn masks_tested(nq: usize, quads: &[u32], labels: &[u8], masks: &mut [u32]) -> bool
    requires holds { Holds nq quads.now labels.now }
    requires labels_value { good_corners (length masks.old) (quads_of nq quads.now) (take nq labels.now) ≡ true }
    ensures { result ≡ good_masks (length masks.old) (quads_of nq quads.now)
        (take nq labels.now) }
{
    lists::clear(masks);
    sheet::mark_quads(nq, quads, labels, masks);
    sheet::good_masks(masks)
}

// 5 and 7, of a sheet that its slices hold and whose corners are good.
fn tested(
    c: Counts,
    points: &[f64],
    quads: &[u32],
    labels: &[u8],
    w: &mut [u32],
) -> Result<Tally, Refusal>
    requires lent_sheet { LentSheet c (length points.now) (length quads.now) (length labels.now) }
    requires points_in_bounds { c.points ≤ length w.old }
    requires labels_value { good_corners c.points (quads_of c.quads quads.now) (take c.labels labels.now) ≡ true }
    ensures { result ≡ answer_of (made (tested_or (sheet_of c points.now quads.now
        labels.now))) }
{
    if sheet::is_bare(c, points) {
        return Err(Refusal::Bare);
    }
    let n = c.points;
    if masks_tested(c.quads, quads, labels, &mut w[..n]) {
        return Ok(Tally { count: 0, sheet: c });
    }
    Err(Refusal::Clash)
}

// ---- the drawn sheet

// How many points, quads and labels the sheet has.
fn count_sheet(g: Grid, n: usize, samples: &[f64]) -> Counts
    requires { Samples g (n + 1) samples.now }
    ensures value { result ≡ counts_of (drawn_sheet g n) }
    ensures points_bound { result.points ≤ 12 * (n * n * n) }
{
    let points = extract_points::count_points(g, n, n * n * n, samples);
    let quads = extract_edges::count_quads(g, n, samples);
    Counts {
        points,
        quads,
        labels: quads,
    }
}

// Draws the sheet into the result slices.
fn draw_sheet(
    g: Grid,
    n: usize,
    samples: &[f64],
    new_points: &mut [f64],
    new_quads: &mut [u32],
    new_labels: &mut [u8],
    w: &mut [u32],
)
    requires samples { Samples g (n + 1) samples.now }
    requires n_in_bounds { 12 * (n * n * n) ≤ length w.old }
    requires lent_sheet { LentSheet (counts_of (drawn_sheet g n)) (length new_points.old) (length new_quads.old)
        (length new_labels.old) }
    ensures front { Front (flat_points (drawn_sheet g n).points) new_points.new }
    ensures front_2 { Front (flat_quads (drawn_sheet g n).quads) new_quads.new }
    ensures front_3 { Front (drawn_sheet g n).labels new_labels.new }
{
    extract_paths::put_paths(g, n, n * n * n, samples, w);
    extract_points::draw_points(g, n, samples, w, new_points);
    extract_quads::put_quads(g, n, samples, w, new_quads, new_labels);
}

// Draws the sheet of a grid whose samples are finite, if the result slices hold it: 13, 5, 7.
fn draw_or_refusal(
    g: Grid,
    n: usize,
    samples: &[f64],
    new_points: &mut [f64],
    new_quads: &mut [u32],
    new_labels: &mut [u8],
    w: &mut [u32],
) -> Result<Tally, Refusal>
    requires samples { Samples g (n + 1) samples.now }
    requires n_in_bounds { 12 * (n * n * n) ≤ length w.old }
    ensures { Fills (drawn_or (drawn_sheet g n) (room_of new_points.old new_quads.old
        new_labels.old)) result new_points.new new_quads.new
        new_labels.new }
{
    let c = count_sheet(g, n, samples);
    if sheet::is_over(c, new_points.len(), new_quads.len(), new_labels.len()) {
        return Err(Refusal::Short);
    }
    draw_sheet(g, n, samples, new_points, new_quads, new_labels, w);
    tested(c, new_points, new_quads, new_labels, w)
}

// Samples the grid and draws its sheet: 4, 13, 5, 7.
fn sample_or_refusal(
    g: Grid,
    n: usize,
    samples: &mut [f64],
    new_points: &mut [f64],
    new_quads: &mut [u32],
    new_labels: &mut [u8],
    w: &mut [u32],
) -> Result<Tally, Refusal>
    requires n_bound { n ≤ 130 }
    requires samples_len { length samples.old ≡ (n + 1) * (n + 1) * (n + 1) }
    requires n_in_bounds { 12 * (n * n * n) ≤ length w.old }
    ensures { Fills (sampled_or g n (room_of new_points.old new_quads.old
        new_labels.old)) result new_points.new new_quads.new
        new_labels.new }
{
    extract_grid::sample_grid(g, n + 1, samples);
    if extract_grid::all_finite(samples) {
        return draw_or_refusal(g, n, samples, new_points, new_quads, new_labels, w);
    }
    Err(Refusal::Samples)
}

// ---- the operation

// 3: a number of cells that extraction takes.
fn good_cells(cells: usize) -> bool
    ensures { result ≡ good_cells cells }
{
    (FEWEST_CELLS..=MOST_CELLS).contains(&cells)
}

// 13: too little work.
fn is_short_work(cells: usize, work: usize, floats: usize) -> bool
    requires { cells ≤ 128 }
    ensures { result ≡ short_work cells (work_with work floats) }
{
    let m = cells + 3;
    let n = cells + 2;
    (floats < m * m * m) | (work < 12 * (n * n * n))
}

// The drawn sheet, or the first refusal; the slices behind it may hold anything.
fn extract_or_refusal(
    b: Band,
    cells: usize,
    new_points: &mut [f64],
    new_quads: &mut [u32],
    new_labels: &mut [u8],
    w: &mut [u32],
    floats: &mut [f64],
) -> Result<Tally, Refusal>
    ensures { Fills (extract_rule (domain_of b) cells (work_of w.old floats.old)
        (room_of new_points.old new_quads.old new_labels.old)) result
        new_points.new new_quads.new new_labels.new }
{
    if !band::validate(b) {
        return Err(Refusal::Box);
    }
    if !good_cells(cells) {
        return Err(Refusal::Cells);
    }
    if is_short_work(cells, w.len(), floats.len()) {
        return Err(Refusal::Short);
    }
    let g = extract_samples::grid_of(b, cells);
    let m = cells + 3;
    let count = m * m * m;
    sample_or_refusal(
        g,
        cells + 2,
        &mut floats[..count],
        new_points,
        new_quads,
        new_labels,
        w,
    )
}

// Draws the sheet around a band, with a number of cells along each side of its box. The sheet goes to the result
// slices, the answer has its counts.
pub fn extract_candidate(
    b: Band,
    cells: usize,
    new_points: &mut [f64],
    new_quads: &mut [u32],
    new_labels: &mut [u8],
    work: &mut [u32],
    floats: &mut [f64],
) -> Result<Tally, Refusal>
    ensures sheet { Makes (extract_rule (domain_of b) cells (work_of work.old floats.old)
        (room_of new_points.old new_quads.old new_labels.old))
        (room_of new_points.old new_quads.old new_labels.old) result
        new_points.new new_quads.new new_labels.new }
    ensures cleared { Cleared work.old floats.old work.new
        floats.new }
{
    let r = extract_or_refusal(b, cells, new_points, new_quads, new_labels, work, floats);
    sheet::clear_unused(sheet::shown_counts(r), new_points, new_quads, new_labels);
    sheet::clear_work(work, floats);
    r
}
