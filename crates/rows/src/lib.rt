// A row of quads along the edges between two labels: each point at such an edge gets a copy for each of its labels,
// and strips of quads join the points to their copies.

#![tactic(auto)]

ghost use Rattle.std.specs.Prelude.{◌≡◌, ◌≤◌, length};
ghost use Rattle.setting.specs.Settings.{setting_of};
ghost use Rattle.rule_sheet.specs.Sheet.{sheet_of, sheet_verdict};
ghost use Rattle.sheet.specs.Sheet.{LentSheet};
ghost use Rattle.sheet.specs.Results.{Fills};
ghost use Rattle.rule_sheet.specs.Results.{Makes, Cleared};
ghost use Rattle.rule_sheet.specs.Lent.{lent_of, room_of, work_of, work_with};
ghost use Rattle.subdivide_points.specs.Steps.{flat_sheet};
ghost use Rattle.rule_rows.specs.Rows.{rows_made, rowed, rows_rule};
ghost use Rattle.rows.specs.Steps.{made_by, Finished, Tested};

use band::Band;
use rule_sheet::{Counts, Refusal, Tally};

// The answer for the sheet with rows, which is tested as a lent one.
fn tested(
    c: Counts,
    points: &[f64],
    quads: &[u32],
    labels: &[u8],
    w: &mut [u32],
) -> Result<Tally, Refusal>
    requires lent_sheet { LentSheet c (length points.now) (length quads.now) (length labels.now) }
    requires points_in_bounds { c.points ≤ length w.old }
    ensures { result ≡ made_by c (sheet_verdict (sheet_of c points.now quads.now
        labels.now)) }
{
    let n = c.points;
    sheet::constraints(c, points, quads, labels, &mut w[..n])?;
    Ok(Tally { count: 0, sheet: c })
}

// Writes the sheet with rows, whose counts are m, and tests it: 10, 8, 7.
fn put_sheet(
    b: Band,
    m: Counts,
    points: &[f64],
    quads: &[u32],
    labels: &[u8],
    np: usize,
    nq: usize,
    new_points: &mut [f64],
    new_quads: &mut [u32],
    new_labels: &mut [u8],
    w: &mut [u32],
) -> Result<Tally, Refusal>
    requires { Finished m np nq points.now quads.now labels.now w.old (length new_points.old)
        (length new_quads.old) (length new_labels.old) }
    ensures { Fills (rows_made (setting_of b) (flat_sheet np nq points.now quads.now
        labels.now)) result new_points.new new_quads.new new_labels.new }
{
    refine::copy_points(np, points, new_points);
    if !rows_copies::put_copies(b, points, quads, labels, np, nq, w, new_points) {
        return Err(Refusal::Row);
    }
    if !subdivide_points::is_paired(np, nq, quads, w) {
        return Err(Refusal::Edge);
    }
    rows_quads::put_quads(
        points,
        quads,
        labels,
        np,
        nq,
        m.quads - nq,
        w,
        new_quads,
        new_labels,
    );
    tested(m, new_points, new_quads, new_labels, w)
}

// The sheet with rows of a sheet that the tests accept, its masks in the work slice.
fn rows_tested(
    b: Band,
    c: Counts,
    points: &[f64],
    quads: &[u32],
    labels: &[u8],
    new_points: &mut [f64],
    new_quads: &mut [u32],
    new_labels: &mut [u8],
    w: &mut [u32],
) -> Result<Tally, Refusal>
    requires { Tested c points.now quads.now labels.now w.old }
    ensures { Fills (rowed (setting_of b) (sheet_of c points.now quads.now
        labels.now) (room_of new_points.old new_quads.old
        new_labels.old)) result new_points.new new_quads.new
        new_labels.new }
{
    let m = rows_gather::gather(quads, labels, c.points, c.quads, w);
    if sheet::is_over(m, new_points.len(), new_quads.len(), new_labels.len()) {
        return Err(Refusal::Short);
    }
    put_sheet(
        b, m, points, quads, labels, c.points, c.quads, new_points, new_quads, new_labels, w,
    )
}

// The sheet with rows, or the first refusal; the slices behind it may hold anything.
fn rows_or_refusal(
    b: Band,
    c: Counts,
    points: &[f64],
    quads: &[u32],
    labels: &[u8],
    new_points: &mut [f64],
    new_quads: &mut [u32],
    new_labels: &mut [u8],
    w: &mut [u32],
    floats: usize,
) -> Result<Tally, Refusal>
    ensures { Fills (rows_rule (setting_of b) (lent_of c points.now quads.now
        labels.now) (work_with (length w.old) floats) (room_of new_points.old
        new_quads.old new_labels.old)) result new_points.new
        new_quads.new new_labels.new }
{
    admission::admit(b, c, points, quads, labels, rows_gather::MASKS, w, floats)?;
    rows_tested(
        b, c, points, quads, labels, new_points, new_quads, new_labels, w,
    )
}

// Inserts a row of quads along each edge between two labels. The sheet goes to the result slices, the answer has
// its counts.
pub fn boundary_rows(
    b: Band,
    c: Counts,
    points: &[f64],
    quads: &[u32],
    labels: &[u8],
    new_points: &mut [f64],
    new_quads: &mut [u32],
    new_labels: &mut [u8],
    work: &mut [u32],
    floats: &mut [f64],
) -> Result<Tally, Refusal>
    ensures sheet { let x = lent_of c points.now quads.now labels.now in
        let room = room_of new_points.old new_quads.old new_labels.old in
        Makes (rows_rule (setting_of b) x (work_of work.old floats.old) room) room result
        new_points.new new_quads.new new_labels.new }
    ensures cleared { Cleared work.old floats.old work.new
        floats.new }
{
    let r = rows_or_refusal(
        b,
        c,
        points,
        quads,
        labels,
        new_points,
        new_quads,
        new_labels,
        work,
        floats.len(),
    );
    sheet::clear_unused(sheet::shown_counts(r), new_points, new_quads, new_labels);
    sheet::clear_work(work, floats);
    r
}
