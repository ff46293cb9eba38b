// The finer sheet with its points smoothed and then projected.

#![tactic(auto)]

ghost use Rattle.std.specs.Prelude.{◌≡◌, true, ◌*◌, ◌≤◌, length};
ghost use Rattle.lists.specs.Every.{every};
ghost use Rattle.setting.specs.Settings.{setting_of};
ghost use Rattle.rule_sheet.specs.Sheet.{flat_points, sheet_of, sheet_verdict};
ghost use Rattle.rule_sheet.specs.Lent.{lent_of, room_of, work_of, work_with};
ghost use Rattle.sheet.specs.Sheet.{LentSheet};
ghost use Rattle.rule_sheet.specs.Outcomes.{after_test};
ghost use Rattle.rule_sheet.specs.Results.{Makes, Cleared};
ghost use Rattle.sheet.specs.Results.{Fills, Front};
ghost use Rattle.rule_finer.specs.Subdivide.{projected, subdivided, subdivide_rule};
ghost use Rattle.subdivide.specs.Steps.{Masked, lands_of, landed_to, Tested};

use band::Band;
use projection::{LONGEST_MOVE, LOOKS};
use rule_sheet::{Counts, Refusal, Tally};

// Projects the first n points, each by its mask; whether all projections succeed.
fn project_points(b: Band, n: usize, masks: &[u32], points: &mut [f64]) -> bool
    requires n_in_bounds { 3 * n ≤ length points.old }
    requires masked { Masked n masks.now }
    ensures value { result ≡ every (lands_of b points.old masks.now) n }
    ensures front { result ≡ true → Front (flat_points (landed_to b points.old masks.now n))
        points.new }
{
    let len = band::length(b);
    for v in 0..n {
        let mask = lists::at(masks, v) as u8;
        let r = projection::project(
            b,
            len,
            LONGEST_MOVE,
            LOOKS,
            points::point_at(points, v),
            mask,
        );
        let Some(p) = r else {
            return false;
        };
        points::put_point(points, v, p);
    }
    true
}

// Tests the sheet in the result slices and projects its points.
fn land(
    b: Band,
    c: Counts,
    points: &mut [f64],
    quads: &[u32],
    labels: &[u8],
    w: &mut [u32],
) -> Result<Tally, Refusal>
    requires lent_sheet { LentSheet c (length points.old) (length quads.now) (length labels.now) }
    requires points_in_bounds { c.points ≤ length w.old }
    ensures { let t = sheet_of c points.old quads.now labels.now in
        Fills (after_test (sheet_verdict t) (projected (setting_of b) t)) result points.new quads.now
        labels.now }
{
    let n = c.points;
    sheet::constraints(c, points, quads, labels, &mut w[..n])?;
    if project_points(b, n, &w[..n], points) {
        return Ok(Tally { count: 0, sheet: c });
    }
    Err(Refusal::Astray)
}

// Subdivides a sheet that the tests accept, its masks in the work slice.
fn subdivide_tested(
    b: Band,
    c: Counts,
    points: &[f64],
    quads: &[u32],
    labels: &[u8],
    new_points: &mut [f64],
    new_quads: &mut [u32],
    new_labels: &mut [u8],
    w: &mut [u32],
) -> Result<Tally, Refusal>
    requires { Tested c (length points.now) quads.now labels.now w.old }
    ensures { Fills (subdivided (setting_of b) (sheet_of c points.now quads.now
        labels.now) (room_of new_points.old new_quads.old
        new_labels.old)) result new_points.new new_quads.new
        new_labels.new }
{
    let np = c.points;
    let nq = c.quads;
    let made = Counts {
        points: refine::number_sheet(np, nq, quads, w),
        quads: 4 * nq,
        labels: 4 * nq,
    };
    if sheet::is_over(made, new_points.len(), new_quads.len(), new_labels.len()) {
        return Err(Refusal::Short);
    }
    if subdivide_points::is_paired(np, nq, quads, w) {
        subdivide_points::put_smoothed(
            np, nq, points, quads, labels, w, new_points, new_quads, new_labels,
        );
        return land(b, made, new_points, new_quads, new_labels, w);
    }
    Err(Refusal::Edge)
}

// The subdivided sheet, or the first refusal; the slices behind it may hold anything.
fn subdivide_or_refusal(
    b: Band,
    c: Counts,
    points: &[f64],
    quads: &[u32],
    labels: &[u8],
    new_points: &mut [f64],
    new_quads: &mut [u32],
    new_labels: &mut [u8],
    w: &mut [u32],
    floats: usize,
) -> Result<Tally, Refusal>
    ensures { Fills (subdivide_rule (setting_of b) (lent_of c points.now quads.now
        labels.now) (work_with (length w.old) floats) (room_of new_points.old
        new_quads.old new_labels.old)) result new_points.new
        new_quads.new new_labels.new }
{
    admission::admit(
        b,
        c,
        points,
        quads,
        labels,
        subdivide_points::MASKS,
        w,
        floats,
    )?;
    subdivide_tested(
        b, c, points, quads, labels, new_points, new_quads, new_labels, w,
    )
}

// Subdivides a sheet: the finer sheet with its points smoothed and projected onto the band. The sheet goes to the
// result slices, the answer has its counts.
pub fn subdivide(
    b: Band,
    c: Counts,
    points: &[f64],
    quads: &[u32],
    labels: &[u8],
    new_points: &mut [f64],
    new_quads: &mut [u32],
    new_labels: &mut [u8],
    work: &mut [u32],
    floats: &mut [f64],
) -> Result<Tally, Refusal>
    ensures sheet { let x = lent_of c points.now quads.now labels.now in
        let room = room_of new_points.old new_quads.old new_labels.old in
        Makes (subdivide_rule (setting_of b) x (work_of work.old floats.old) room) room result
        new_points.new new_quads.new new_labels.new }
    ensures cleared { Cleared work.old floats.old work.new
        floats.new }
{
    let r = subdivide_or_refusal(
        b,
        c,
        points,
        quads,
        labels,
        new_points,
        new_quads,
        new_labels,
        work,
        floats.len(),
    );
    sheet::clear_unused(sheet::shown_counts(r), new_points, new_quads, new_labels);
    sheet::clear_work(work, floats);
    r
}
