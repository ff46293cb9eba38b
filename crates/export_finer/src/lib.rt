// The operations that make a sheet of another, after a test: its refusal, or the operation.

#![tactic(auto)]

ghost use Rattle.setting.specs.Settings.{setting_of};
ghost use Rattle.rule_sheet.specs.Lent.{lent_of, room_of, work_of};
ghost use Rattle.rule_sheet.specs.Outcomes.{after_test};
ghost use Rattle.rule_sheet.specs.Results.{Makes, Cleared};
ghost use Rattle.rule_finer.specs.Finer.{refine_rule};
ghost use Rattle.rule_finer.specs.Subdivide.{subdivide_rule};
ghost use Rattle.rule_rows.specs.Rows.{rows_rule};

use band::Band;
use rule_sheet::{Counts, Refusal, Tally};

// `refine` after a test.
pub fn refine_after(
    v: Result<(), Refusal>,
    c: Counts,
    points: &[f64],
    quads: &[u32],
    labels: &[u8],
    new_points: &mut [f64],
    new_quads: &mut [u32],
    new_labels: &mut [u8],
    work: &mut [u32],
    floats: &mut [f64],
) -> Result<Tally, Refusal>
    ensures fact { let x = lent_of c points.now quads.now labels.now in
        let room = room_of new_points.old new_quads.old new_labels.old in
        let w = work_of work.old floats.old in
        Makes (after_test v (refine_rule x w room)) room result
        new_points.new new_quads.new new_labels.new }
    ensures cleared { Cleared work.old floats.old work.new floats.new }
{
    if let Err(refusal) = v {
        return export_band::refuse(refusal, new_points, new_quads, new_labels, work, floats);
    }
    refine::refine(
        c, points, quads, labels, new_points, new_quads, new_labels, work, floats,
    )
}

// `subdivide` after a test.
pub fn subdivide_after(
    v: Result<(), Refusal>,
    b: Band,
    c: Counts,
    points: &[f64],
    quads: &[u32],
    labels: &[u8],
    new_points: &mut [f64],
    new_quads: &mut [u32],
    new_labels: &mut [u8],
    work: &mut [u32],
    floats: &mut [f64],
) -> Result<Tally, Refusal>
    ensures fact { let x = lent_of c points.now quads.now labels.now in
        let room = room_of new_points.old new_quads.old new_labels.old in
        let w = work_of work.old floats.old in
        Makes (after_test v (subdivide_rule (setting_of b) x w room)) room result
        new_points.new new_quads.new new_labels.new }
    ensures cleared { Cleared work.old floats.old work.new floats.new }
{
    if let Err(refusal) = v {
        return export_band::refuse(refusal, new_points, new_quads, new_labels, work, floats);
    }
    subdivide::subdivide(
        b, c, points, quads, labels, new_points, new_quads, new_labels, work, floats,
    )
}

// `boundary_rows` after a test.
pub fn rows_after(
    v: Result<(), Refusal>,
    b: Band,
    c: Counts,
    points: &[f64],
    quads: &[u32],
    labels: &[u8],
    new_points: &mut [f64],
    new_quads: &mut [u32],
    new_labels: &mut [u8],
    work: &mut [u32],
    floats: &mut [f64],
) -> Result<Tally, Refusal>
    ensures fact { let x = lent_of c points.now quads.now labels.now in
        let room = room_of new_points.old new_quads.old new_labels.old in
        let w = work_of work.old floats.old in
        Makes (after_test v (rows_rule (setting_of b) x w room)) room result
        new_points.new new_quads.new new_labels.new }
    ensures cleared { Cleared work.old floats.old work.new floats.new }
{
    if let Err(refusal) = v {
        return export_band::refuse(refusal, new_points, new_quads, new_labels, work, floats);
    }
    rows::boundary_rows(
        b, c, points, quads, labels, new_points, new_quads, new_labels, work, floats,
    )
}
