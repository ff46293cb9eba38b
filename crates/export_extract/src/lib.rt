// `extract_candidate` after a test: its refusal, or the operation.

#![tactic(auto)]

ghost use Rattle.std.specs.Prelude.{cond};
ghost use Rattle.setting.specs.Settings.{domain_of};
ghost use Rattle.rule_sheet.specs.Lent.{room_of, work_with, work_of};
ghost use Rattle.rule_sheet.specs.Outcomes.{after_test};
ghost use Rattle.rule_sheet.specs.Results.{Makes, Cleared};
ghost use Rattle.rule_extract.specs.Drawing.{extract_rule};

use band::Band;
use rule_sheet::{Refusal, Tally};

// `extract_candidate` with no work: its refusal, with the slices cleared that it is lent.
fn extract_idle(
    b: Band,
    cells: usize,
    new_points: &mut [f64],
    new_quads: &mut [u32],
    new_labels: &mut [u8],
    work: &mut [u32],
    floats: &mut [f64],
) -> Result<Tally, Refusal>
    ensures fact { let room = room_of new_points.old new_quads.old new_labels.old in
        Makes (extract_rule (domain_of b) cells (work_with 0 0) room) room result
        new_points.new new_quads.new new_labels.new }
    ensures cleared { Cleared work.old floats.old work.new floats.new }
{
    let r = extract::extract_candidate(
        b,
        cells,
        new_points,
        new_quads,
        new_labels,
        &mut work[..0],
        &mut floats[..0],
    );
    sheet::clear_work(work, floats);
    r
}

// `extract_candidate` after a test; few where what it answers in is too short, which counts as no work.
pub fn extract_after(
    v: Result<(), Refusal>,
    few: bool,
    b: Band,
    cells: usize,
    new_points: &mut [f64],
    new_quads: &mut [u32],
    new_labels: &mut [u8],
    work: &mut [u32],
    floats: &mut [f64],
) -> Result<Tally, Refusal>
    ensures fact { let room = room_of new_points.old new_quads.old new_labels.old in
        let w = cond few (work_with 0 0) (work_of work.old floats.old) in
        Makes (after_test v (extract_rule (domain_of b) cells w room)) room result
        new_points.new new_quads.new new_labels.new }
    ensures cleared { Cleared work.old floats.old work.new floats.new }
{
    if let Err(refusal) = v {
        return export_band::refuse(refusal, new_points, new_quads, new_labels, work, floats);
    }
    if few {
        return extract_idle(b, cells, new_points, new_quads, new_labels, work, floats);
    }
    extract::extract_candidate(b, cells, new_points, new_quads, new_labels, work, floats)
}
