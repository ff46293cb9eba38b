// The claim on lists of calls is about the code: each function is one call of an operation, and its contract is what
// the claim knows of such a call.

#![tactic(auto)]

ghost use Rattle.setting.specs.Settings.{setting_of};
ghost use Rattle.rule_sheet.specs.Lent.{lent_of, room_of, work_of};
ghost use Rattle.safety.specs.Calls.{regularize_call, improve_call, coarsen_call, subdivide_call, Contract};

use band::Band;
use rule_sheet::{Counts, Refusal, Tally};

// A call of `regularize`.
pub fn regularize_call(
    b: Band,
    passes: usize,
    c: Counts,
    points: &[f64],
    quads: &mut [u32],
    labels: &[u8],
    work: &mut [u32],
    floats: &mut [f64],
) -> Result<Tally, Refusal>
    ensures { let x = lent_of c points.now quads.old labels.now in
        let w = work_of work.old floats.old in
        Contract (regularize_call (setting_of b) passes x w result quads.new) }
{
    regularize::regularize(b, passes, c, points, quads, labels, work, floats)
}

// A call of `improve_layout`.
pub fn improve_call(
    b: Band,
    passes: usize,
    c: Counts,
    points: &[f64],
    quads: &mut [u32],
    labels: &[u8],
    work: &mut [u32],
    floats: &mut [f64],
) -> Result<Tally, Refusal>
    ensures { let x = lent_of c points.now quads.old labels.now in
        let w = work_of work.old floats.old in
        Contract (improve_call (setting_of b) passes x w result quads.new) }
{
    regularize::improve_layout(b, passes, c, points, quads, labels, work, floats)
}

// A call of `coarsen`.
pub fn coarsen_call(
    b: Band,
    passes: usize,
    c: Counts,
    points: &mut [f64],
    quads: &mut [u32],
    labels: &mut [u8],
    work: &mut [u32],
    floats: &mut [f64],
) -> Result<Tally, Refusal>
    ensures { let x = lent_of c points.old quads.old labels.old in
        let w = work_of work.old floats.old in
        Contract (coarsen_call (setting_of b) passes x w result points.new quads.new
        labels.new) }
{
    coarsen::coarsen(b, passes, c, points, quads, labels, work, floats)
}

// A call of `subdivide`.
pub fn subdivide_call(
    b: Band,
    c: Counts,
    points: &[f64],
    quads: &[u32],
    labels: &[u8],
    new_points: &mut [f64],
    new_quads: &mut [u32],
    new_labels: &mut [u8],
    work: &mut [u32],
    floats: &mut [f64],
) -> Result<Tally, Refusal>
    ensures { let x = lent_of c points.now quads.now labels.now in
        let w = work_of work.old floats.old in
        let room = room_of new_points.old new_quads.old new_labels.old in
        Contract (subdivide_call (setting_of b) x w room result new_points.new new_quads.new
        new_labels.new) }
{
    subdivide::subdivide(
        b, c, points, quads, labels, new_points, new_quads, new_labels, work, floats,
    )
}
