// The operations that alter a sheet, after a test: its refusal, or the operation.

#![tactic(auto)]

ghost use Rattle.setting.specs.Settings.{setting_of};
ghost use Rattle.rule_sheet.specs.Lent.{lent_of, work_of};
ghost use Rattle.rule_sheet.specs.Outcomes.{after_test};
ghost use Rattle.rule_sheet.specs.Results.{Alters, AltersQuads, Cleared};
ghost use Rattle.rule_regularize.specs.Rule.{regularize_rule, improve_rule};
ghost use Rattle.rule_coarsen.specs.Rule.{coarsen_rule};

use band::Band;
use rule_sheet::{Counts, Refusal, Tally};

// `regularize` after a test.
pub fn regularize_after(
    v: Result<(), Refusal>,
    b: Band,
    passes: usize,
    c: Counts,
    points: &[f64],
    quads: &mut [u32],
    labels: &[u8],
    work: &mut [u32],
    floats: &mut [f64],
) -> Result<Tally, Refusal>
    ensures fact { let x = lent_of c points.now quads.old labels.now in
        let w = work_of work.old floats.old in
        AltersQuads (after_test v (regularize_rule (setting_of b) passes x w)) x result
        quads.new }
    ensures cleared { Cleared work.old floats.old work.new floats.new }
{
    if let Err(refusal) = v {
        sheet::clear_work(work, floats);
        return Err(refusal);
    }
    regularize::regularize(b, passes, c, points, quads, labels, work, floats)
}

// `improve_layout` after a test.
pub fn improve_after(
    v: Result<(), Refusal>,
    b: Band,
    passes: usize,
    c: Counts,
    points: &[f64],
    quads: &mut [u32],
    labels: &[u8],
    work: &mut [u32],
    floats: &mut [f64],
) -> Result<Tally, Refusal>
    ensures fact { let x = lent_of c points.now quads.old labels.now in
        let w = work_of work.old floats.old in
        AltersQuads (after_test v (improve_rule (setting_of b) passes x w)) x result
        quads.new }
    ensures cleared { Cleared work.old floats.old work.new floats.new }
{
    if let Err(refusal) = v {
        sheet::clear_work(work, floats);
        return Err(refusal);
    }
    regularize::improve_layout(b, passes, c, points, quads, labels, work, floats)
}

// `coarsen` after a test.
pub fn coarsen_after(
    v: Result<(), Refusal>,
    b: Band,
    passes: usize,
    c: Counts,
    points: &mut [f64],
    quads: &mut [u32],
    labels: &mut [u8],
    work: &mut [u32],
    floats: &mut [f64],
) -> Result<Tally, Refusal>
    ensures fact { let x = lent_of c points.old quads.old labels.old in
        let w = work_of work.old floats.old in
        Alters (after_test v (coarsen_rule (setting_of b) passes x w)) x result
        points.new quads.new labels.new }
    ensures cleared { Cleared work.old floats.old work.new floats.new }
{
    if let Err(refusal) = v {
        sheet::clear_work(work, floats);
        return Err(refusal);
    }
    coarsen::coarsen(b, passes, c, points, quads, labels, work, floats)
}
