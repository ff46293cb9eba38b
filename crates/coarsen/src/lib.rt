// The merged sheet: `coarsen`, the tests of a call and its passes.

#![tactic(auto)]

ghost use Rattle.std.specs.Prelude.{◌≡◌, length};
ghost use Rattle.setting.specs.Settings.{setting_of};
ghost use Rattle.rule_sheet.specs.Lent.{lent_of, work_of, work_with};
ghost use Rattle.rule_sheet.specs.Results.{Alters, Cleared};
ghost use Rattle.rule_coarsen.specs.Rule.{coarsen_verdict, coarsen_rule};

use band::Band;
use rule_sheet::{Counts, Refusal, Tally};

// The tests before the passes: 12 and 13 alone if there is none, else all.
fn coarsen_verdict(
    b: Band,
    passes: usize,
    c: Counts,
    points: &[f64],
    quads: &[u32],
    labels: &[u8],
    w: &mut [u32],
    floats: usize,
) -> Result<(), Refusal>
    ensures { result ≡ coarsen_verdict (setting_of b) passes (lent_of c points.now quads.now
        labels.now) (work_with (length w.old) floats) }
{
    if passes == 0 {
        return sheet::lent(c, points.len(), quads.len(), labels.len(), w.len(), floats);
    }
    admission::admit(b, c, points, quads, labels, 0, w, floats)
}

// The passes, or the first refusal; the work slices may hold anything.
fn coarsen_or_refusal(
    b: Band,
    passes: usize,
    c: Counts,
    points: &mut [f64],
    quads: &mut [u32],
    labels: &mut [u8],
    work: &mut [u32],
    floats: &mut [f64],
) -> Result<Tally, Refusal>
    ensures { let x = lent_of c points.old quads.old labels.old in
        Alters (coarsen_rule (setting_of b) passes x (work_of work.old floats.old)) x result
        points.new quads.new labels.new }
{
    coarsen_verdict(b, passes, c, points, quads, labels, work, floats.len())?;
    let t = coarsen_passes::merge_passes(b, passes, c, points, quads, labels, work, floats);
    sheet::clear_unused(t.sheet, points, quads, labels);
    Ok(t)
}

// Merges opposite corners of quads, at most so many passes. The sheet is altered in place; the answer has the
// merges made and the counts of the sheet that is left.
pub fn coarsen(
    b: Band,
    passes: usize,
    c: Counts,
    points: &mut [f64],
    quads: &mut [u32],
    labels: &mut [u8],
    work: &mut [u32],
    floats: &mut [f64],
) -> Result<Tally, Refusal>
    ensures sheet { let x = lent_of c points.old quads.old labels.old in
        Alters (coarsen_rule (setting_of b) passes x (work_of work.old floats.old)) x result
        points.new quads.new labels.new }
    ensures cleared { Cleared work.old floats.old work.new
        floats.new }
{
    let r = coarsen_or_refusal(b, passes, c, points, quads, labels, work, floats);
    sheet::clear_work(work, floats);
    r
}
