// Passes of merges over an accepted sheet, until one merges nothing.

#![tactic(auto)]

ghost use Rattle.std.specs.Prelude.{◌≡◌, length};
ghost use Rattle.band.specs.Bands.{length_of};
ghost use Rattle.setting.specs.Settings.{setting_of};
ghost use Rattle.rule_sheet.specs.Sheet.{sheet_of};
ghost use Rattle.rule_coarsen.specs.Rule.{coarse_sheet};
ghost use Rattle.coarsen_passes.specs.Passes.{Coarsenable, Remains};

use band::Band;
use rule_sheet::{Counts, Tally};

// Where the numbers of the renumbering stand in the work slice, in units of points and quads together.
const NUMBERS: usize = 24;

// One pass over an accepted sheet; its points are renumbered if it merged.
fn merge_once(
    b: Band,
    len: f64,
    c: Counts,
    points: &mut [f64],
    quads: &mut [u32],
    labels: &mut [u8],
    w: &mut [u32],
    floats: &mut [f64],
) -> Tally
    requires coarsenable { Coarsenable 1 c points.old quads.old labels.old w.old (length floats.old) }
    requires len_value { len ≡ length_of b }
    ensures { Remains (coarse_sheet (setting_of b) 1 (sheet_of c points.old quads.old
        labels.old)) result points.new quads.new labels.new }
{
    let np = c.points;
    let nq = c.quads;
    let count = coarsen_pass::merge_pass(np, nq, b, len, points, quads, labels, w);
    if count == 0 {
        return Tally { count, sheet: c };
    }
    let n = np + nq;
    let sheet = coarsen_compact::compact(
        np,
        nq,
        points,
        quads,
        labels,
        coarsen_merge::REMOVED * n,
        NUMBERS * n,
        w,
        floats,
    );
    Tally { count, sheet }
}

// At most some passes over a sheet that their tests accept, until one merges nothing.
pub fn merge_passes(
    b: Band,
    passes: usize,
    c: Counts,
    points: &mut [f64],
    quads: &mut [u32],
    labels: &mut [u8],
    w: &mut [u32],
    floats: &mut [f64],
) -> Tally
    requires { Coarsenable passes c points.old quads.old labels.old w.old (length floats.old) }
    ensures { Remains (coarse_sheet (setting_of b) passes (sheet_of c points.old quads.old
        labels.old)) result points.new quads.new labels.new }
{
    let len = band::length(b);
    let mut sheet = c;
    let mut total: usize = 0;
    for _ in 0..passes {
        let m = merge_once(b, len, sheet, points, quads, labels, w, floats);
        sheet = m.sheet;
        if m.count == 0 {
            return Tally {
                count: total,
                sheet,
            };
        }
        total += m.count;
    }
    Tally {
        count: total,
        sheet,
    }
}
