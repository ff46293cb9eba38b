// A pass of merges over a sheet: the masks and the map of its start, then the quads in order, each with both diagonals.

#![tactic(auto)]

ghost use Rattle.std.specs.Prelude.{◌≡◌, true, ◌+◌, ◌*◌, ◌≤◌, length, take};
ghost use Rattle.lists.specs.Every.{every};
ghost use Rattle.lists.specs.Regions.{Part, Out, Kept};
ghost use Rattle.band.specs.Bands.{length_of};
ghost use Rattle.rule_sheet.specs.Flat.{quads_of};
ghost use Rattle.sheet.specs.Flat.{Holds};
ghost use Rattle.sheet.specs.Tests.{good_quad_at};
ghost use Rattle.sheet.specs.Sheet.{masks_of};
ghost use Rattle.coarsen_pass.specs.Steps.{sheet_in};
ghost use Rattle.coarsen_pass.specs.Conditions.{ClearMarksLeaves, PrepareAsks, PrepareLeaves, MergePassAsks};
ghost use Rattle.coarsen_pass.specs.Conditions.{MergePassLeaves};

use band::Band;

// The masks of the points, as many as the slice has elements.
fn fresh_masks(nq: usize, quads: &[u32], labels: &[u8], masks: &mut [u32])
    requires holds { Holds nq quads.now labels.now }
    requires nq_value { every (good_quad_at (length masks.old) quads.now labels.now) nq ≡ true }
    ensures { masks.new ≡
        masks_of (length masks.old) (quads_of nq quads.now) (take nq labels.now) }
{
    lists::clear(masks);
    sheet::mark_quads(nq, quads, labels, masks);
}

// The masks of the points, in front of the work slice.
fn mask_sheet(np: usize, nq: usize, quads: &[u32], labels: &[u8], w: &mut [u32])
    requires holds { Holds nq quads.now labels.now }
    requires nq_value { every (good_quad_at np quads.now labels.now) nq ≡ true }
    requires np_in_bounds { np ≤ length w.old }
    ensures part { Part 0 np (masks_of np (quads_of nq quads.now) (take nq labels.now)) w.new }
    ensures kept { Kept (Out 0 np) w.old w.new }
{
    let at = 0;
    fresh_masks(nq, quads, labels, &mut w[at..at + np]);
}

// No barred point, no quad out, no touched point.
fn clear_marks(np: usize, nq: usize, w: &mut [u32])
    requires { 64 * (np + nq) ≤ length w.old }
    ensures { ClearMarksLeaves np nq w.old w.new }
{
    let n = np + nq;
    let used = coarsen_merge::USED * n;
    let removed = coarsen_merge::REMOVED * n;
    let touched = coarsen_merge::TOUCHED * n;
    lists::clear(&mut w[used..used + np]);
    lists::clear(&mut w[removed..removed + nq]);
    lists::clear(&mut w[touched..touched + np]);
}

// What a pass starts with: the masks, the map of its quads, and no marks.
fn prepare(np: usize, nq: usize, quads: &[u32], labels: &[u8], w: &mut [u32])
    requires { PrepareAsks np nq quads.now labels.now w.old }
    ensures { PrepareLeaves np nq quads.now labels.now w.new }
{
    mask_sheet(np, nq, quads, labels, w);
    pass_map::map_sheet(np, nq, quads, w);
    clear_marks(np, nq, w);
}

// One pass over a sheet: the quads in order; answers how many merges were made.
pub fn merge_pass(
    np: usize,
    nq: usize,
    b: Band,
    len: f64,
    points: &mut [f64],
    quads: &mut [u32],
    labels: &[u8],
    w: &mut [u32],
) -> usize
    requires merge_pass_asks { MergePassAsks np nq points.old quads.old labels.now w.old }
    requires len_value { len ≡ length_of b }
    ensures { MergePassLeaves b np nq
        (sheet_in np nq points.old quads.old labels.now)
        result points.new quads.new w.new }
{
    prepare(np, nq, quads, labels, w);
    coarsen_search::visit_all(np, nq, b, len, points, quads, labels, w)
}
