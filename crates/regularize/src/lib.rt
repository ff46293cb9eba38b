// The swapped sheet: `regularize` and `improve_layout`, passes of swaps until one swaps nothing.

#![tactic(auto)]

ghost use Rattle.std.specs.Prelude.{◌≡◌, ◌+◌, ◌≤◌, length};
ghost use Rattle.setting.specs.Settings.{setting_of};
ghost use Rattle.rule_sheet.specs.Lent.{lent_of, held, work_with, work_of};
ghost use Rattle.rule_sheet.specs.Outcomes.{gives};
ghost use Rattle.rule_sheet.specs.Results.{AltersQuads, Cleared};
ghost use Rattle.rule_passes.specs.Runs.{capped};
ghost use Rattle.rule_regularize.specs.Rule.{swap_sheet, swap_rule, regularize_rule, improve_rule};
ghost use Rattle.regularize_pass.specs.Conditions.{SwapPassAsks};
ghost use Rattle.regularize.specs.Clauses.{RunPassesLeaves, CleanAcceptedAsks};

use band::Band;
use regularize_pass::Trial;
use rule_sheet::{Counts, Refusal, Tally};

// The least gain of a swap: more than 0, or 0.
const GAIN: usize = 1;

const NEUTRAL: usize = 0;

// At most so many passes, until one swaps nothing; the swaps made in all of them.
fn run_passes(
    passes: usize,
    np: usize,
    nq: usize,
    t: Trial,
    points: &[f64],
    labels: &[u8],
    quads: &mut [u32],
    w: &mut [u32],
) -> usize
    requires { SwapPassAsks np nq t points.now quads.old labels.now w.old }
    ensures { RunPassesLeaves np nq t points.now labels.now passes quads.old
        quads.new result }
{
    let mut total: usize = 0;
    for _ in 0..passes {
        let count = regularize_pass::swap_pass(np, nq, t, points, labels, quads, w);
        if count == 0 {
            return total;
        }
        total = total.saturating_add(count);
    }
    total
}

// Cleans an accepted sheet; zeros behind its quads.
fn clean_accepted(
    b: Band,
    passes: usize,
    least: usize,
    c: Counts,
    points: &[f64],
    quads: &mut [u32],
    labels: &[u8],
    w: &mut [u32],
) -> Result<Tally, Refusal>
    requires { CleanAcceptedAsks least (lent_of c points.now quads.old labels.now) w.old }
    ensures sheet { let x = lent_of c points.now quads.old labels.now in
        AltersQuads (gives (swap_sheet least (setting_of b) passes (held x))) x result quads.new }
{
    let field = b.field;
    let t = Trial {
        least,
        field,
        length: band::length(b),
    };
    let nq = c.quads;
    let count = run_passes(passes, c.points, nq, t, points, labels, quads, w);
    sheet::clear_behind(4 * nq, quads);
    Ok(Tally { count, sheet: c })
}

// The clean-up, or the first refusal; the work slice may hold anything.
fn clean_or_refusal(
    b: Band,
    passes: usize,
    least: usize,
    c: Counts,
    points: &[f64],
    quads: &mut [u32],
    labels: &[u8],
    w: &mut [u32],
    floats: usize,
) -> Result<Tally, Refusal>
    requires { least ≤ 1 }
    ensures sheet { let x = lent_of c points.now quads.old labels.now in
        AltersQuads (swap_rule least (setting_of b) passes x (work_with (length w.old) floats)) x result
        quads.new }
{
    admission::admit(b, c, points, quads, labels, 0, w, floats)?;
    clean_accepted(b, passes, least, c, points, quads, labels, w)
}

// The clean-up with swaps of this least gain, or the first refusal; the work slices are left zero.
fn clean(
    b: Band,
    passes: usize,
    least: usize,
    c: Counts,
    points: &[f64],
    quads: &mut [u32],
    labels: &[u8],
    work: &mut [u32],
    floats: &mut [f64],
) -> Result<Tally, Refusal>
    requires { least ≤ 1 }
    ensures sheet { let x = lent_of c points.now quads.old labels.now in
        AltersQuads (swap_rule least (setting_of b) passes x (work_of work.old floats.old)) x result
        quads.new }
    ensures cleared { Cleared work.old floats.old work.new
        floats.new }
{
    let r = clean_or_refusal(
        b,
        passes,
        least,
        c,
        points,
        quads,
        labels,
        work,
        floats.len(),
    );
    sheet::clear_work(work, floats);
    r
}

// Swaps diagonals where the valences gain, at most so many passes. The quads are altered in place; the answer has
// the swaps made.
pub fn regularize(
    b: Band,
    passes: usize,
    c: Counts,
    points: &[f64],
    quads: &mut [u32],
    labels: &[u8],
    work: &mut [u32],
    floats: &mut [f64],
) -> Result<Tally, Refusal>
    ensures sheet { let x = lent_of c points.now quads.old labels.now in
        AltersQuads (regularize_rule (setting_of b) passes x (work_of work.old floats.old)) x result
        quads.new }
    ensures cleared { Cleared work.old floats.old work.new
        floats.new }
{
    clean(b, passes, GAIN, c, points, quads, labels, work, floats)
}

// The same, also where the valences gain nothing and the least shape rises.
pub fn improve_layout(
    b: Band,
    passes: usize,
    c: Counts,
    points: &[f64],
    quads: &mut [u32],
    labels: &[u8],
    work: &mut [u32],
    floats: &mut [f64],
) -> Result<Tally, Refusal>
    ensures sheet { let x = lent_of c points.now quads.old labels.now in
        AltersQuads (improve_rule (setting_of b) passes x (work_of work.old floats.old)) x result
        quads.new }
    ensures cleared { Cleared work.old floats.old work.new
        floats.new }
{
    clean(b, passes, NEUTRAL, c, points, quads, labels, work, floats)
}
