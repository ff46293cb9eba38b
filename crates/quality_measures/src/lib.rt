// What `quality` measures of a sheet in floats, or the refusal of a normal.

#![tactic(auto)]

ghost use Rattle.std.specs.Prelude.{◌≡◌, ◌+◌, ◌*◌, ◌<◌, ◌≤◌, length};
ghost use mathlib.Core.List.{zip_with};
ghost use Rattle.lists.specs.Regions.{part, Part, Out, Kept};
ghost use Rattle.rule_quality.specs.Floats.{sort_floats};
ghost use Rattle.rule_sheet.specs.Sheet.{sheet_of};
ghost use Rattle.rule_sheet.specs.Lent.{limit};
ghost use Rattle.rule_quality.specs.Measure.{score_of, scores_of, summary_of, measure_rule};
ghost use Rattle.quality_readings.specs.Readings.{Measurable};

use band::Band;
use rule_quality::Measures;
use rule_sheet::{Counts, Refusal};

// The score of a shape and an area, by the mean of the areas.
fn score(mean: f64, shape: f64, area: f64) -> f64
    ensures { result ≡ score_of mean shape area }
{
    if (mean > 0.0) & (area > 0.0) {
        return shape * numeric::min(area / mean, mean / area);
    }
    shape * 0.0
}

// The scores of the first n floats as shapes and the third n as areas, in the fourth n.
fn scores(mean: f64, n: usize, floats: &mut [f64])
    requires n_le_limit { n ≤ limit }
    requires n_in_bounds { 5 * n ≤ length floats.old }
    ensures part { Part (3 * n) n (zip_with (score_of mean) (part 0 n floats.old)
        (part (2 * n) n floats.old)) floats.new }
    ensures kept { Kept (Out (3 * n) n) floats.old floats.new }
{
    for q in 0..n {
        floats[3 * n + q] = score(mean, floats[q], floats[2 * n + q]);
    }
}

// The scores in ascending order, in the fifth n floats, through the 2 * n + 256 elements of the work at `at`.
fn sort_scores(n: usize, at: usize, work: &mut [u32], floats: &mut [f64])
    requires n_le_limit { n ≤ limit }
    requires n_in_bounds { at + (2 * n + 256) ≤ length work.old }
    requires n_in_bounds_2 { 5 * n ≤ length floats.old }
    ensures part { Part (4 * n) n (sort_floats (scores_of (part 0 n floats.old)
        (part (2 * n) n floats.old))) floats.new }
    ensures kept { Kept (Out (3 * n) (2 * n)) floats.old floats.new }
    ensures kept_2 { Kept (Out at (2 * n + 256)) work.old work.new }
{
    let areas = 2 * n;
    let m = quality_statistics::mean(&floats[areas..areas + n]);
    scores(m, n, floats);
    quality_sorting::sort_floats(floats, 3 * n, 4 * n, n, at, at + n, at + 2 * n, work);
}

// The measures of the first n floats as shapes, the second n as Jacobians and the fifth n as scores in ascending order.
fn summary(n: usize, floats: &[f64]) -> Measures
    requires n_le_limit { n ≤ limit }
    requires n_nonzero { 0 < n }
    requires n_in_bounds { 5 * n ≤ length floats.now }
    ensures { result ≡ summary_of (part 0 n floats.now) (part n n floats.now)
        (part (4 * n) n floats.now) }
{
    let sorted = 4 * n;
    let minimum_shape = quality_statistics::least(&floats[0..n]);
    let shape_size_p05 = quality_statistics::p05(&floats[sorted..sorted + n]);
    let shape_size_mean = quality_statistics::mean(&floats[sorted..sorted + n]);
    let minimum_sampled_jacobian = quality_statistics::least(&floats[n..n + n]);
    let invalid_cells = quality_statistics::invalid(&floats[n..n + n]);
    Measures {
        minimum_shape,
        shape_size_p05,
        shape_size_mean,
        minimum_sampled_jacobian,
        invalid_cells,
    }
}

// The measures of a lent sheet, through the 2 * quads + 256 elements of the work at `at` and the first 5 * quads
// floats.
pub fn measure(
    b: Band,
    c: Counts,
    points: &[f64],
    quads: &[u32],
    labels: &[u8],
    at: usize,
    work: &mut [u32],
    floats: &mut [f64],
) -> Result<Measures, Refusal>
    requires measurable { Measurable c (length points.now) quads.now (length labels.now) }
    requires quads_in_bounds { at + (2 * c.quads + 256) ≤ length work.old }
    requires quads_in_bounds_2 { 5 * c.quads ≤ length floats.old }
    ensures value { result ≡ measure_rule b (sheet_of c points.now quads.now labels.now) }
    ensures kept { Kept (Out at (2 * c.quads + 256)) work.old work.new }
    ensures kept_2 { Kept (Out 0 (5 * c.quads)) floats.old floats.new }
{
    let n = c.quads;
    let len = band::length(b);
    let f = b.field;
    if quality_readings::read_cells(f, len, n, points, quads, labels, floats) {
        sort_scores(n, at, work, floats);
        return Ok(summary(n, floats));
    }
    Err(Refusal::Normal)
}
