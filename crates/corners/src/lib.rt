// `corners_per_point`: 4 × quads ÷ points of a sheet, as a whole number and the exact remainder.

#![tactic(auto)]

ghost use Rattle.std.specs.Prelude.{◌≡◌, ◌≤◌, ◌<◌, length};
ghost use Rattle.setting.specs.Settings.{domain_of};
ghost use Rattle.rule_sheet.specs.Lent.{lent_of, work_of, work_with, limit};
ghost use Rattle.rule_sheet.specs.Results.{Cleared};
ghost use Rattle.rule_corners.specs.Corners.{ratio_of, corners_rule, divided_of};

use band::Band;
use rule_corners::Ratio;
use rule_sheet::{Counts, Refusal};

// How many corners a quad has.
const CORNERS: usize = 4;

// The corners of the quads, divided by the points.
fn ratio(c: Counts) -> Ratio
    requires points_nonzero { 0 < c.points }
    requires quads_le_limit { c.quads ≤ limit }
    ensures { result ≡ ratio_of c }
{
    let corners = CORNERS * c.quads;
    let quotient = corners / c.points;
    let remainder = corners % c.points;
    Ratio {
        quotient,
        remainder,
    }
}

// The answer; the work slice behind it may hold anything.
fn corners_or_refusal(
    b: Band,
    c: Counts,
    points: &[f64],
    quads: &[u32],
    labels: &[u8],
    work: &mut [u32],
    floats: usize,
) -> Result<Ratio, Refusal>
    ensures { result ≡ divided_of (corners_rule (domain_of b) (lent_of c points.now quads.now
        labels.now) (work_with (length work.old) floats)) }
{
    admission::measure_verdict(b, c, points, quads, labels, work, floats)?;
    Ok(ratio(c))
}

// The corners per point of a sheet, or the first refusal.
pub fn corners_per_point(
    b: Band,
    c: Counts,
    points: &[f64],
    quads: &[u32],
    labels: &[u8],
    work: &mut [u32],
    floats: &mut [f64],
) -> Result<Ratio, Refusal>
    ensures answer { result ≡ divided_of (corners_rule (domain_of b) (lent_of c points.now
        quads.now labels.now) (work_of work.old floats.old)) }
    ensures cleared { Cleared work.old floats.old work.new
        floats.new }
{
    let r = corners_or_refusal(b, c, points, quads, labels, work, floats.len());
    sheet::clear_work(work, floats);
    r
}
