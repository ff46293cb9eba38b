// Whether a call on a lent sheet is admitted: 12, 13, 1, 5, 6 and 7, in this order.

#![tactic(auto)]

ghost use Rattle.std.specs.Prelude.{◌≡◌, cond, Err, ◌+◌, ◌*◌, ◌≤◌, ◌<◌, length, take};
ghost use Rattle.setting.specs.Settings.{domain_of, setting_of};
ghost use Rattle.rule_sheet.specs.declared.Refusal.TheVariants.{Box};
ghost use Rattle.rule_sheet.specs.Verdicts.{Accepted};
ghost use Rattle.rule_sheet.specs.Flat.{quads_of};
ghost use Rattle.rule_sheet.specs.Sheet.{sheet_of, sheet_verdict};
ghost use Rattle.rule_sheet.specs.Lent.{lent_of, work_with};
ghost use Rattle.rule_admission.specs.Admission.{domain_verdict, measurable_verdict, admits_after, admits, measurable};
ghost use Rattle.sheet.specs.Sheet.{masks_of, LentSheet};
ghost use Rattle.admission.specs.Clauses.{MasksAt};

use band::Band;
use rule_sheet::{Counts, Refusal};

// 1, unless the test of a band holds.
fn box_unless(valid: bool) -> Result<(), Refusal>
    ensures { result ≡ cond valid Accepted (Err Box) }
{
    if valid { Ok(()) } else { Err(Refusal::Box) }
}

// 1, of a band.
pub fn band_verdict(b: Band) -> Result<(), Refusal>
    ensures { result ≡ domain_verdict (domain_of b) }
{
    box_unless(band::validate(b))
}

// 1, of a band by which a sheet is only measured.
pub fn measurable_band_verdict(b: Band) -> Result<(), Refusal>
    ensures { result ≡ measurable_verdict (domain_of b) }
{
    box_unless(band::measurable(b))
}

// 5, 6 and 7, of a sheet that its slices hold; the masks of an accepted one go to the region of the work slice from
// `at` on.
fn test_sheet(
    c: Counts,
    points: &[f64],
    quads: &[u32],
    labels: &[u8],
    at: usize,
    w: &mut [u32],
) -> Result<(), Refusal>
    requires lent_sheet { LentSheet c (length points.now) (length quads.now) (length labels.now) }
    requires points_in_bounds { at + c.points ≤ length w.old }
    ensures value { result ≡ sheet_verdict (sheet_of c points.now quads.now labels.now) }
    ensures masks_at { MasksAt result at c.points (masks_of c.points (quads_of c.quads quads.now)
        (take c.labels labels.now)) w.new }
{
    sheet::constraints(c, points, quads, labels, &mut w[at..at + c.points])
}

// 12 and 13, then the verdict on what a call brings, then 5, 6 and 7. The masks of an admitted sheet go to a region of
// the work slice, which is given in units of points and quads together.
fn admit_after(
    brought: Result<(), Refusal>,
    c: Counts,
    points: &[f64],
    quads: &[u32],
    labels: &[u8],
    masks: usize,
    w: &mut [u32],
    floats: usize,
) -> Result<(), Refusal>
    requires { masks < 64 }
    ensures value { result ≡ admits_after brought (lent_of c points.now quads.now
        labels.now) (work_with (length w.old) floats) }
    ensures masks_at { MasksAt result (masks * (c.points + c.quads)) c.points (masks_of c.points
        (quads_of c.quads quads.now) (take c.labels labels.now)) w.new }
{
    sheet::lent(c, points.len(), quads.len(), labels.len(), w.len(), floats)?;
    brought?;
    test_sheet(c, points, quads, labels, masks * (c.points + c.quads), w)
}

// The tests of a call.
pub fn admit(
    b: Band,
    c: Counts,
    points: &[f64],
    quads: &[u32],
    labels: &[u8],
    masks: usize,
    w: &mut [u32],
    floats: usize,
) -> Result<(), Refusal>
    requires { masks < 64 }
    ensures value { result ≡ admits (setting_of b) (lent_of c points.now quads.now
        labels.now) (work_with (length w.old) floats) }
    ensures masks_at { MasksAt result (masks * (c.points + c.quads)) c.points (masks_of c.points
        (quads_of c.quads quads.now) (take c.labels labels.now)) w.new }
{
    let brought = band_verdict(b);
    admit_after(brought, c, points, quads, labels, masks, w, floats)
}

// The tests of a call that only measures: `quality`, and the corners per point. The lower level may be minus infinity.
// The work slice behind it may hold anything.
pub fn measure_verdict(
    b: Band,
    c: Counts,
    points: &[f64],
    quads: &[u32],
    labels: &[u8],
    w: &mut [u32],
    floats: usize,
) -> Result<(), Refusal>
    ensures { result ≡ measurable (domain_of b) (lent_of c points.now quads.now
        labels.now) (work_with (length w.old) floats) }
{
    let brought = measurable_band_verdict(b);
    admit_after(brought, c, points, quads, labels, 0, w, floats)
}
