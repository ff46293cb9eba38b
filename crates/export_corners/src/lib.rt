// `corners_per_point` after a test, and what its export shows of its answer.

#![tactic(auto)]

ghost use Rattle.std.specs.Prelude.{◌≡◌, cond, [], ◌∷◌, ◌≤◌, length};
ghost use Rattle.setting.specs.Settings.{domain_of};
ghost use Rattle.rule_sheet.specs.Lent.{lent_of, work_of};
ghost use Rattle.rule_sheet.specs.Outcomes.{after_test};
ghost use Rattle.rule_sheet.specs.Results.{Cleared};
ghost use Rattle.rule_corners.specs.Corners.{corners_rule, divided_of};
ghost use Rattle.rule_exports.specs.Measured.{fronted};
ghost use Rattle.rule_exports.specs.Divided.{ratio_shown, is_short_ratio, ShowsRatio};

use band::Band;
use rule_corners::Ratio;
use rule_sheet::{Counts, Refusal};

// How many elements the answer slice has.
pub const ANSWERS: usize = 2;

// Writes the two numbers.
fn put_ratio(answer: &mut [u64], q: Ratio)
    requires { 2 ≤ length answer.old }
    ensures { answer.new ≡ fronted (q.quotient ∷ q.remainder ∷ []) answer.old }
{
    answer[..ANSWERS].copy_from_slice(&[q.quotient as u64, q.remainder as u64]);
}

// Shows the two numbers of an answer; a slice that is too short stays as it came.
fn show_ratio(answer: &mut [u64], r: Result<Ratio, Refusal>)
    ensures { answer.new ≡ cond (is_short_ratio answer.old) answer.old
        (fronted (ratio_shown r) answer.old) }
{
    if answer.len() < ANSWERS {
        return;
    }
    let none = Ratio {
        quotient: 0,
        remainder: 0,
    };
    match r {
        Ok(q) => put_ratio(answer, q),
        Err(_) => put_ratio(answer, none),
    }
}

// Shows an answer: its number and its two numbers; a slice that is too short stays as it came.
pub fn put_divided(answer: &mut [u64], r: Result<Ratio, Refusal>) -> u32
    ensures { ShowsRatio r answer.old result answer.new }
{
    show_ratio(answer, r);
    export_band::answer_number(r)
}

// `corners_per_point` after a test: its refusal, or the operation.
pub fn corners_after(
    v: Result<(), Refusal>,
    b: Band,
    c: Counts,
    points: &[f64],
    quads: &[u32],
    labels: &[u8],
    work: &mut [u32],
    floats: &mut [f64],
) -> Result<Ratio, Refusal>
    ensures result_value { let x = lent_of c points.now quads.now labels.now in
        result ≡ divided_of (after_test v (corners_rule (domain_of b) x (work_of work.old
        floats.old))) }
    ensures cleared { Cleared work.old floats.old work.new floats.new }
{
    if let Err(refusal) = v {
        sheet::clear_work(work, floats);
        return Err(refusal);
    }
    corners::corners_per_point(b, c, points, quads, labels, work, floats)
}
