// How the exports take a band: its field as a kind and ten numbers, its box as six bounds, and two levels; and how
// they show an answer.

#![tactic(auto)]

ghost use Rattle.std.specs.Prelude.{Err, ◌≡◌, cond, ◌||◌, ltb, get_or};
ghost use Rattle.std.specs.Float.{nan};
ghost use Rattle.rule_sheet.specs.declared.Refusal.TheVariants.{Short};
ghost use Rattle.rule_sheet.specs.Lent.{room_of, before_verdict};
ghost use Rattle.rule_sheet.specs.Outcomes.{refuses};
ghost use Rattle.rule_sheet.specs.Results.{Makes, Cleared};
ghost use Rattle.rule_exports.specs.Told.{told_of, coefficients_of, field_of, lower_of, band_of};
ghost use Rattle.rule_exports.specs.Exports.{answer_number, answer_count, Shows};
ghost use Rattle.export_band.specs.Steps.{counts_left};
ghost use Rattle.rule_sheet.specs.Verdicts.{Accepted};

use band::Band;
use field::{Coefficients, Field};
use points::Point;
use rule_sheet::{Counts, Refusal, Tally};

// The numbers of the kinds of field.
const PLANE: u32 = 0;

const BALL: u32 = 1;

const QUADRIC: u32 = 2;

// How many numbers a field has, bounds a box, and elements an answer.
pub const NUMBERS: usize = 10;

const BOUNDS: usize = 6;

pub const ANSWERS: usize = 4;

// Element i, NaN where there is none.
pub fn at_or_nan(s: &[f64], i: usize) -> f64
    ensures { result ≡ get_or s.now i nan }
{
    s.get(i).copied().unwrap_or(f64::NAN)
}

// The first ten numbers of a slice.
pub fn coefficients(k: &[f64]) -> Coefficients
    ensures { result ≡ coefficients_of k.now }
{
    Coefficients {
        k0: at_or_nan(k, 0),
        k1: at_or_nan(k, 1),
        k2: at_or_nan(k, 2),
        k3: at_or_nan(k, 3),
        k4: at_or_nan(k, 4),
        k5: at_or_nan(k, 5),
        k6: at_or_nan(k, 6),
        k7: at_or_nan(k, 7),
        k8: at_or_nan(k, 8),
        k9: at_or_nan(k, 9),
    }
}

// The field of a kind: a plane and a ball take the first four numbers, any other kind is a quadric.
pub fn field_of(kind: u32, k: Coefficients) -> Field
    ensures { result ≡ field_of kind k }
{
    match kind {
        PLANE => Field::Plane(k.k0, k.k1, k.k2, k.k3),
        BALL => Field::Ball(k.k0, k.k1, k.k2, k.k3),
        _ => Field::Quadric(k),
    }
}

// The lower level of a band: not a number for a kind that is none.
fn lower_of(kind: u32, lower: f64) -> f64
    ensures { result ≡ lower_of kind lower }
{
    if QUADRIC < kind { f64::NAN } else { lower }
}

// The band of a field and the bounds low x, y, z and high x, y, z.
pub fn band_of(kind: u32, numbers: &[f64], bounds: &[f64], lower: f64, upper: f64) -> Band
    ensures { result ≡ band_of (told_of kind numbers.now bounds.now lower upper) }
{
    let low = Point {
        x: at_or_nan(bounds, 0),
        y: at_or_nan(bounds, 1),
        z: at_or_nan(bounds, 2),
    };
    let high = Point {
        x: at_or_nan(bounds, 3),
        y: at_or_nan(bounds, 4),
        z: at_or_nan(bounds, 5),
    };
    let field = field_of(kind, coefficients(numbers));
    Band {
        low,
        high,
        lower: lower_of(kind, lower),
        upper,
        field,
    }
}

// Fewer numbers or bounds than a band has.
pub fn is_short_told(numbers: usize, bounds: usize) -> bool
    ensures { result ≡ (ltb numbers 10 || ltb bounds 6) }
{
    (numbers < NUMBERS) | (bounds < BOUNDS)
}

// What comes before an operation on a lent sheet, of an export that is told a band: 12, then 13; few where what it
// answers in is too short.
pub fn told_verdict(c: Counts, few: bool, numbers: usize, bounds: usize) -> Result<(), Refusal>
    ensures { result ≡ before_verdict c (few || (ltb numbers 10 || ltb bounds 6)) }
{
    sheet::before_verdict(c, few | is_short_told(numbers, bounds))
}

// The same of an export that is told no band.
pub fn answer_verdict(c: Counts, answers: usize) -> Result<(), Refusal>
    ensures { result ≡ before_verdict c (ltb answers 4) }
{
    sheet::before_verdict(c, answers < ANSWERS)
}

// What comes before extraction: 13 for numbers and bounds, without which there is no band.
pub fn band_verdict(numbers: usize, bounds: usize) -> Result<(), Refusal>
    ensures { result ≡ cond (ltb numbers 10 || ltb bounds 6) (Err Short) Accepted }
{
    if is_short_told(numbers, bounds) {
        return Err(Refusal::Short);
    }
    Ok(())
}

// The number of an answer: 0 if accepted.
pub fn answer_number<T: Copy>(r: Result<T, Refusal>) -> u32
    ensures { result ≡ answer_number r }
{
    match r {
        Ok(_) => 0,
        Err(refusal) => refusal.number(),
    }
}

// Its count: 0 if refused.
fn answer_count(r: Result<Tally, Refusal>) -> usize
    ensures { result ≡ answer_count r }
{
    match r {
        Ok(t) => t.count,
        Err(_) => 0,
    }
}

// Writes a count and the counts of a sheet; an answer slice that is too short stays as it came.
fn put_counts(answer: &mut [u64], count: u64, c: Counts)
    ensures { answer.new ≡ counts_left count c answer.old }
{
    if answer.len() < ANSWERS {
        return;
    }
    answer[..ANSWERS].copy_from_slice(&[count, c.points as u64, c.quads as u64, c.labels as u64]);
}

// Shows an answer: its number, and its counts in the answer slice.
pub fn put_answer(answer: &mut [u64], r: Result<Tally, Refusal>) -> u32
    ensures { Shows r answer.old result answer.new }
{
    put_counts(answer, answer_count(r) as u64, sheet::shown_counts(r));
    answer_number(r)
}

// A refusal of an operation that makes a sheet: zeros in its result and work slices.
pub fn refuse(
    refusal: Refusal,
    new_points: &mut [f64],
    new_quads: &mut [u32],
    new_labels: &mut [u8],
    work: &mut [u32],
    floats: &mut [f64],
) -> Result<Tally, Refusal>
    ensures makes { Makes (refuses refusal) (room_of new_points.old new_quads.old
        new_labels.old) result new_points.new new_quads.new
        new_labels.new }
    ensures cleared { Cleared work.old floats.old work.new floats.new }
{
    let none = Counts {
        points: 0,
        quads: 0,
        labels: 0,
    };
    sheet::clear_unused(none, new_points, new_quads, new_labels);
    sheet::clear_work(work, floats);
    Err(refusal)
}
