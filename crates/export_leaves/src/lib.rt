// The leaf functions for tests: a field comes as its kind and ten numbers, a box as six bounds. The crate
// export_leaves_c exports each to C and Rust.

#![tactic(auto)]

ghost use Rattle.std.specs.Prelude.{◌≡◌, length};
ghost use Rattle.numeric.specs.Root.{sqrt_of};
ghost use Rattle.rule_sheet.specs.Outcomes.{gives};
ghost use Rattle.rule_exports.specs.Told.{told_of};
ghost use Rattle.export_leaves.specs.Answers.{point_of, value_at, of_band, gradient_at, normal_at};
ghost use Rattle.export_leaves.specs.Answers.{projection_at, ShowsPoint, band_number, filling};
ghost use Rattle.export_leaves.specs.Answers.{sheet_tests, told_tests, ShowsMasks};

use band::Band;
use points::Point;
use projection::{LONGEST_MOVE, LOOKS};
use rule_sheet::{Counts, Refusal};

// Accepted.
const ACCEPTED: u32 = 0;

// Writes a point to out.
fn put(out: &mut [f64], p: Point) -> u32
    ensures { ShowsPoint (gives p) out.old result out.new }
{
    if out.len() < 3 {
        return Refusal::Short.number();
    }
    points::put_point(out, 0, p);
    ACCEPTED
}

// The root.
pub fn leaf_sqrt(x: f64) -> f64
    ensures { result ≡ sqrt_of x }
{
    numeric::sqrt(x)
}

// The value of a field, NaN if it has fewer than ten numbers.
pub fn leaf_value(kind: u32, numbers: &[f64], x: f64, y: f64, z: f64) -> f64
    ensures { result ≡ value_at kind numbers.now x y z }
{
    if numbers.len() < export_band::NUMBERS {
        return f64::NAN;
    }
    field::value(
        export_band::field_of(kind, export_band::coefficients(numbers)),
        Point { x, y, z },
    )
}

// Writes the gradient of a band's field to out.
pub fn leaf_gradient(
    kind: u32,
    numbers: &[f64],
    bounds: &[f64],
    lower: f64,
    upper: f64,
    x: f64,
    y: f64,
    z: f64,
    out: &mut [f64],
) -> u32
    ensures { let t = told_of kind numbers.now bounds.now lower upper in
        ShowsPoint (of_band t (gradient_at (point_of x y z))) out.old result out.new }
{
    if export_band::is_short_told(numbers.len(), bounds.len()) {
        return Refusal::Short.number();
    }
    let b = export_band::band_of(kind, numbers, bounds, lower, upper);
    let f = b.field;
    put(out, band::gradient(f, band::length(b), Point { x, y, z }))
}

// Writes the normal of a label to out.
pub fn leaf_normal(
    kind: u32,
    numbers: &[f64],
    bounds: &[f64],
    lower: f64,
    upper: f64,
    x: f64,
    y: f64,
    z: f64,
    label: u8,
    out: &mut [f64],
) -> u32
    ensures { let t = told_of kind numbers.now bounds.now lower upper in
        ShowsPoint (of_band t (normal_at (point_of x y z) label)) out.old result out.new }
{
    if export_band::is_short_told(numbers.len(), bounds.len()) {
        return Refusal::Short.number();
    }
    let b = export_band::band_of(kind, numbers, bounds, lower, upper);
    let f = b.field;
    put(
        out,
        band::normal(f, band::length(b), Point { x, y, z }, label),
    )
}

// Writes the projection by a mask to out.
pub fn leaf_project(
    kind: u32,
    numbers: &[f64],
    bounds: &[f64],
    lower: f64,
    upper: f64,
    x: f64,
    y: f64,
    z: f64,
    mask: u8,
    out: &mut [f64],
) -> u32
    ensures { let t = told_of kind numbers.now bounds.now lower upper in
        ShowsPoint (of_band t (projection_at (point_of x y z) mask)) out.old result out.new }
{
    if export_band::is_short_told(numbers.len(), bounds.len()) {
        return Refusal::Short.number();
    }
    let b = export_band::band_of(kind, numbers, bounds, lower, upper);
    let len = band::length(b);
    let r = projection::project(b, len, LONGEST_MOVE, LOOKS, Point { x, y, z }, mask);
    let Some(p) = r else {
        return Refusal::Astray.number();
    };
    put(out, p)
}

// Tests the levels, the bounds and the length of a band.
pub fn leaf_validate(kind: u32, numbers: &[f64], bounds: &[f64], lower: f64, upper: f64) -> u32
    ensures { result ≡ band_number (told_of kind numbers.now bounds.now lower upper) }
{
    if export_band::is_short_told(numbers.len(), bounds.len()) {
        return Refusal::Short.number();
    }
    if band::validate(export_band::band_of(kind, numbers, bounds, lower, upper)) {
        return ACCEPTED;
    }
    Refusal::Box.number()
}

// Tests a sheet that fills its slices; masks has an element for each point.
fn tested(b: Band, points: &[f64], quads: &[u32], labels: &[u8], masks: &mut [u32]) -> u32
    ensures { let x = filling points.now quads.now labels.now in
        ShowsMasks (sheet_tests b x (length masks.old)) x result masks.new }
{
    let c = Counts {
        points: points.len() / 3,
        quads: quads.len() / 4,
        labels: labels.len(),
    };
    if sheet::is_large(c) {
        return Refusal::Large.number();
    }
    if masks.len() != c.points {
        return Refusal::Short.number();
    }
    if !band::validate(b) {
        return Refusal::Box.number();
    }
    export_band::answer_number(sheet::constraints(c, points, quads, labels, masks))
}

// Tests a sheet and its band.
pub fn leaf_constraints(
    points: &[f64],
    quads: &[u32],
    labels: &[u8],
    kind: u32,
    numbers: &[f64],
    bounds: &[f64],
    lower: f64,
    upper: f64,
    masks: &mut [u32],
) -> u32
    ensures { let t = told_of kind numbers.now bounds.now lower upper in
        let x = filling points.now quads.now labels.now in
        ShowsMasks (told_tests t x (length masks.old)) x result masks.new }
{
    if export_band::is_short_told(numbers.len(), bounds.len()) {
        return Refusal::Short.number();
    }
    let b = export_band::band_of(kind, numbers, bounds, lower, upper);
    tested(b, points, quads, labels, masks)
}
