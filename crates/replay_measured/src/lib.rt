// What answers with numbers and no sheet, asked as a record says, and whether it answers as it: `quality`,
// `corners_per_point`, `page`, the functions at a point, and the tests of a band and of a sheet.

#![tactic(auto)]

mod constraints;
mod measures;

use replay_records::numbers;
use replay_records::operation::{Function, Measuring};
use replay_records::record::{Band, Record, SHEET};

// Where the result of a lone point begins.
const RESULT: usize = 232;

// What no function answers.
const UNKNOWN: u32 = 255;

// Puts a value first; the number is 0.
fn put(out: &mut [f64; 3], x: f64) -> u32 {
    out[0] = x;
    0
}

// `project` of a point by a mask.
fn project(band: &Band, point: [f64; 3], mask: u8, out: &mut [f64; 3]) -> u32 {
    let [x, y, z] = point;
    export_leaves::leaf_project(
        band.kind,
        &band.numbers,
        &band.bounds,
        band.lower,
        band.upper,
        x,
        y,
        z,
        mask,
        out,
    )
}

// `gradient` at a point.
fn gradient(band: &Band, point: [f64; 3], out: &mut [f64; 3]) -> u32 {
    let [x, y, z] = point;
    export_leaves::leaf_gradient(
        band.kind,
        &band.numbers,
        &band.bounds,
        band.lower,
        band.upper,
        x,
        y,
        z,
        out,
    )
}

// `normal` at a point for a label.
fn normal(band: &Band, point: [f64; 3], label: u8, out: &mut [f64; 3]) -> u32 {
    let [x, y, z] = point;
    export_leaves::leaf_normal(
        band.kind,
        &band.numbers,
        &band.bounds,
        band.lower,
        band.upper,
        x,
        y,
        z,
        label,
        out,
    )
}

// What the proved function answers: its number, and in out the point or the value.
fn ask(record: Record, function: Function, out: &mut [f64; 3]) -> u32 {
    let b = record.band();
    let byte = record.at(8);
    let mut point = [0.0; 3];
    numbers::load(record.bytes, SHEET, &mut point);
    let [x, y, z] = point;
    match function {
        Function::Project => project(&b, point, byte, out),
        Function::Value => put(out, export_leaves::leaf_value(b.kind, &b.numbers, x, y, z)),
        Function::Gradient => gradient(&b, point, out),
        Function::Normal => normal(&b, point, byte, out),
        Function::Sqrt => put(out, export_leaves::leaf_sqrt(x)),
        Function::Constraints => constraints::test(record, &b),
        Function::Validate => {
            export_leaves::leaf_validate(b.kind, &b.numbers, &b.bounds, b.lower, b.upper)
        }
    }
}

// Whether a record's result, if it has one, is this point.
fn same_point(record: Record, point: [f64; 3]) -> bool {
    let [x, y, z] = point;
    let bits = [
        numbers::bits_of(x),
        numbers::bits_of(y),
        numbers::bits_of(z),
    ];
    record.made().points == 0 || numbers::holds(record.bytes, RESULT, 3, &bits)
}

// Whether the function at a point, or the test, answers as the record says.
pub fn agrees_at(record: Record, function: Function) -> bool {
    let mut out = [0.0; 3];
    let got = ask(record, function, &mut out);
    got == record.number() && same_point(record, out)
}

// Whether a record of an unknown operation says that no function answers, and a point of zeros.
pub fn agrees_unknown(record: Record) -> bool {
    record.number() == UNKNOWN && same_point(record, [0.0; 3])
}

// Whether `quality`, `corners_per_point` or `page` answers as the record says.
pub fn agrees(record: Record, measuring: Measuring) -> bool {
    measures::agrees(record, measuring)
}
