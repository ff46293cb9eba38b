// `quality`, `corners_per_point` and `page`, asked as a record says.

use replay_records::lent::{Sheet, Work};
use replay_records::operation::Measuring;
use replay_records::record::{Band, Record};
use replay_records::{lent, stored};

// Whether `quality` of a sheet answers as the record says.
fn quality_agrees(record: Record, sheet: &Sheet, band: &Band, work: &mut Work) -> bool {
    let mut answer = [0; 10];
    let mut measures = [0.0; 4];
    let got = quads::quads_quality(
        &sheet.points,
        &sheet.corners,
        &sheet.labels,
        sheet.sizes.points,
        sheet.sizes.quads,
        sheet.sizes.labels,
        band.kind,
        &band.numbers,
        &band.bounds,
        band.lower,
        band.upper,
        &mut work.words,
        &mut work.floats,
        &mut answer,
        &mut measures,
    );
    stored::same_quality(record, got, &answer, &measures)
}

// The same of `corners_per_point`.
fn corners_agree(record: Record, sheet: &Sheet, band: &Band, work: &mut Work) -> bool {
    let mut answer = [0; 2];
    let got = quads::quads_corners_per_point(
        &sheet.points,
        &sheet.corners,
        &sheet.labels,
        sheet.sizes.points,
        sheet.sizes.quads,
        sheet.sizes.labels,
        band.kind,
        &band.numbers,
        &band.bounds,
        band.lower,
        band.upper,
        &mut work.words,
        &mut work.floats,
        &mut answer,
    );
    stored::same_ratio(record, got, &answer)
}

// The same of `page`, in a slice that is longer than it.
fn page_agrees(record: Record, sheet: &Sheet, band: &Band, work: &mut Work) -> bool {
    let mut page = [255; 336];
    let got = quads::quads_page(
        &sheet.points,
        &sheet.corners,
        &sheet.labels,
        sheet.sizes.points,
        sheet.sizes.quads,
        sheet.sizes.labels,
        band.kind,
        &band.numbers,
        &band.bounds,
        band.lower,
        band.upper,
        &mut work.words,
        &mut work.floats,
        &mut page,
    );
    stored::same_page(record, got, &page)
}

// Whether the operation answers as the record says.
pub fn agrees(record: Record, measuring: Measuring) -> bool {
    let sheet = lent::sheet_of(record);
    let band = record.band();
    let mut work = Work::new();
    match measuring {
        Measuring::Quality => quality_agrees(record, &sheet, &band, &mut work),
        Measuring::CornersPerPoint => corners_agree(record, &sheet, &band, &mut work),
        Measuring::Page => page_agrees(record, &sheet, &band, &mut work),
    }
}
