// The operations that alter the lent sheet, asked as a record says, and whether they answer as it.

#![tactic(auto)]

use replay_records::lent::{Sheet, Work};
use replay_records::operation::Altering;
use replay_records::record::{Band, Record};
use replay_records::{lent, stored};

// Calls `regularize`: the number of its answer.
fn regularize(
    passes: usize,
    sheet: &mut Sheet,
    band: &Band,
    work: &mut Work,
    answer: &mut [u64],
) -> u32 {
    quads::quads_regularize(
        &sheet.points,
        &mut sheet.corners,
        &sheet.labels,
        sheet.sizes.points,
        sheet.sizes.quads,
        sheet.sizes.labels,
        band.kind,
        &band.numbers,
        &band.bounds,
        band.lower,
        band.upper,
        passes,
        &mut work.words,
        &mut work.floats,
        answer,
    )
}

// The same of `improve_layout`.
fn improve_layout(
    passes: usize,
    sheet: &mut Sheet,
    band: &Band,
    work: &mut Work,
    answer: &mut [u64],
) -> u32 {
    quads::quads_improve_layout(
        &sheet.points,
        &mut sheet.corners,
        &sheet.labels,
        sheet.sizes.points,
        sheet.sizes.quads,
        sheet.sizes.labels,
        band.kind,
        &band.numbers,
        &band.bounds,
        band.lower,
        band.upper,
        passes,
        &mut work.words,
        &mut work.floats,
        answer,
    )
}

// The same of `coarsen`.
fn coarsen(
    passes: usize,
    sheet: &mut Sheet,
    band: &Band,
    work: &mut Work,
    answer: &mut [u64],
) -> u32 {
    quads::quads_coarsen(
        &mut sheet.points,
        &mut sheet.corners,
        &mut sheet.labels,
        sheet.sizes.points,
        sheet.sizes.quads,
        sheet.sizes.labels,
        band.kind,
        &band.numbers,
        &band.bounds,
        band.lower,
        band.upper,
        passes,
        &mut work.words,
        &mut work.floats,
        answer,
    )
}

// Whether `regularize`, `improve_layout` or `coarsen` answers as the record says.
pub fn agrees(record: Record, altering: Altering) -> bool {
    let mut sheet = lent::sheet_of(record);
    let band = record.band();
    let passes = record.argument() as usize;
    let mut work = Work::new();
    let mut answer = [0; 4];
    let got = match altering {
        Altering::Regularize => regularize(passes, &mut sheet, &band, &mut work, &mut answer),
        Altering::ImproveLayout => {
            improve_layout(passes, &mut sheet, &band, &mut work, &mut answer)
        }
        Altering::Coarsen => coarsen(passes, &mut sheet, &band, &mut work, &mut answer),
    };
    stored::same_answer(
        record,
        got,
        &answer,
        &sheet.points,
        &sheet.corners,
        &sheet.labels,
    )
}
