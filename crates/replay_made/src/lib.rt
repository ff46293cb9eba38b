// The operations that make a sheet, asked as a record says, and whether they answer as it.

#![tactic(auto)]

use replay_records::lent::{Room, Sheet, Work};
use replay_records::operation::Making;
use replay_records::record::{Band, Record};
use replay_records::{lent, stored};

// Calls `refine`: the number of its answer.
fn refine(sheet: &Sheet, room: &mut Room, work: &mut Work, answer: &mut [u64]) -> u32 {
    quads::quads_refine(
        &sheet.points,
        &sheet.corners,
        &sheet.labels,
        sheet.sizes.points,
        sheet.sizes.quads,
        sheet.sizes.labels,
        &mut room.points,
        &mut room.corners,
        &mut room.labels,
        &mut work.words,
        &mut work.floats,
        answer,
    )
}

// The same of `subdivide`.
fn subdivide(
    sheet: &Sheet,
    band: &Band,
    room: &mut Room,
    work: &mut Work,
    answer: &mut [u64],
) -> u32 {
    quads::quads_subdivide(
        &sheet.points,
        &sheet.corners,
        &sheet.labels,
        sheet.sizes.points,
        sheet.sizes.quads,
        sheet.sizes.labels,
        band.kind,
        &band.numbers,
        &band.bounds,
        band.lower,
        band.upper,
        &mut room.points,
        &mut room.corners,
        &mut room.labels,
        &mut work.words,
        &mut work.floats,
        answer,
    )
}

// The same of `boundary_rows`.
fn boundary_rows(
    sheet: &Sheet,
    band: &Band,
    room: &mut Room,
    work: &mut Work,
    answer: &mut [u64],
) -> u32 {
    quads::quads_boundary_rows(
        &sheet.points,
        &sheet.corners,
        &sheet.labels,
        sheet.sizes.points,
        sheet.sizes.quads,
        sheet.sizes.labels,
        band.kind,
        &band.numbers,
        &band.bounds,
        band.lower,
        band.upper,
        &mut room.points,
        &mut room.corners,
        &mut room.labels,
        &mut work.words,
        &mut work.floats,
        answer,
    )
}

// Whether `refine`, `subdivide` or `boundary_rows` answers as the record says.
pub fn agrees(record: Record, making: Making) -> bool {
    let sheet = lent::sheet_of(record);
    let band = record.band();
    let mut room = Room::new();
    let mut work = Work::new();
    let mut answer = [0; 4];
    let got = match making {
        Making::Refine => refine(&sheet, &mut room, &mut work, &mut answer),
        Making::Subdivide => subdivide(&sheet, &band, &mut room, &mut work, &mut answer),
        Making::BoundaryRows => boundary_rows(&sheet, &band, &mut room, &mut work, &mut answer),
    };
    stored::same_answer(
        record,
        got,
        &answer,
        &room.points,
        &room.corners,
        &room.labels,
    )
}

// Whether `extract_candidate` answers as the record says, whose lent sheet is empty.
pub fn agrees_drawn(record: Record) -> bool {
    let band = record.band();
    let mut room = Room::new();
    let mut work = Work::new();
    let mut answer = [0; 4];
    let got = quads::quads_extract_candidate(
        band.kind,
        &band.numbers,
        &band.bounds,
        band.lower,
        band.upper,
        record.argument() as usize,
        &mut room.points,
        &mut room.corners,
        &mut room.labels,
        &mut work.words,
        &mut work.floats,
        &mut answer,
    );
    stored::same_answer(
        record,
        got,
        &answer,
        &room.points,
        &room.corners,
        &room.labels,
    )
}
