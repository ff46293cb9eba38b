// One record: reading it, asking the proved function, comparing.
use crate::input;
use replay_records::operation::{Operation, UnknownOperation};
use replay_records::record::{Record, SHEET};
use std::io;
use std::io::Read;

// Reads the bytes from start to end of a record; false if they do not fit or the input ends.
fn read_part<R: Read>(
    input: &mut R,
    bytes: &mut [u8],
    start: usize,
    end: usize,
) -> io::Result<bool> {
    if end < start || bytes.len() < end {
        return Ok(false);
    }
    let got = input::read_full(input, &mut bytes[start..end])?;
    Ok(got == end - start)
}

// Reads a record whole, its head, then as many bytes as that says; None if it is missing or too long.
pub fn read<'a, R: Read>(input: &mut R, bytes: &'a mut [u8]) -> io::Result<Option<Record<'a>>> {
    if !read_part(input, bytes, 0, SHEET)? {
        return Ok(None);
    }
    let size = Record { bytes }.at::<u32>(0) as usize;
    if !read_part(input, bytes, SHEET, size)? {
        return Ok(None);
    }
    Ok(Some(Record { bytes }))
}

// Whether the proved function of an operation answers as the record says; a larger sheet is not taken.
fn agrees_to(record: Record, operation: Operation) -> bool {
    if operation.takes_sheet() && !record.is_taken() {
        return false;
    }
    match operation {
        Operation::Make(making) => replay_made::agrees(record, making),
        Operation::Extract => replay_made::agrees_drawn(record),
        Operation::Alter(altering) => replay_altered::agrees(record, altering),
        Operation::Measure(measuring) => replay_measured::agrees(record, measuring),
        Operation::At(function) => replay_measured::agrees_at(record, function),
        Operation::File(filing) => replay_job::agrees(record, filing),
    }
}

// The same of the operation that the record names; nothing agrees to operation 0.
pub fn agrees(record: Record) -> bool {
    match record.operation() {
        Ok(operation) => agrees_to(record, operation),
        Err(UnknownOperation(0)) => false,
        Err(_) => replay_measured::agrees_unknown(record),
    }
}
