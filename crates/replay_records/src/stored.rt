// Whether an answer is the one that a record stores.
ghost use Rattle.std.specs.Prelude.{◌≤◌};

use crate::record::Record;
use crate::words::Made;
use crate::{numbers, sheets, words};

// How many bytes the page has.
const PAGE: usize = 328;

// Whether a made sheet of these counts is the stored result.
fn same_made(
    record: Record,
    counts: [u64; 3],
    points: &[f64],
    corners: &[u32],
    labels: &[u8],
) -> bool {
    let [np, nq, nl] = counts;
    let Some(sizes) = sheets::finer(np, nq, nl) else {
        return false;
    };
    let made = Made {
        sizes,
        points,
        corners,
        labels,
    };
    sizes == record.made() && words::same_sheet(record, made)
}

// Whether an answer is the stored one: its number and, if it is accepted, its count and its sheet.
pub fn same_answer(
    record: Record,
    got: u32,
    answer: &[u64; 4],
    points: &[f64],
    corners: &[u32],
    labels: &[u8],
) -> bool {
    let [count, np, nq, nl] = *answer;
    got == record.number()
        && (got != 0
            || (count == record.count()
                && same_made(record, [np, nq, nl], points, corners, labels)))
}

// Whether eight counts, and then tight and valid, are those of a record's result from a place on.
fn same_tally(record: Record, at: usize, answer: &[u64; 10]) -> bool {
    numbers::holds(record.bytes, at, 8, &answer[..8])
        && answer[8] == u64::from(record.is_tight())
        && answer[9] == u64::from(record.is_valid())
}

// Whether a measure is the one stored at a place; zeros of either sign are equal.
fn same_measure(record: Record, at: usize, x: f64) -> bool {
    let stored = record.at(at);
    numbers::bits_of(x) == stored || (x == 0.0 && stored % 0x8000_0000_0000_0000 == 0)
}

// Whether four measures are those stored from a place on; the second counts only where the record says so.
fn same_measures(record: Record, at: usize, m: &[f64; 4]) -> bool
    requires { at ≤ 4064 }
{
    same_measure(record, at, m[0])
        && (!record.is_scored() || same_measure(record, at + 8, m[1]))
        && same_measure(record, at + 16, m[2])
        && same_measure(record, at + 24, m[3])
}

// Whether the number of an answer of `quality` and, if it is accepted, its counts and measures are the stored ones.
pub fn same_quality(record: Record, got: u32, answer: &[u64; 10], measures: &[f64; 4]) -> bool {
    let at = record.result_at();
    got == record.number()
        && (got != 0
            || (same_tally(record, at, answer) && same_measures(record, at + 64, measures)))
}

// Whether the number of an answer of `corners_per_point` and, if it is accepted, its two numbers are the stored ones.
pub fn same_ratio(record: Record, got: u32, answer: &[u64; 2]) -> bool {
    got == record.number()
        && (got != 0 || numbers::holds(record.bytes, record.result_at(), 2, answer))
}

// Whether the number of an answer of `page` and its slice are the stored ones: zeros behind the page, and all zeros if
// it is refused.
pub fn same_page(record: Record, got: u32, page: &[u8]) -> bool {
    let size = if got == 0 { PAGE } else { 0 };
    got == record.number() && numbers::holds(record.bytes, record.result_at(), size, page)
}
