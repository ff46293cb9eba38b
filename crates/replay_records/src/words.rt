// The words of a result, and whether a record stores them.
ghost use Rattle.std.specs.Prelude.{◌≤◌};
ghost use Rattle.replay_records.specs.Sizes.{Finer};

use crate::numbers;
use crate::record::Record;
use crate::sheets::Sizes;

// A sheet that was made: its sizes, and slices that may be longer.
#[derive(Clone, Copy)]
pub struct Made<'a> {
    pub sizes: Sizes,
    pub points: &'a [f64],
    pub corners: &'a [u32],
    pub labels: &'a [u8],
}

// A sum over words and the sum of its sums, both wrapping.
#[derive(Clone, Copy, PartialEq, Eq)]
struct Digest {
    a: u64,
    b: u64,
}

// The bits of a coordinate, 0 beyond the end.
fn coordinate_at(points: &[f64], at: usize) -> u64 {
    points.get(at).map_or(0, |x| numbers::bits_of(*x))
}

// A corner, 0 beyond the end.
fn corner_at(corners: &[u32], at: usize) -> u32 {
    corners.get(at).copied().unwrap_or(0)
}

// Two corners in a word.
fn corners_at(corners: &[u32], at: usize) -> u64
    requires { at ≤ 2000 }
{
    u64::from(corner_at(corners, at)) + 0x1_0000_0000 * u64::from(corner_at(corners, at + 1))
}

// How many words a sheet has: three for a point, two for a quad, one for eight labels.
fn words_of(n: Sizes) -> usize
    requires { Finer n }
    ensures { result ≤ 2000 }
{
    3 * n.points + 2 * n.quads + n.labels.div_ceil(8)
}

// Word i of a sheet: coordinates, corners two to a word, labels eight to a word.
fn word_of(made: Made, i: usize) -> u64
    requires finer { Finer made.sizes }
    requires i_bound { i ≤ 2000 }
{
    let corners = 3 * made.sizes.points;
    let labels = corners + 2 * made.sizes.quads;
    if i < corners {
        return coordinate_at(made.points, i);
    }
    if i < labels {
        return corners_at(made.corners, 2 * (i - corners));
    }
    numbers::number_at(made.labels, 8 * (i - labels))
}

// Whether the words of a sheet stand in a record from a place on.
fn same_words(record: Record, at: usize, made: Made) -> bool
    requires { Finer made.sizes }
{
    let mut rest = numbers::from(record.bytes, at);
    for i in 0..words_of(made.sizes) {
        let (stored, behind) = numbers::next(rest);
        if word_of(made, i) != stored {
            return false;
        }
        rest = behind;
    }
    true
}

// The digest of the words of a sheet.
fn digest_of(made: Made) -> Digest
    requires { Finer made.sizes }
{
    let mut digest = Digest { a: 0, b: 0 };
    for i in 0..words_of(made.sizes) {
        digest.a = digest.a.wrapping_add(word_of(made, i));
        digest.b = digest.b.wrapping_add(digest.a);
    }
    digest
}

// Whether a record's result is this sheet, or its digest where the record says so.
pub fn same_sheet(record: Record, made: Made) -> bool
    requires { Finer made.sizes }
{
    let at = record.result_at();
    if !record.is_digest() {
        return same_words(record, at, made);
    }
    let stored = Digest {
        a: record.at(at),
        b: record.at(at + 8),
    };
    digest_of(made) == stored
}
