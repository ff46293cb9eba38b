// A record: its head, the band that it tells, and where its result begins.
ghost use Rattle.std.specs.Prelude.{◌^◌, ◌<◌, ◌≤◌};
ghost use Rattle.replay_records.specs.Sizes.{Small};

use crate::numbers::Number;
use crate::operation::{Operation, UnknownOperation};
use crate::sheets::Sizes;
use crate::{numbers, sheets};

// Where the lent sheet of a record begins.
pub const SHEET: usize = 208;

// Where the bounds of a record's box begin.
pub const BOUNDS: usize = 144;

// The flags of a result.
const DIGEST: u8 = 1;

const VALID: u8 = 2;

const TIGHT: u8 = 4;

const SCORED: u8 = 8;

// The bytes of a record.
#[derive(Clone, Copy)]
pub struct Record<'a> {
    pub bytes: &'a [u8],
}

// What a record tells of a band.
#[derive(Drop)]
pub struct Band {
    pub kind: u32,
    pub numbers: [f64; 10],
    pub bounds: [f64; 6],
    pub lower: f64,
    pub upper: f64,
}

impl Record<'_> {
    // The number at a place, 0 beyond the end.
    pub fn at<T: Number>(self, place: usize) -> T {
        numbers::number_at(self.bytes, place)
    }

    // The number of its operation.
    pub fn code(self) -> u8 {
        self.at(4)
    }

    // Its operation.
    pub fn operation(self) -> Result<Operation, UnknownOperation> {
        Operation::try_from(self.code())
    }

    // The number of the answer, 0 if accepted.
    pub fn number(self) -> u32 {
        u32::from(self.at::<u8>(5))
    }

    // Whether a flag is set.
    fn has(self, flag: u8) -> bool {
        self.at::<u8>(6) & flag != 0
    }

    // Whether its result is a digest.
    pub fn is_digest(self) -> bool {
        self.has(DIGEST)
    }

    // Whether the measured sheet is valid.
    pub fn is_valid(self) -> bool {
        self.has(VALID)
    }

    // Whether the measured sheet is tight.
    pub fn is_tight(self) -> bool {
        self.has(TIGHT)
    }

    // Whether no score of the measured sheet is NaN.
    pub fn is_scored(self) -> bool {
        self.has(SCORED)
    }

    // The number of the field's kind.
    pub fn kind(self) -> u32 {
        u32::from(self.at::<u8>(7))
    }

    // The passes, the cells, the mask or the label that is asked with, or the bytes that are lent for a file.
    pub fn argument(self) -> u64 {
        self.at(8)
    }

    // The count of swaps or merges, the bytes of a saved file or the sum of one.
    pub fn count(self) -> u64 {
        self.at(16)
    }

    // The counts that stand at a place.
    fn counts_at(self, place: usize) -> Sizes
        requires { place ≤ 40 }
        ensures points_bound { result.points < 2 ^ 32 }
        ensures quads_bound { result.quads < 2 ^ 32 }
        ensures labels_bound { result.labels < 2 ^ 32 }
    {
        Sizes {
            points: self.at::<u32>(place) as usize,
            quads: self.at::<u32>(place + 4) as usize,
            labels: self.at::<u32>(place + 8) as usize,
        }
    }

    // How many points, quads and labels its lent sheet is said to have.
    fn stated(self) -> Sizes {
        self.counts_at(24)
    }

    // How many points, quads and labels its result has.
    pub fn made(self) -> Sizes
        ensures points_bound { result.points < 2 ^ 32 }
        ensures quads_bound { result.quads < 2 ^ 32 }
        ensures labels_bound { result.labels < 2 ^ 32 }
    {
        self.counts_at(40)
    }

    // Whether its lent sheet is taken.
    pub fn is_taken(self) -> bool {
        sheets::is_small(self.stated())
    }

    // The sizes of its lent sheet; zeros if it is not taken.
    pub fn sizes(self) -> Sizes
        ensures { Small result }
    {
        let n = self.stated();
        if sheets::is_small(n) {
            return n;
        }
        Sizes {
            points: 0,
            quads: 0,
            labels: 0,
        }
    }

    // Where its result begins, behind the lent sheet.
    pub fn result_at(self) -> usize
        ensures { result ≤ 4000 }
    {
        let n = self.sizes();
        SHEET + 24 * n.points + 16 * n.quads + n.labels.next_multiple_of(8)
    }

    // The band that it tells.
    pub fn band(self) -> Band {
        let mut band = Band {
            kind: self.kind(),
            numbers: [0.0; 10],
            bounds: [0.0; 6],
            lower: self.at(192),
            upper: self.at(200),
        };
        numbers::load(self.bytes, 64, &mut band.numbers);
        numbers::load(self.bytes, BOUNDS, &mut band.bounds);
        band
    }
}
