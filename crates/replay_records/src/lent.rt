// What an operation is lent.
ghost use Rattle.replay_records.specs.Sizes.{Small};

use crate::numbers;
use crate::record::{Record, SHEET};
use crate::sheets::Sizes;

// The lent sheet of a record: its sizes, and slices that are longer.
#[derive(Drop)]
pub struct Sheet {
    pub sizes: Sizes,
    pub points: [f64; 192],
    pub corners: [u32; 256],
    pub labels: [u8; 64],
    ghost small: { Small sizes },
}

// Room for a sheet that is made.
#[derive(Drop)]
pub struct Room {
    pub points: [f64; 1152],
    pub corners: [u32; 1024],
    pub labels: [u8; 256],
}

// The work slices.
#[derive(Drop)]
pub struct Work {
    pub words: [u32; 8192],
    pub floats: [f64; 2048],
}

// The lent sheet of a record.
pub fn sheet_of(record: Record) -> Sheet {
    let sizes = record.sizes();
    let corners_at = SHEET + 24 * sizes.points;
    let labels_at = corners_at + 16 * sizes.quads;
    let mut points = [0.0; 192];
    let mut corners = [0; 256];
    let mut labels = [0; 64];
    numbers::load(record.bytes, SHEET, &mut points);
    numbers::load(record.bytes, corners_at, &mut corners);
    numbers::load(record.bytes, labels_at, &mut labels);
    Sheet {
        sizes,
        points,
        corners,
        labels,
    }
}

impl Room {
    // Room with nothing in it.
    pub fn new() -> Room {
        Room {
            points: [0.0; 1152],
            corners: [0; 1024],
            labels: [0; 256],
        }
    }
}

impl Work {
    // Clear work slices.
    pub fn new() -> Work {
        Work {
            words: [0; 8192],
            floats: [0.0; 2048],
        }
    }
}
