// The proved test of the lent sheet of a record.

use crate::UNKNOWN;
use replay_records::lent;
use replay_records::record::{Band, Record};

// What the proved test of a record's sheet answers; a larger sheet is not taken.
pub fn test(record: Record, band: &Band) -> u32 {
    if !record.is_taken() {
        return UNKNOWN;
    }
    let sheet = lent::sheet_of(record);
    let n = sheet.sizes;
    let mut masks = [0; 64];
    export_leaves::leaf_constraints(
        &sheet.points[..3 * n.points],
        &sheet.corners[..4 * n.quads],
        &sheet.labels[..n.labels],
        band.kind,
        &band.numbers,
        &band.bounds,
        band.lower,
        band.upper,
        &mut masks[..n.points],
    )
}
