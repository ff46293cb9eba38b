// Whether what `save` or `open` answers and leaves is what a record stores. Each slice has its stored elements in front
// and zeros behind them; a refusal stores none.
ghost use Rattle.std.specs.Prelude.{◌≤◌};

use replay_records::numbers;
use replay_records::record::Record;

// The slices of a job, floats as their bits.
#[derive(Drop)]
pub struct Job {
    pub header: [u64; 8],
    pub points: [u64; 192],
    pub corners: [u32; 256],
    pub labels: [u8; 64],
}

impl Job {
    // Slices filled with a number.
    pub fn filled(n: u8) -> Job {
        Job {
            header: [u64::from(n); 8],
            points: [u64::from(n); 192],
            corners: [u32::from(n); 256],
            labels: [n; 64],
        }
    }
}

// Whether a number is the stored one, and four numbers are the stored count and counts.
fn same_answer(record: Record, got: u32, answer: &[u64; 4]) -> bool {
    let n = record.made();
    let stored = [
        record.count(),
        n.points as u64,
        n.quads as u64,
        n.labels as u64,
    ];
    got == record.number() && *answer == stored
}

// Whether `save` answered and left what is stored.
pub fn same_saved(record: Record, got: u32, file: &[u8], answer: &[u64; 4]) -> bool {
    let at = record.result_at();
    same_answer(record, got, answer)
        && numbers::holds(record.bytes, at, record.count() as usize, file)
}

// The same of `open`, whose result begins at a place.
pub fn same_opened(record: Record, at: usize, got: u32, job: &Job, answer: &[u64; 4]) -> bool
    requires { at ≤ 4000 }
{
    let n = record.made();
    let points_at = at + 64;
    let corners_at = points_at + 24 * n.points;
    let labels_at = corners_at + 16 * n.quads;
    let head = if got == 0 { 8 } else { 0 };
    same_answer(record, got, answer)
        && numbers::holds(record.bytes, at, head, &job.header)
        && numbers::holds(record.bytes, points_at, 3 * n.points, &job.points)
        && numbers::holds(record.bytes, corners_at, 4 * n.quads, &job.corners)
        && numbers::holds(record.bytes, labels_at, n.labels, &job.labels)
}
