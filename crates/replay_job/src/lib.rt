// `save`, `open` and the sum of a file, asked as a record says, and whether they answer as it.

#![tactic(auto)]

mod stored;

ghost use Rattle.std.specs.Prelude.{◌≤◌, length, IfSome};

use replay_records::numbers;
use replay_records::operation::Filing;
use replay_records::record::{BOUNDS, Record, SHEET};
use stored::Job;

// The most bytes that are lent for a file, or that a file has.
const MOST: usize = 2800;

// Whether `save` to this slice answers as the record says.
fn saves_to(record: Record, file: &mut [u8]) -> bool {
    let n = record.sizes();
    let corners_at = SHEET + 24 * n.points;
    let labels_at = corners_at + 16 * n.quads;
    let mut job = Job::filled(0);
    numbers::load(record.bytes, BOUNDS, &mut job.header);
    numbers::load(record.bytes, SHEET, &mut job.points);
    numbers::load(record.bytes, corners_at, &mut job.corners);
    numbers::load(record.bytes, labels_at, &mut job.labels);
    let mut work = [7; 64];
    let mut answer = [7; 4];
    let got = quads::quads_save_job(
        &job.header,
        &job.points,
        &job.corners,
        &job.labels,
        n.points,
        n.quads,
        n.labels,
        &mut work,
        file,
        &mut answer,
    );
    numbers::is_clear(&work) && stored::same_saved(record, got, file, &answer)
}

// The same, to a slice as long as the record says.
fn save_agrees(record: Record) -> bool {
    let lent = record.at::<u32>(8) as usize;
    let mut file = [255; MOST];
    lent <= MOST && saves_to(record, &mut file[..lent])
}

// Whether `open` of a file answers as the record says.
fn open_agrees(record: Record, file: &[u8]) -> bool
    requires { length file.now ≤ 2800 }
{
    let mut job = Job::filled(7);
    let mut work = [7; 64];
    let mut answer = [7; 4];
    let got = quads::quads_open_job(
        file,
        &mut job.header,
        &mut job.points,
        &mut job.corners,
        &mut job.labels,
        &mut work,
        &mut answer,
    );
    let at = SHEET + file.len().next_multiple_of(8);
    numbers::is_clear(&work) && stored::same_opened(record, at, got, &job, &answer)
}

// Whether the sum of a file is told as the record says: whether one is written, and the sum.
fn sum_agrees(record: Record, file: &[u8]) -> bool {
    let mut answer = [7; 2];
    let got = quads::quads_job_sum(file, &mut answer);
    let [written, sum] = answer;
    got == record.number() && written == u64::from(record.at::<u32>(40)) && sum == record.count()
}

// The file that is read, which stands where labels would; None where it is too long.
fn file_of(record: Record<'_>) -> Option<&[u8]>
    ensures { IfSome result (λ file. length file.now ≤ 2800) }
{
    let size = record.at::<u32>(32) as usize;
    if MOST < size {
        return None;
    }
    record.bytes.get(SHEET..SHEET + size)
}

// Whether the operation answers as the record says.
pub fn agrees(record: Record, filing: Filing) -> bool {
    match (filing, file_of(record)) {
        (Filing::Save, _) => save_agrees(record),
        (Filing::Open, Some(file)) => open_agrees(record, file),
        (Filing::Sum, Some(file)) => sum_agrees(record, file),
        (_, None) => false,
    }
}
