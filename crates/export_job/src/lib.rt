// `save` after a test, `open` where what its export answers in is too short, and what a trailer says of the sum.

#![tactic(auto)]

ghost use Rattle.std.specs.Prelude.{◌≡◌, true, cond, [], ◌∷◌, ◌≤◌, length, replicate};
ghost use Rattle.rule_sheet.specs.Outcomes.{gives, after_test};
ghost use Rattle.rule_job.specs.Files.{job_of};
ghost use Rattle.rule_job.specs.Jobs.{job_room_with, job_room_of, save_rule, Saves, open_rule, Opens, sum_by, sum_rule};
ghost use Rattle.rule_exports.specs.Measured.{fronted};
ghost use Rattle.rule_exports.specs.Jobs.{is_short_sum, sum_shown, sum_answered, ShowsSum};

use rule_job::Trailer;
use rule_sheet::{Counts, Refusal, Tally};

// `save` after a test: its refusal, or the operation.
pub fn save_after(
    v: Result<(), Refusal>,
    header: &[u64],
    points: &[u64],
    quads: &[u32],
    labels: &[u8],
    c: Counts,
    work: &mut [u32],
    file: &mut [u8],
) -> Result<Tally, Refusal>
    ensures fact { let x = job_of c header.now points.now quads.now labels.now in
        let n = length file.old in
        Saves (after_test v (save_rule x (length work.old) n)) n result file.new }
    ensures work_after { work.new ≡ replicate (length work.old) 0 }
{
    if let Err(refusal) = v {
        lists::clear(work);
        lists::clear(file);
        return Err(refusal);
    }
    job_save::save(header, points, quads, labels, c, work, file)
}

// `open` into no slices: its refusal, with the slices cleared that it is lent.
fn open_idle(
    file: &[u8],
    header: &mut [u64],
    points: &mut [u64],
    quads: &mut [u32],
    labels: &mut [u8],
    work: &mut [u32],
) -> Result<Tally, Refusal>
    ensures fact { let room = job_room_of header.old points.old quads.old labels.old
        work.old in
        Opens (open_rule file.now (job_room_with 0 0 0 0 0)) room result
        header.new points.new quads.new labels.new }
    ensures work_after { work.new ≡ replicate (length work.old) 0 }
{
    let r = job_open::open(
        file,
        &mut header[..0],
        &mut points[..0],
        &mut quads[..0],
        &mut labels[..0],
        &mut work[..0],
    );
    lists::clear(header);
    lists::clear(points);
    lists::clear(quads);
    lists::clear(labels);
    lists::clear(work);
    r
}

// `open`; few where what it answers in is too short, which counts as no slices.
pub fn open_after(
    few: bool,
    file: &[u8],
    header: &mut [u64],
    points: &mut [u64],
    quads: &mut [u32],
    labels: &mut [u8],
    work: &mut [u32],
) -> Result<Tally, Refusal>
    ensures fact { let room = job_room_of header.old points.old quads.old labels.old
        work.old in
        Opens (open_rule file.now (cond few (job_room_with 0 0 0 0 0) room)) room result
        header.new points.new quads.new labels.new }
    ensures work_after { work.new ≡ replicate (length work.old) 0 }
{
    if few {
        return open_idle(file, header, points, quads, labels, work);
    }
    job_open::open(file, header, points, quads, labels, work)
}

// ---- the sum alone

// How many elements its answer slice has.
const ANSWERS: usize = 2;

// Writes two numbers.
fn put_two(answer: &mut [u64], a: u64, b: u64)
    requires { 2 ≤ length answer.old }
    ensures { answer.new ≡ fronted (a ∷ b ∷ []) answer.old }
{
    answer[..ANSWERS].copy_from_slice(&[a, b]);
}

// Writes what is said of the sum: 1 and the sum, or zeros where none is written.
fn put_sum(answer: &mut [u64], s: Option<u64>)
    requires { 2 ≤ length answer.old }
    ensures { answer.new ≡ fronted (sum_shown (gives s)) answer.old }
{
    match s {
        None => put_two(answer, 0, 0),
        Some(n) => put_two(answer, 1, n),
    }
}

// The number where the answer slice is too short: 14, or else 13.
fn short_number(t: Option<Trailer>) -> u32
    ensures { result ≡ sum_answered (sum_by t true) }
{
    match t {
        Some(_) => Refusal::Short.number(),
        None => Refusal::Trailer.number(),
    }
}

// Shows what a trailer says of the sum: 14, 13, or the sum. A slice that is too short stays as it came.
fn show_sum(answer: &mut [u64], t: Option<Trailer>) -> u32
    ensures { ShowsSum (sum_by t (is_short_sum answer.old)) answer.old result
        answer.new }
{
    if answer.len() < ANSWERS {
        return short_number(t);
    }
    match t {
        Some(told) => {
            put_sum(answer, told.sum);
            0
        }
        None => {
            put_two(answer, 0, 0);
            Refusal::Trailer.number()
        }
    }
}

// The same of the trailer of a file.
pub fn sum_told(file: &[u8], answer: &mut [u64]) -> u32
    ensures { ShowsSum (sum_rule file.now (is_short_sum answer.old)) answer.old result
        answer.new }
{
    show_sum(answer, job_open::read_trailer(file))
}
