// `open`: a core out of the bytes of a job file.

#![tactic(auto)]

ghost use Rattle.std.specs.Prelude.{◌≡◌, ◌+◌, ◌*◌, ◌≤◌, length, take, replicate};
ghost use Rattle.rule_sheet.specs.Flat.{quads_of};
ghost use Rattle.rule_sheet.specs.Lent.{before_verdict};
ghost use Rattle.rule_sheet.specs.Outcomes.{after_test};
ghost use Rattle.rule_sheet.specs.Squared.{squared};
ghost use Rattle.sheet.specs.Sheet.{Few};
ghost use Rattle.rule_job.specs.Files.{trailer_at, trailer_size, counts_by, starts_at, trailer_of, job_in};
ghost use Rattle.rule_job.specs.Jobs.{job_room_with, job_room_of, is_short_job, is_other, summed, open_rule, Opens};
ghost use Rattle.job_save.specs.Steps.{LentJob};
ghost use Rattle.job_open.specs.Steps.{Reads, Zeros};

use rule_job::Trailer;
use rule_sheet::{Counts, Refusal, Tally};

// How many bytes a trailer without a sum has.
const OLDER: usize = 20;

// What the starts p, q, l and t and the trailer's length z tell, in a file of n bytes, beside what is said of the sum.
fn counts_by(p: u32, q: u32, l: u32, t: u32, z: usize, n: usize, s: Option<u64>) -> Option<Trailer>
    requires { z ≤ 28 }
    ensures { result ≡ counts_by p q l t z n s }
{
    if p != 64 {
        return None;
    }
    if q < p {
        return None;
    }
    if (q - p) % 24 != 0 {
        return None;
    }
    if l < q {
        return None;
    }
    if (l - q) % 16 != 0 {
        return None;
    }
    if t < l {
        return None;
    }
    if t as usize + z != n {
        return None;
    }
    let counts = Counts {
        points: ((q - p) / 24) as usize,
        quads: ((l - q) / 16) as usize,
        labels: (t - l) as usize,
    };
    Some(Trailer { counts, sum: s })
}

// The same of the four starts from the place a on.
fn starts_at(file: &[u8], a: usize, z: usize, s: Option<u64>) -> Option<Trailer>
    requires a_in_bounds { a + 16 ≤ length file.now }
    requires z_bound { z ≤ 28 }
    ensures { result ≡ starts_at a z s file.now }
{
    let p: u32 = encoding::get(file, a);
    let q: u32 = encoding::get(file, a + 4);
    let l: u32 = encoding::get(file, a + 8);
    let t: u32 = encoding::get(file, a + 12);
    counts_by(p, q, l, t, z, file.len(), s)
}

// What the trailer at the end of a file tells.
pub fn read_trailer(file: &[u8]) -> Option<Trailer>
    ensures { result ≡ trailer_of file.now }
{
    let n = file.len();
    if n < job_save::HEAD + OLDER {
        return None;
    }
    let z = encoding::get::<u32>(file, n - 4) as usize;
    if z == OLDER {
        return starts_at(file, n - OLDER, OLDER, None);
    }
    if z == job_save::TRAILER {
        let sum = Some(encoding::get(file, n - 12));
        return starts_at(file, n - job_save::TRAILER, job_save::TRAILER, sum);
    }
    None
}

// 12 and 13, of slices of these lengths.
fn tested(
    c: Counts,
    header: usize,
    points: usize,
    quads: usize,
    labels: usize,
    work: usize,
) -> Result<(), Refusal>
    ensures { result ≡ before_verdict c (is_short_job c (job_room_with header points quads labels work)) }
{
    if sheet::is_large(c) {
        return Err(Refusal::Large);
    }
    let short = sheet::is_short(c, points, quads, labels);
    if (header < job_save::HEADER) | short | (work < c.points) {
        return Err(Refusal::Short);
    }
    Ok(())
}

// Reads the job in a file of these counts into the fronts of the slices.
fn get_job(
    file: &[u8],
    c: Counts,
    header: &mut [u64],
    points: &mut [u64],
    quads: &mut [u32],
    labels: &mut [u8],
)
    requires c_in_bounds { trailer_at c ≤ length file.now }
    requires lent_job { LentJob c (length header.old) (length points.old) (length quads.old) (length labels.old) }
    ensures { Reads (job_in file.now c)
        header.old points.old quads.old labels.old
        header.new points.new quads.new labels.new }
{
    let q = job_save::HEAD + 24 * c.points;
    let l = q + 16 * c.quads;
    encoding::get_all(file, 0, header, job_save::HEADER);
    encoding::get_all(file, job_save::HEAD, points, 3 * c.points);
    encoding::get_all(file, q, quads, 4 * c.quads);
    lists::copy(&mut labels[..c.labels], &file[l..l + c.labels]);
}

// Sets every element of the slices of a job to 0.
fn clear_job(header: &mut [u64], points: &mut [u64], quads: &mut [u32], labels: &mut [u8])
    ensures header_after { header.new ≡ replicate (length header.old) 0 }
    ensures points_after { points.new ≡ replicate (length points.old) 0 }
    ensures quads_after { quads.new ≡ replicate (length quads.old) 0 }
    ensures labels_after { labels.new ≡ replicate (length labels.old) 0 }
{
    lists::clear(header);
    lists::clear(points);
    lists::clear(quads);
    lists::clear(labels);
}

// Whether a sum is written that is not that of the quads. The work is zeros before and after.
fn is_other(s: Option<u64>, c: Counts, quads: &[u32], work: &mut [u32]) -> bool
    requires few { Few c }
    requires quads_in_bounds { 4 * c.quads ≤ length quads.now }
    requires points_in_bounds { c.points ≤ length work.old }
    requires work_value { work.old ≡ replicate (length work.old) 0 }
    ensures value { result ≡ is_other s (squared c.points (quads_of c.quads
        (take (4 * c.quads) quads.now))) }
    ensures work_unchanged { work.new ≡ work.old }
{
    match s {
        None => false,
        Some(n) => n != job_sum::sum_of(c, quads, work),
    }
}

// Opens a file of these counts, with this said of the sum, into slices of zeros: 12, 13, 17, or its job.
fn open_found(
    file: &[u8],
    c: Counts,
    s: Option<u64>,
    header: &mut [u64],
    points: &mut [u64],
    quads: &mut [u32],
    labels: &mut [u8],
    work: &mut [u32],
) -> Result<Tally, Refusal>
    requires s_value { trailer_at c + trailer_size s ≡ length file.now }
    requires zeros { Zeros (job_room_of header.old points.old quads.old labels.old work.old)
        header.old points.old quads.old labels.old }
    requires work_value { work.old ≡ replicate (length work.old) 0 }
    ensures fact { let room = job_room_of header.old points.old quads.old labels.old
        work.old in
        Opens (after_test (before_verdict c (is_short_job c room)) (summed s (job_in file.now c))) room result
        header.new points.new quads.new labels.new }
    ensures work_unchanged { work.new ≡ work.old }
{
    tested(
        c,
        header.len(),
        points.len(),
        quads.len(),
        labels.len(),
        work.len(),
    )?;
    get_job(file, c, header, points, quads, labels);
    if is_other(s, c, quads, work) {
        clear_job(header, points, quads, labels);
        return Err(Refusal::Sum);
    }
    Ok(Tally { count: 0, sheet: c })
}

// Opens a job: header, points, quads and labels in front of the lent slices, zeros behind each; or the first refusal.
// The work is left zero.
pub fn open(
    file: &[u8],
    header: &mut [u64],
    points: &mut [u64],
    quads: &mut [u32],
    labels: &mut [u8],
    work: &mut [u32],
) -> Result<Tally, Refusal>
    ensures fact { let room = job_room_of header.old points.old quads.old labels.old
        work.old in
        Opens (open_rule file.now room) room result
        header.new points.new quads.new labels.new }
    ensures work_after { work.new ≡ replicate (length work.old) 0 }
{
    clear_job(header, points, quads, labels);
    lists::clear(work);
    let Some(t) = read_trailer(file) else {
        return Err(Refusal::Trailer);
    };
    open_found(file, t.counts, t.sum, header, points, quads, labels, work)
}
