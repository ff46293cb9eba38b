// `save`: a core as the bytes of a job file.

#![tactic(auto)]

ghost use Rattle.std.specs.Prelude.{Some, ◌≡◌, ◌||◌, ◌++◌, ◌≤◌, ltb, length, take, drop, replicate};
ghost use Rattle.rule_sheet.specs.Lent.{before_verdict};
ghost use Rattle.sheet.specs.Sheet.{Few};
ghost use Rattle.rule_job.specs.Files.{job_of, trailer_at, trailer_bytes, file_with, size_of};
ghost use Rattle.rule_job.specs.Jobs.{job_room_with, is_short_job, held_job, save_rule, Saves};
ghost use Rattle.job_save.specs.Steps.{LentJob};

use rule_sheet::{Counts, Refusal, Tally};

// How many elements the header has, how many bytes it has, and how many the trailer.
pub const HEADER: usize = 8;

pub const HEAD: usize = 64;

pub const TRAILER: usize = 28;

// How many bytes a file of these counts has.
fn size_of(c: Counts) -> usize
    requires { Few c }
    ensures { result ≡ size_of c }
{
    HEAD + 24 * c.points + 16 * c.quads + c.labels + TRAILER
}

// 12 and 13, of slices of these lengths.
fn tested(
    c: Counts,
    header: usize,
    points: usize,
    quads: usize,
    labels: usize,
    work: usize,
    file: usize,
) -> Result<(), Refusal>
    ensures { result ≡ before_verdict c (is_short_job c (job_room_with header points quads labels work)
        || ltb file (size_of c)) }
{
    if sheet::is_large(c) {
        return Err(Refusal::Large);
    }
    let short = sheet::is_short(c, points, quads, labels);
    if ((header < HEADER) | short | (work < c.points)) | (file < size_of(c)) {
        return Err(Refusal::Short);
    }
    Ok(())
}

// Puts the trailer of these counts, with the sum.
fn put_trailer(c: Counts, sum: u64, file: &mut [u8])
    requires few { Few c }
    requires c_in_bounds { size_of c ≤ length file.old }
    ensures { file.new ≡ take (trailer_at c) file.old ++ trailer_bytes c (Some sum)
        ++ drop (size_of c) file.old }
{
    let q = HEAD + 24 * c.points;
    let l = q + 16 * c.quads;
    let t = l + c.labels;
    let starts: [u32; 4] = [64, q as u32, l as u32, t as u32];
    encoding::put_all(file, t, &starts, 4);
    encoding::put(file, t + 16, sum);
    encoding::put(file, t + 24, TRAILER as u32);
}

// Puts a job with this sum into the front of a file.
fn put_job(
    header: &[u64],
    points: &[u64],
    quads: &[u32],
    labels: &[u8],
    c: Counts,
    sum: u64,
    file: &mut [u8],
)
    requires lent_job { LentJob c (length header.now) (length points.now) (length quads.now) (length labels.now) }
    requires c_in_bounds { size_of c ≤ length file.old }
    ensures { let x = job_of c header.now points.now quads.now labels.now in
        file.new ≡ file_with (Some sum) (held_job x) ++ drop (size_of c) file.old }
{
    let q = HEAD + 24 * c.points;
    let l = q + 16 * c.quads;
    encoding::put_all(file, 0, header, HEADER);
    encoding::put_all(file, HEAD, points, 3 * c.points);
    encoding::put_all(file, q, quads, 4 * c.quads);
    lists::copy(&mut file[l..l + c.labels], &labels[..c.labels]);
    put_trailer(c, sum, file);
}

// Saves a job: the file in front of the lent slice, zeros behind it; or the first refusal. The work is left zero.
pub fn save(
    header: &[u64],
    points: &[u64],
    quads: &[u32],
    labels: &[u8],
    c: Counts,
    work: &mut [u32],
    file: &mut [u8],
) -> Result<Tally, Refusal>
    ensures fact { let x = job_of c header.now points.now quads.now labels.now in
        let n = length file.old in
        Saves (save_rule x (length work.old) n) n result file.new }
    ensures work_after { work.new ≡ replicate (length work.old) 0 }
{
    let v = tested(
        c,
        header.len(),
        points.len(),
        quads.len(),
        labels.len(),
        work.len(),
        file.len(),
    );
    lists::clear(work);
    lists::clear(file);
    v?;
    let sum = job_sum::sum_of(c, quads, work);
    put_job(header, points, quads, labels, c, sum, file);
    Ok(Tally {
        count: size_of(c),
        sheet: c,
    })
}
