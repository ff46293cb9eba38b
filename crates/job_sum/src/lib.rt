// The squared sum of any quads: corners out of range and a point twice in one quad among them.

#![tactic(auto)]

ghost use Rattle.std.specs.Prelude.{◌≡◌, ◌+◌, ◌*◌, ◌≤◌, ◌<◌, ◌^◌, length, get_or, set, take, replicate};
ghost use Rattle.lists.specs.Sort.{tabulate};
ghost use Rattle.rule_sheet.specs.Quads.{sum};
ghost use Rattle.rule_sheet.specs.Flat.{quads_of};
ghost use Rattle.rule_sheet.specs.Lent.{limit};
ghost use Rattle.rule_sheet.specs.Squared.{sq, squared};
ghost use Rattle.sheet.specs.Sheet.{Few};
ghost use Rattle.job_sum.specs.Steps.{named_in};

use rule_sheet::Counts;

// How far a number of quads is from 4, squared.
fn square(k: u32) -> u64
    ensures { result ≡ sq k }
{
    let far = u64::from(k.abs_diff(4));
    far * far
}

// One more at a place, if there is such a place.
fn count_at(counts: &mut [u32], v: usize)
    requires { get_or counts.old v 0 + 1 < 2 ^ 32 }
    ensures { counts.new ≡ set counts.old v (get_or counts.old v 0 + 1) }
{
    if counts.len() <= v {
        return;
    }
    counts[v] += 1;
}

// Counts for each point how many of n corners name it; one out of range is counted nowhere.
fn count_corners(n: usize, corners: &[u32], counts: &mut [u32])
    requires n_in_bounds { n ≤ length corners.now }
    requires n_bound { n < 2 ^ 32 }
    requires counts_value { counts.old ≡ replicate (length counts.old) 0 }
    ensures { counts.new ≡ tabulate (named_in corners.now n) (length counts.old) }
{
    for i in 0..n {
        count_at(counts, lists::at(corners, i));
    }
}

// The squares added.
fn add_squares(counts: &[u32]) -> u64
    requires { sum sq counts.now < 2 ^ 64 }
    ensures { result ≡ sum sq counts.now }
{
    let mut sum: u64 = 0;
    for x in counts {
        sum += square(*x);
    }
    sum
}

// The squared sum of quads over as many points as there are counts, which are zeros before and after.
fn squared_sum(nq: usize, corners: &[u32], counts: &mut [u32]) -> u64
    requires nq_le_limit { nq ≤ limit }
    requires nq_in_bounds { 4 * nq ≤ length corners.now }
    requires counts_len_bound { length counts.old ≤ limit }
    requires counts_value { counts.old ≡ replicate (length counts.old) 0 }
    ensures value { result ≡ squared (length counts.old) (quads_of nq corners.now) }
    ensures counts_unchanged { counts.new ≡ counts.old }
{
    count_corners(4 * nq, corners, counts);
    let sum = add_squares(counts);
    lists::clear(counts);
    sum
}

// The squared sum of the quads of a sheet of these counts. The work is zeros before and after.
pub fn sum_of(c: Counts, quads: &[u32], work: &mut [u32]) -> u64
    requires few { Few c }
    requires quads_in_bounds { 4 * c.quads ≤ length quads.now }
    requires points_in_bounds { c.points ≤ length work.old }
    requires work_value { work.old ≡ replicate (length work.old) 0 }
    ensures value { result ≡ squared c.points (quads_of c.quads (take (4 * c.quads) quads.now)) }
    ensures work_unchanged { work.new ≡ work.old }
{
    squared_sum(c.quads, &quads[..4 * c.quads], &mut work[..c.points])
}
