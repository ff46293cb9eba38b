// A lent sheet: its counts and limits, and the tests 12, 13, 5, 6 and 7 with the masks of its points.

#![tactic(auto)]

ghost use Rattle.std.specs.Prelude.{◌≡◌, true, false, ◌||◌, ◌+◌, ◌*◌, ◌<◌, ◌≤◌, length, get_or, take, replicate};
ghost use Rattle.lists.specs.Every.{every};
ghost use Rattle.lists.specs.Sort.{tabulate};
ghost use Rattle.rule_sheet.specs.Quads.{num, quad};
ghost use Rattle.rule_sheet.specs.Flat.{corner, quads_of};
ghost use Rattle.sheet.specs.Flat.{mask_in, Holds, with_quad};
ghost use Rattle.rule_sheet.specs.Tests.{in_range, distinct, good_mask};
ghost use Rattle.sheet.specs.Tests.{good_quad_at, good_mask_at, with_bit, marked};
ghost use Rattle.rule_sheet.specs.Sheet.{sheet_of, quads_verdict};
ghost use Rattle.rule_sheet.specs.Lent.{is_large, is_short, is_short_work, lent_verdict, room_with, work_with};
ghost use Rattle.rule_sheet.specs.Lent.{before_verdict};
ghost use Rattle.rule_sheet.specs.Sheet.{sheet_verdict};
ghost use Rattle.sheet.specs.Sheet.{Few, masks_of, MasksIf, LentSheet, finite_at, bare_by};
ghost use Rattle.numeric.specs.Num.{zero_f};
ghost use Rattle.sheet.specs.Results.{cleared, HoldsCounts};
ghost use Rattle.rule_sheet.specs.Results.{shown_counts, Cleared};

use lists::Zero;
use rule_sheet::{Counts, Refusal, Tally};

// The most points, quads or labels of a sheet.
pub const LIMIT: usize = 1048576;

// 12: more than the limit.
pub fn is_large(c: Counts) -> bool
    ensures { result ≡ is_large c }
{
    (LIMIT < c.points) | (LIMIT < c.quads) | (LIMIT < c.labels)
}

// 13: slices of these lengths hold less than the counts say.
pub fn is_short(c: Counts, points: usize, quads: usize, labels: usize) -> bool
    requires { Few c }
    ensures { result ≡ is_short c (room_with points quads labels) }
{
    (points < 3 * c.points) | (quads < 4 * c.quads) | (labels < c.labels)
}

// 13, of a made sheet: more than slices of these lengths or the limit hold.
pub fn is_over(c: Counts, points: usize, quads: usize, labels: usize) -> bool
    ensures { result ≡ (is_large c || is_short c (room_with points quads labels)) }
{
    if is_large(c) {
        return true;
    }
    is_short(c, points, quads, labels)
}

// 13: too little work.
pub fn is_short_work(c: Counts, work: usize, floats: usize) -> bool
    requires { Few c }
    ensures { result ≡ is_short_work c (work_with work floats) }
{
    let n = c.points + c.quads;
    (work < 64 * n) | (floats < 16 * n)
}

// 12 and 13, of slices and work of these lengths.
pub fn lent(
    c: Counts,
    points: usize,
    quads: usize,
    labels: usize,
    work: usize,
    floats: usize,
) -> Result<(), Refusal>
    ensures { result ≡ lent_verdict c (room_with points quads labels) (work_with work floats) }
{
    if is_large(c) {
        return Err(Refusal::Large);
    }
    if is_short(c, points, quads, labels) {
        return Err(Refusal::Short);
    }
    if is_short_work(c, work, floats) {
        return Err(Refusal::Short);
    }
    Ok(())
}

// 12, then 13 where something else that a call is lent is too short.
pub fn before_verdict(c: Counts, too_short: bool) -> Result<(), Refusal>
    ensures { result ≡ before_verdict c too_short }
{
    if is_large(c) {
        return Err(Refusal::Large);
    }
    if too_short {
        return Err(Refusal::Short);
    }
    Ok(())
}

// Every coordinate of the first n points is finite.
pub fn finite_points(n: usize, points: &[f64]) -> bool
    requires { 3 * n ≤ length points.now }
    ensures { result ≡ every (finite_at points.now) n }
{
    for v in 0..n {
        if !points::finite(points::point_at(points, v)) {
            return false;
        }
    }
    true
}

// 5: nothing to work on, labels that do not fit, or a point that is not finite.
pub fn is_bare(c: Counts, points: &[f64]) -> bool
    requires { 3 * c.points ≤ length points.now }
    ensures { result ≡ bare_by c points.now }
{
    let finite = finite_points(c.points, points);
    (c.points == 0) | (c.quads == 0) | (c.labels != c.quads) | !finite
}

// 1 where a test holds, else 0.
pub fn one_if(test: bool) -> usize
    ensures { result ≡ num test }
{
    usize::from(test)
}

// All four are numbers of the n points.
fn in_range(n: usize, a: usize, b: usize, c: usize, d: usize) -> bool
    ensures { result ≡ in_range n (quad a b c d) }
{
    (a < n) & (b < n) & (c < n) & (d < n)
}

// No two of the four are equal.
fn distinct_corners(a: usize, b: usize, c: usize, d: usize) -> bool
    ensures { result ≡ distinct (quad a b c d) }
{
    (a != b) & (a != c) & (a != d) & (b != c) & (b != d) & (c != d)
}

// Corner j of quad q.
pub fn corner_at(quads: &[u32], q: usize, j: usize) -> usize
    requires { 4 * q + j < length quads.now }
    ensures { result ≡ corner quads.now q j }
{
    lists::at(quads, 4 * q + j)
}

// Quad q has a label of at most 7 and four different points as corners.
fn good_quad(n: usize, quads: &[u32], labels: &[u8], q: usize) -> bool
    requires q_in_bounds { 4 * q + 3 < length quads.now }
    requires q_in_bounds_2 { q < length labels.now }
    ensures { result ≡ good_quad_at n quads.now labels.now q }
{
    let l = lists::byte_at(labels, q);
    let a = corner_at(quads, q, 0);
    let b = corner_at(quads, q, 1);
    let c = corner_at(quads, q, 2);
    let d = corner_at(quads, q, 3);
    (l <= 7) & (in_range(n, a, b, c, d) & distinct_corners(a, b, c, d))
}

// Every quad is good.
fn good_quads(n: usize, nq: usize, quads: &[u32], labels: &[u8]) -> bool
    requires { Holds nq quads.now labels.now }
    ensures { result ≡ every (good_quad_at n quads.now labels.now) nq }
{
    for q in 0..nq {
        if !good_quad(n, quads, labels, q) {
            return false;
        }
    }
    true
}

// A mask with the bit of a label set.
fn with_bit(m: u32, label: u32) -> u32
    requires m_bound { m < 256 }
    requires label_bound { label ≤ 7 }
    ensures { result ≡ with_bit m label }
{
    let p = 1u32 << label;
    if (m / p) % 2 == 0 { m + p } else { m }
}

// A mask is not 0 and has no opposite pair.
pub fn good_mask(m: u32) -> bool
    ensures { result ≡ good_mask m }
{
    (m != 0) & (m % 4 != 3) & (m / 4 % 4 != 3) & (m / 16 % 4 != 3) & (m / 64 % 4 != 3)
}

// Every mask is good.
pub fn good_masks(masks: &[u32]) -> bool
    ensures { result ≡ every (good_mask_at masks.now) (length masks.now) }
{
    masks.iter().all(|m| good_mask(*m))
}

// Sets the bit of a label in the mask at v.
fn mark(masks: &mut [u32], v: usize, label: u32)
    requires v_in_bounds { v < length masks.old }
    requires v_bound { get_or masks.old v 0 < 256 }
    requires label_bound { label ≤ 7 }
    ensures { masks.new ≡ marked v label masks.old }
{
    masks[v] = with_bit(masks[v], label);
}

// Adds quad q to the masks of the quads before it.
fn mark_corners(quads: &[u32], labels: &[u8], q: usize, masks: &mut [u32])
    requires q_in_bounds { 4 * q + 3 < length quads.now }
    requires q_in_bounds_2 { q < length labels.now }
    requires q_value { good_quad_at (length masks.old) quads.now labels.now q ≡ true }
    requires masks_value { masks.old ≡ tabulate (mask_in quads.now labels.now q) (length masks.old) }
    ensures { masks.new ≡ tabulate (mask_in quads.now labels.now (q + 1))
        (length masks.old) }
{
    let l = lists::byte_at(labels, q);
    for j in 0..4 {
        mark(masks, corner_at(quads, q, j), l);
    }
}

// The masks of all points, in a slice of zeros.
pub fn mark_quads(nq: usize, quads: &[u32], labels: &[u8], masks: &mut [u32])
    requires holds { Holds nq quads.now labels.now }
    requires nq_value { every (good_quad_at (length masks.old) quads.now labels.now) nq ≡ true }
    requires masks_value { masks.old ≡ replicate (length masks.old) 0 }
    ensures { masks.new ≡ tabulate (mask_in quads.now labels.now nq)
        (length masks.old) }
{
    for q in 0..nq {
        mark_corners(quads, labels, q, masks);
    }
}

// 6 and 7, of nq quads and as many points as there are masks.
fn quads_tested(nq: usize, quads: &[u32], labels: &[u8], masks: &mut [u32]) -> Result<(), Refusal>
    requires { Holds nq quads.now labels.now }
    ensures value { result ≡ quads_verdict (length masks.old) (quads_of nq quads.now)
        (take nq labels.now) }
    ensures masks_if { MasksIf result (masks_of (length masks.old) (quads_of nq quads.now)
        (take nq labels.now)) masks.new }
{
    if good_quads(masks.len(), nq, quads, labels) {
        lists::clear(masks);
        mark_quads(nq, quads, labels, masks);
        if good_masks(masks) {
            return Ok(());
        }
        return Err(Refusal::Clash);
    }
    Err(Refusal::Corner)
}

// 5, 6 and 7, of a sheet that its slices hold; the masks of an accepted one go to the lent slice.
pub fn constraints(
    c: Counts,
    points: &[f64],
    quads: &[u32],
    labels: &[u8],
    masks: &mut [u32],
) -> Result<(), Refusal>
    requires lent_sheet { LentSheet c (length points.now) (length quads.now) (length labels.now) }
    requires masks_len { length masks.old ≡ c.points }
    ensures value { result ≡ sheet_verdict (sheet_of c points.now quads.now labels.now) }
    ensures masks_if { MasksIf result (masks_of c.points (quads_of c.quads quads.now)
        (take c.labels labels.now)) masks.new }
{
    if is_bare(c, points) {
        return Err(Refusal::Bare);
    }
    quads_tested(c.quads, quads, labels, masks)
}

// What an operation leaves behind: its answer, result slices with zeros behind the sheet, work slices of zeros.

// The counts of the sheet of an answer; a refusal shows none.
pub fn shown_counts(r: Result<Tally, Refusal>) -> Counts
    ensures { result ≡ shown_counts r }
{
    match r {
        Ok(t) => t.sheet,
        Err(_) => Counts {
            points: 0,
            quads: 0,
            labels: 0,
        },
    }
}

// Puts a quad at place i.
pub fn put_quad(quads: &mut [u32], i: usize, a: u32, b: u32, c: u32, d: u32)
    requires { 4 * i + 4 ≤ length quads.old }
    ensures { quads.new ≡ with_quad quads.old i (quad a b c d) }
{
    quads[4 * i] = a;
    quads[4 * i + 1] = b;
    quads[4 * i + 2] = c;
    quads[4 * i + 3] = d;
}

// Clears what lies behind the first n elements.
pub fn clear_behind<T: Zero>(n: usize, s: &mut [T])
    requires { n ≤ length s.old }
    ensures { s.new ≡ cleared T.ZERO n s.old }
{
    lists::clear(&mut s[n..]);
}

// Clears the result slices behind a sheet of these counts.
pub fn clear_unused(c: Counts, points: &mut [f64], quads: &mut [u32], labels: &mut [u8])
    requires { HoldsCounts c (length points.old) (length quads.old) (length labels.old) }
    ensures points_after { points.new ≡ cleared zero_f (3 * c.points) points.old }
    ensures quads_after { quads.new ≡ cleared 0 (4 * c.quads) quads.old }
    ensures labels_after { labels.new ≡ cleared 0 c.labels labels.old }
{
    clear_behind(3 * c.points, points);
    clear_behind(4 * c.quads, quads);
    clear_behind(c.labels, labels);
}

// Clears both work slices.
pub fn clear_work(work: &mut [u32], floats: &mut [f64])
    ensures { Cleared work.old floats.old work.new floats.new }
{
    lists::clear(work);
    lists::clear(floats);
}
