// The renumbering after a pass of merges: the quads that are still here, their labels, and the points in the order
// of their first use.

#![tactic(auto)]

ghost use Rattle.std.specs.Prelude.{◌≡◌, cond, ◌+◌, ◌*◌, ◌/◌, ◌<◌, ◌≤◌, eqb, length, get_or, set, take};
ghost use Rattle.lists.specs.Sort.{tabulate};
ghost use Rattle.lists.specs.Regions.{part, Out, Kept};
ghost use Rattle.points.specs.Points.{point_at};
ghost use Rattle.points.specs.Steps.{with_point};
ghost use Rattle.rule_sheet.specs.Sheet.{flat_points};
ghost use Rattle.sheet.specs.Results.{Front};
ghost use Rattle.coarsen_compact.specs.Compact.{compacted, Begins, Compacting, element_stays, packed};
ghost use Rattle.coarsen_compact.specs.Compact.{used_in, number_in, points_in, Meeting, Numbering};

use lists::Zero;
use rule_sheet::Counts;

// Moves element i of xs, which has SIZE elements a quad, to place k if its quad is still here; answers the place of the
// next one.
fn keep<T: Zero, const SIZE: usize>(
    i: usize,
    k: usize,
    removed: usize,
    w: &[u32],
    xs: &mut [T],
) -> usize
    requires size { 0 < SIZE }
    requires i_in_bounds { removed + i / SIZE < length w.now }
    requires i_in_bounds_2 { i < length xs.old }
    requires k_le_i { k ≤ i }
    ensures value { result ≡ cond (eqb (get_or w.now (removed + i / SIZE) 0) 0) (k + 1) k }
    ensures xs_after { xs.new ≡ cond (eqb (get_or w.now (removed + i / SIZE) 0) 0)
        (set xs.old k (get_or xs.old i T.ZERO)) xs.old }
{
    if w[removed + i / SIZE] != 0 {
        return k;
    }
    xs[k] = xs[i];
    k + 1
}

// The elements of the quads that are still here, SIZE a quad, in front; answers how many.
fn pack<T: Zero, const SIZE: usize>(nq: usize, removed: usize, w: &[u32], xs: &mut [T]) -> usize
    requires size { 0 < SIZE }
    requires nq_in_bounds { removed + nq ≤ length w.now }
    requires nq_in_bounds_2 { SIZE * nq ≤ length xs.old }
    ensures value { result ≡ length (packed (element_stays SIZE (part removed nq w.now)) T.ZERO xs.old (SIZE * nq)) }
    ensures front { Front (packed (element_stays SIZE (part removed nq w.now)) T.ZERO xs.old (SIZE * nq)) xs.new }
{
    let mut k = 0;
    for i in 0..SIZE * nq {
        k = keep::<T, SIZE>(i, k, removed, w, xs);
    }
    k
}

// Gives point v the next number, if it has none: one more than it is in the region at numbers, and the point in the
// floats. Answers how many points have one.
fn meet_point(
    np: usize,
    v: usize,
    used: usize,
    points: &[f64],
    numbers: usize,
    w: &mut [u32],
    floats: &mut [f64],
) -> usize
    requires { Meeting np (length points.now) v used numbers w.old (length floats.old) }
    ensures value { result ≡ cond (eqb (get_or w.old (numbers + v) 0) 0) (used + 1) used }
    ensures w_after { w.new ≡ cond (eqb (get_or w.old (numbers + v) 0) 0)
        (set w.old (numbers + v) (used + 1)) w.old }
    ensures floats_after { floats.new ≡ cond (eqb (get_or w.old (numbers + v) 0) 0)
        (with_point floats.old used (point_at points.now v)) floats.old }
{
    if w[numbers + v] != 0 {
        return used;
    }
    w[numbers + v] = (used + 1) as u32;
    points::put_point(floats, used, points::point_at(points, v));
    used + 1
}

// Numbers the points of the first m corners by their first use, and puts them to the floats in that order. Answers
// how many they are.
fn number_corners(
    np: usize,
    m: usize,
    points: &[f64],
    quads: &mut [u32],
    numbers: usize,
    w: &mut [u32],
    floats: &mut [f64],
) -> usize
    requires { Numbering np m (length points.now) quads.old numbers w.old (length floats.old) }
    ensures value { result ≡ length (used_in quads.old m) }
    ensures front { Front (tabulate (number_in quads.old m) m) quads.new }
    ensures front_2 { Front (flat_points (points_in points.now (used_in quads.old m)))
        floats.new }
    ensures kept { Kept (Out numbers np) w.old w.new }
{
    let mut used = 0;
    for c in 0..m {
        let v = quads[c] as usize;
        used = meet_point(np, v, used, points, numbers, w, floats);
        quads[c] = w[numbers + v] - 1;
    }
    used
}

// Leaves the sheet without the quads whose marks in the region at removed are not 0, its points renumbered by first
// use, in front of its slices. The region at numbers and the floats are work.
pub fn compact(
    np: usize,
    nq: usize,
    points: &mut [f64],
    quads: &mut [u32],
    labels: &mut [u8],
    removed: usize,
    numbers: usize,
    w: &mut [u32],
    floats: &mut [f64],
) -> Counts
    requires { Compacting np nq (length points.old) quads.old (length labels.old) removed numbers w.old
        (length floats.old) }
    ensures begins { Begins (compacted np nq points.old quads.old labels.old
        (part removed nq w.old)) result points.new quads.new labels.new }
    ensures kept { Kept (Out numbers np) w.old w.new }
{
    let kept = pack::<u8, 1>(nq, removed, w, labels);
    let m = pack::<u32, 4>(nq, removed, w, quads);
    lists::clear(&mut w[numbers..numbers + np]);
    let used = number_corners(np, m, points, quads, numbers, w, floats);
    let end = 3 * used;
    lists::copy(&mut points[..end], &floats[..end]);
    Counts {
        points: used,
        quads: kept,
        labels: kept,
    }
}
