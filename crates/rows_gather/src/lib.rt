// Which points are copied, the numbers of the copies, and the corners at which strips run. A point v and a label l have
// the key 8 v + l.

#![tactic(auto)]

ghost use Rattle.std.specs.Prelude.{◌≡◌, ◌+◌, ◌*◌, ◌<◌, ◌≤◌, length};
ghost use Rattle.lists.specs.Sort.{tabulate};
ghost use Rattle.lists.specs.Regions.{part, Part, Out, Apart, Kept};
ghost use Rattle.rule_sheet.specs.Lent.{limit};
ghost use Rattle.incidence.specs.Corners.{Cornered, edge_order};
ghost use Rattle.refine.specs.Loops.{order_at};
ghost use Rattle.rows_gather.specs.Steps.{copied_by, copied_in, number_in, masks_at, seams_at, seam_at, seams_of};
ghost use Rattle.rows_gather.specs.Steps.{counts_after, Worked, Seaming, Gathering};

use rule_sheet::Counts;

// Regions of the work slice, in units of points and quads together: behind the corners in the order of their edges
// stand the corners of each point behind where they begin, the masks, the numbers of the copies, and the corners at
// which strips run.
pub const STARTS: usize = 9;

pub const LIST: usize = 10;

pub const MASKS: usize = 14;

pub const NUMBERS: usize = 15;

pub const SEAMS: usize = 23;

// Whether a mask has two or more bits, bit l among them.
fn has_copy(m: u32, l: u32) -> bool
    requires { l < 8 }
    ensures { result ≡ copied_by m l }
{
    let p = 1u32 << l;
    let several = subdivide_points::ones(m) > 1;
    several & (m / p % 2 == 1)
}

// Whether the key k has a copy, by the masks at masks.
pub fn is_copied(np: usize, masks: usize, k: usize, w: &[u32]) -> bool
    requires k_bound { k < 8 * np }
    requires np_in_bounds { masks + np ≤ length w.now }
    ensures { result ≡ copied_in (part masks np w.now) k }
{
    has_copy(w[masks + k / 8], (k % 8) as u32)
}

// Numbers the copies of all keys behind np points; how many points there are then.
fn number_copies(np: usize, masks: usize, num: usize, w: &mut [u32]) -> usize
    requires np_le_limit { np ≤ limit }
    requires np_in_bounds { masks + np ≤ length w.old }
    requires np_in_bounds_2 { num + 8 * np ≤ length w.old }
    requires apart { Apart masks np num (8 * np) }
    ensures value { result ≡ number_in np (part masks np w.old) (8 * np) }
    ensures part { Part num (8 * np) (tabulate (number_in np (part masks np w.old)) (8 * np))
        w.new }
    ensures kept { Kept (Out num (8 * np)) w.old w.new }
{
    let mut next = np;
    for k in 0..8 * np {
        w[num + k] = next as u32;
        next += usize::from(is_copied(np, masks, k, w));
    }
    next
}

// Whether an edge of two quads with different labels begins at place i in the order of the edges.
fn is_seam(quads: &[u32], labels: &[u8], np: usize, nq: usize, i: usize, w: &[u32]) -> bool
    requires cornered { Cornered np nq quads.now }
    requires nq_in_bounds { nq ≤ length labels.now }
    requires part { Part (order_at np nq) (4 * nq) (edge_order np nq quads.now) w.now }
    requires i_bound { i < 4 * nq }
    ensures { result ≡ seam_at quads.now labels.now (4 * nq)
        (edge_order np nq quads.now) i }
{
    let order = refine::ORDER * (np + nq);
    if edges::is_pair(quads, order, 4 * nq, i, w) {
        let a = lists::byte_at(labels, lists::at(w, order + i) / 4);
        let b = lists::byte_at(labels, lists::at(w, order + (i + 1)) / 4);
        return a != b;
    }
    false
}

// Puts the two corners of the edge that begins at place i behind those found so far, if strips run there; how many
// there are then.
fn put_seam(
    quads: &[u32],
    labels: &[u8],
    np: usize,
    nq: usize,
    i: usize,
    next: usize,
    w: &mut [u32],
) -> usize
    requires seaming { Seaming np nq quads.now labels.now i next w.old }
    requires i_bound { i < 4 * nq }
    ensures seaming_2 { Seaming np nq quads.now labels.now (i + 1) result w.new }
    ensures kept { Kept (Out (seams_at np nq) (8 * nq)) w.old w.new }
{
    if is_seam(quads, labels, np, nq, i, w) {
        let n = np + nq;
        let order = refine::ORDER * n;
        let at = SEAMS * n;
        w[at + next] = w[order + i];
        w[at + (next + 1)] = w[order + (i + 1)];
        return next + 2;
    }
    next
}

// Lists the corners at which strips run; how many there are.
fn list_seams(quads: &[u32], labels: &[u8], np: usize, nq: usize, w: &mut [u32]) -> usize
    requires { Seaming np nq quads.now labels.now 0 0 w.old }
    ensures value { result ≡ length (seams_of np nq quads.now labels.now) }
    ensures part { Part (seams_at np nq) (length (seams_of np nq quads.now labels.now))
        (seams_of np nq quads.now labels.now) w.new }
    ensures kept { Kept (Out (seams_at np nq) (8 * nq)) w.old w.new }
{
    let mut next = 0;
    for i in 0..4 * nq {
        next = put_seam(quads, labels, np, nq, i, next, w);
    }
    next
}

// Gathers what the rows need of the sheet, in regions of the work slice; the counts of the sheet with rows.
pub fn gather(quads: &[u32], labels: &[u8], np: usize, nq: usize, w: &mut [u32]) -> Counts
    requires { Gathering np nq quads.now labels.now (part (masks_at np nq) np w.old) w.old }
    ensures value { result ≡ counts_after np nq quads.now labels.now
        (part (masks_at np nq) np w.old) }
    ensures worked { Worked np nq quads.now labels.now (part (masks_at np nq) np w.old)
        w.new }
{
    let n = np + nq;
    incidence::edge_order(np, nq, quads, n, 0, refine::ORDER * n, w);
    incidence::quads_at(np, nq, quads, n, STARTS * n, LIST * n, w);
    let points = number_copies(np, MASKS * n, NUMBERS * n, w);
    let strips = list_seams(quads, labels, np, nq, w);
    Counts {
        points,
        quads: nq + strips,
        labels: nq + strips,
    }
}
