// What a cell of the grid draws, by the signs at its eight corners: which of its edges cross the band, and which
// crossings belong together.

#![tactic(auto)]

ghost use Rattle.std.specs.Prelude.{◌≡◌, ◌/◌, ◌%◌, ◌<◌, length, get_or, MatchOption};
ghost use Rattle.rule_extract.specs.Cells.{bit_of, low_end, high_end, crosses, edges_on, four_on, pair, is_end};
ghost use Rattle.rule_extract.specs.Cells.{shared_by};
ghost use Rattle.rule_extract.specs.Cells.{parted, renamed_of, merged, groups_of};
ghost use Rattle.extract_cells.specs.Cells.{kind_bit, kind_of, pair_at, joined_by, merged_if};

// The corners at the two ends of the twelve edges of a cell.
const EDGE_ENDS: [(u32, u32); 12] = [
    (0, 1),
    (4, 5),
    (2, 3),
    (6, 7),
    (0, 2),
    (1, 3),
    (4, 6),
    (5, 7),
    (0, 4),
    (2, 6),
    (1, 5),
    (3, 7),
];

// The four edges of each of the six faces.
const FACE_EDGES: [[usize; 4]; 6] = [
    [4, 6, 8, 9],
    [5, 7, 10, 11],
    [0, 1, 8, 10],
    [2, 3, 9, 11],
    [0, 2, 4, 5],
    [1, 3, 6, 7],
];

// The six pairs of four things.
const PAIRS: [(usize, usize); 6] = [(0, 1), (0, 2), (0, 3), (1, 2), (1, 3), (2, 3)];

// Bit i of a number.
pub fn bit(n: u32, i: u32) -> bool
    requires { i < 32 }
    ensures { result ≡ bit_of n i }
{
    (n >> i) % 2 == 1
}

// ---- edges

// The corner at which an edge begins.
pub fn low_end(e: usize) -> u32
    requires { e < 12 }
    ensures value { result ≡ low_end e }
    ensures upper_bound { result < 8 }
{
    EDGE_ENDS[e].0
}

// The corner at which an edge ends.
fn high_end(e: usize) -> u32
    requires { e < 12 }
    ensures value { result ≡ high_end e }
    ensures upper_bound { result < 8 }
{
    EDGE_ENDS[e].1
}

// Whether an edge crosses the band.
fn crosses_edge(case: u32, e: usize) -> bool
    requires { e < 12 }
    ensures { result ≡ crosses (bit_of case) e }
{
    bit(case, low_end(e)) != bit(case, high_end(e))
}

// Edge k of a face.
fn face_edge(f: usize, k: usize) -> usize
    requires f_bound { f < 6 }
    requires k_bound { k < 4 }
    ensures value { result ≡ get_or (edges_on f) k 0 }
    ensures upper_bound { result < 12 }
{
    FACE_EDGES[f][k]
}

// ---- the kind of a cell

// Whether all edges of a face cross.
fn four_crossings(case: u32, f: usize) -> bool
    requires { f < 6 }
    ensures { result ≡ four_on (bit_of case) f }
{
    let a = crosses_edge(case, face_edge(f, 0));
    let b = crosses_edge(case, face_edge(f, 1));
    let c = crosses_edge(case, face_edge(f, 2));
    let d = crosses_edge(case, face_edge(f, 3));
    a & b & c & d
}

// Bit i of the kind of a cell.
fn kind_bit(case: u32, i: usize) -> bool
    requires { i < 18 }
    ensures { result ≡ kind_bit (bit_of case) i }
{
    if i < 12 {
        return crosses_edge(case, i);
    }
    four_crossings(case, i - 12)
}

// The kind of a cell: bits 0 to 11 for the edges that cross, bits 12 to 17 for the faces with four crossings.
pub fn cell_kind(case: u32) -> u32
    ensures { result ≡ kind_of (bit_of case) }
{
    let mut kind: u32 = 0;
    for i in 0..18 {
        kind += u32::from(kind_bit(case, i)) << i;
    }
    kind
}

// ---- pairs of crossings

// The two edges of pair t % 6 of face t / 6.
fn pair_at(t: usize) -> (usize, usize)
    requires { t < 36 }
    ensures first { result.0 ≡ (pair_at t).first }
    ensures second { result.1 ≡ (pair_at t).second }
    ensures first_bound { result.0 < 12 }
    ensures second_bound { result.1 < 12 }
{
    let (first, second) = PAIRS[t % 6];
    (face_edge(t / 6, first), face_edge(t / 6, second))
}

// Whether a corner is an end of an edge.
fn is_end(v: u32, e: usize) -> bool
    requires { e < 12 }
    ensures { result ≡ is_end v e }
{
    (v == low_end(e)) | (v == high_end(e))
}

// The corner that two edges have in common.
fn shared(a: usize, b: usize) -> Option<u32>
    requires a_bound { a < 12 }
    requires b_bound { b < 12 }
    ensures { MatchOption result (shared_by a b ≡ 8) (λ v. (v ≡ shared_by a b) × (v < 8)) }
{
    let low = low_end(a);
    if is_end(low, b) {
        return Some(low);
    }
    let high = high_end(a);
    if is_end(high, b) {
        return Some(high);
    }
    None
}

// Whether two edges have a corner in common whose sign is not that of the centre.
fn is_parted(case: u32, centre: bool, a: usize, b: usize) -> bool
    requires a_bound { a < 12 }
    requires b_bound { b < 12 }
    ensures { result ≡ parted (bit_of case) centre (pair a b) }
{
    match shared(a, b) {
        Some(v) => bit(case, v) != centre,
        None => false,
    }
}

// Whether pair t, of the edges a and b, is joined.
fn joined(case: u32, kind: u32, centre: bool, t: usize, a: usize, b: usize) -> bool
    requires t_bound { t < 36 }
    requires a_bound { a < 12 }
    requires b_bound { b < 12 }
    requires pair_value { pair a b ≡ pair_at t }
    requires kind_value { kind ≡ kind_of (bit_of case) }
    ensures { result ≡ joined_by (bit_of case) centre (t / 6) (pair_at t) }
{
    let both = bit(kind, a as u32) & bit(kind, b as u32);
    let four = bit(kind, 12 + (t / 6) as u32);
    both & (!four | is_parted(case, centre, a, b))
}

// ---- groups

// A group's number, or `new` for `old`.
fn renamed(group: u32, old: u32, new: u32) -> u32
    ensures { result ≡ renamed_of old new group }
{
    if group == old { new } else { group }
}

// The group of crossing b is renamed to that of crossing a.
fn merge(groups: &mut [u32; 12], a: usize, b: usize)
    requires a_bound { a < 12 }
    requires b_bound { b < 12 }
    requires groups_len { length groups.old ≡ 12 }
    ensures { groups.new ≡ merged groups.old (pair a b) }
{
    let old = groups[b];
    let new = groups[a];
    for group in groups.iter_mut() {
        *group = renamed(*group, old, new);
    }
}

// Pair t is joined, if its face says so.
fn merge_if(case: u32, kind: u32, centre: bool, t: usize, groups: &mut [u32; 12])
    requires t_bound { t < 36 }
    requires kind_value { kind ≡ kind_of (bit_of case) }
    requires groups_len { length groups.old ≡ 12 }
    ensures { groups.new ≡ merged_if (joined_by (bit_of case) centre (t / 6)) groups.old
        (pair_at t) }
{
    let (a, b) = pair_at(t);
    if joined(case, kind, centre, t, a, b) {
        merge(groups, a, b);
    }
}

// The group of each edge of a cell, by the signs at its corners and at the centres of its faces.
pub fn groups(case: u32, kind: u32, centres: u32) -> [u32; 12]
    requires { kind ≡ kind_of (bit_of case) }
    ensures { result ≡ groups_of (bit_of case) (bit_of centres) }
{
    let mut groups = [0, 1, 2, 3, 4, 5, 6, 7, 8, 9, 10, 11];
    for t in 0..36 {
        let centre = bit(centres, (t / 6) as u32);
        merge_if(case, kind, centre, t, &mut groups);
    }
    groups
}
