// The grid of extraction as numbered places: its samples in a slice, the signs at the corners of a cell and at the
// centres of its faces.

#![tactic(auto)]

ghost use Rattle.std.specs.Prelude.{◌≡◌, ◌+◌, ◌*◌, ◌≤◌, ◌<◌, length};
ghost use Rattle.lists.specs.Sort.{tabulate};
ghost use Rattle.lists.specs.Every.{every};
ghost use Rattle.rule_sheet.specs.Quads.{num, pack_to};
ghost use Rattle.extract_crossings.specs.Crossings.{Near};
ghost use Rattle.rule_extract.specs.Cells.{bit_of};
ghost use Rattle.extract_cells.specs.Cells.{kind_of};
ghost use Rattle.extract_grid.specs.Lattice.{Within, finite_in, CellIn, is_negative, pair_of, four_of, eight_of};
ghost use Rattle.extract_grid.specs.Lattice.{centre_bit};
ghost use Rattle.rule_extract.specs.Lattice.{site_at, index_of, sample_at, case_of, corner_site, edge_site, face_site};
ghost use Rattle.rule_extract.specs.Lattice.{centre_inside, cell_groups};

use rule_extract::{Grid, Site};

// ---- places

// The place with the number t in a grid of n places a side.
pub fn site_at(n: usize, t: usize) -> Site
    requires { 0 < n }
    ensures { result ≡ site_at n t }
{
    let q = t / n;
    Site {
        x: q / n,
        y: q % n,
        z: t % n,
    }
}

// The number of a place.
pub fn index_of(n: usize, c: Site) -> usize
    requires n_bound { n ≤ 131 }
    requires within { Within n c }
    ensures value { result ≡ index_of n c }
    ensures upper_bound { result < 2500000 }
{
    (c.x * n + c.y) * n + c.z
}

// The corner v of the cell that begins at c.
fn corner_site(c: Site, v: usize) -> Site
    requires { Near c }
    ensures { result ≡ corner_site c v }
{
    Site {
        x: c.x + v % 2,
        y: c.y + v / 2 % 2,
        z: c.z + v / 4 % 2,
    }
}

// Where an edge of a cell begins.
pub fn edge_site(c: Site, e: usize) -> Site
    requires near { Near c }
    requires e_bound { e < 12 }
    ensures { result ≡ edge_site c e }
{
    corner_site(c, extract_cells::low_end(e) as usize)
}

// ---- samples

// The sample at the place with the number t.
fn sample_at(g: Grid, m: usize, t: usize) -> f64
    requires { 0 < m }
    ensures { result ≡ sample_at g m t }
{
    extract_samples::sample(g, extract_samples::grid_point(g, site_at(m, t))).distance
}

// The samples of a grid of m places a side.
pub fn sample_grid(g: Grid, m: usize, s: &mut [f64])
    requires { 0 < m }
    ensures { s.new ≡ tabulate (sample_at g m) (length s.old) }
{
    for (t, sample) in s.iter_mut().enumerate() {
        *sample = sample_at(g, m, t);
    }
}

// Whether all samples are finite.
pub fn all_finite(s: &[f64]) -> bool
    ensures { result ≡ every (finite_in s.now) (length s.now) }
{
    for sample in s {
        if !numeric::is_finite(*sample) {
            return false;
        }
    }
    true
}

// ---- the signs at the corners of a cell

// 1 where a sample is negative.
fn negative(samples: &[f64], i: usize) -> u32
    requires { i < length samples.now }
    ensures value { result ≡ num (is_negative samples.now i) }
    ensures upper_bound { result ≤ 1 }
{
    u32::from(samples[i] < 0.0)
}

// The signs at t and at s behind it.
fn pair(samples: &[f64], s: usize, t: usize) -> u32
    requires { t + s < length samples.now }
    ensures value { result ≡ pair_of samples.now s t }
    ensures upper_bound { result < 4 }
{
    let a = negative(samples, t);
    let b = negative(samples, t + s);
    a + 2 * b
}

// The same and at m behind.
fn four(samples: &[f64], s: usize, m: usize, t: usize) -> u32
    requires { t + m + s < length samples.now }
    ensures value { result ≡ four_of samples.now s m t }
    ensures upper_bound { result < 16 }
{
    let a = pair(samples, s, t);
    let b = pair(samples, s, t + m);
    a + 4 * b
}

// The signs at the corners of the cell that begins at c.
pub fn case_at(samples: &[f64], m: usize, c: Site) -> u32
    requires { CellIn m c (length samples.now) }
    ensures { result ≡ eight_of samples.now (m * m) m (index_of m c) }
{
    let s = m * m;
    let t = index_of(m, c);
    let a = four(samples, s, m, t);
    let b = four(samples, s, m, t + 1);
    a + 16 * b
}

// ---- the signs at the centres of its faces

// Where a face of a cell begins.
fn face_site(c: Site, f: usize) -> Site
    requires { Near c }
    ensures { result ≡ face_site c f }
{
    if f % 2 == 0 {
        return c;
    }
    extract_crossings::next_site(c, f / 2)
}

// The sign at the centre of a face.
fn centre_inside(g: Grid, c: Site, f: usize) -> bool
    requires { Near c }
    ensures { result ≡ centre_inside g c f }
{
    extract_samples::inside(g, extract_samples::face_centre(g, face_site(c, f), f / 2))
}

// The same where the face has four crossings.
fn centre_bit(g: Grid, c: Site, kind: u32, f: usize) -> bool
    requires near { Near c }
    requires f_bound { f < 6 }
    ensures { result ≡ centre_bit g c kind f }
{
    extract_cells::bit(kind, 12 + f as u32) && centre_inside(g, c, f)
}

// The signs at the centres of faces with four crossings.
fn face_centres(g: Grid, c: Site, kind: u32) -> u32
    requires { Near c }
    ensures { result ≡ pack_to (centre_bit g c kind) 6 }
{
    let mut centres: u32 = 0;
    for f in 0..6 {
        centres += u32::from(centre_bit(g, c, kind, f)) << f;
    }
    centres
}

// The groups of the edges of a cell.
pub fn cell_groups(g: Grid, c: Site, case: u32, kind: u32) -> [u32; 12]
    requires near { Near c }
    requires case_value { case ≡ case_of g c }
    requires kind_value { kind ≡ kind_of (bit_of case) }
    ensures { result ≡ cell_groups g c }
{
    extract_cells::groups(case, kind, face_centres(g, c, kind))
}
