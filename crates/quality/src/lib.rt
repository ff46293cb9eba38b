// `quality`: the counts and measures of a sheet, and whether it is tight.

#![tactic(auto)]

ghost use Rattle.std.specs.Prelude.{◌≡◌, length};
ghost use Rattle.setting.specs.Settings.{domain_of};
ghost use Rattle.rule_sheet.specs.Flat.{quads_of};
ghost use Rattle.rule_sheet.specs.Sheet.{sheet_of};
ghost use Rattle.rule_sheet.specs.Lent.{lent_of, work_of};
ghost use Rattle.rule_sheet.specs.Results.{Cleared};
ghost use Rattle.edges.specs.Steps.{edge_counts};
ghost use Rattle.rule_quality.specs.Census.{duplicate_faces};
ghost use Rattle.rule_quality.specs.Measure.{measure_rule};
ghost use Rattle.rule_quality.specs.Quality.{assessment_of, with_counts, quality_rule, assessed_of};
ghost use Rattle.quality.specs.Quality.{point_counts, Countable, Measuring};

use band::Band;
use edges::EdgeCounts;
use rule_quality::Measures;
use rule_quality::report::{Assessment, Quality};
use rule_sheet::{Counts, Refusal};

// Where the regions of the counts begin in the work slice, in units of points and quads together. Where the corners of
// each point begin in their order, or those of each key in a sort.
const STARTS: usize = 0;

// Corners in an order.
const CORNERS: usize = 2;

// Where a sort works.
const WORK: usize = 6;

// How many quads each point has.
const VALENCES: usize = 10;

// How many joins each node of a link has.
const DEGREES: usize = 11;

// The sum of the points of the first two joins of each node of a link.
const SUMS: usize = 12;

// The points whose number of quads is not 4, and those whose link is bad.
#[derive(Clone, Copy)]
struct PointCounts {
    irregular: usize,
    bad_links: usize,
}

// The counts of points, by the quads at each.
fn count_points(np: usize, nq: usize, quads: &[u32], work: &mut [u32]) -> PointCounts
    requires { Countable np nq quads.now (length work.old) }
    ensures { result ≡ point_counts np (quads_of nq quads.now) }
{
    let n = np + nq;
    let starts = STARTS * n;
    let order = CORNERS * n;
    let valences = VALENCES * n;
    incidence::quads_at(np, nq, quads, WORK * n, starts, order, work);
    incidence::valences(np, nq, quads, starts, valences, work);
    let irregular = quality_counts::irregular_vertices(np, nq, quads, valences, work);
    let bad_links = quality_links::bad_links(
        np,
        nq,
        quads,
        starts,
        order,
        DEGREES * n,
        SUMS * n,
        work,
    );
    PointCounts {
        irregular,
        bad_links,
    }
}

// The counts of edges, by the corners in edge order.
fn count_edges(np: usize, nq: usize, quads: &[u32], work: &mut [u32]) -> EdgeCounts
    requires { Countable np nq quads.now (length work.old) }
    ensures { result ≡ edge_counts np (quads_of nq quads.now) }
{
    let n = np + nq;
    let order = CORNERS * n;
    incidence::edge_order(np, nq, quads, WORK * n, STARTS * n, order, work);
    edges::edge_counts(np, nq, quads, order, work)
}

// The quads whose corners an earlier quad has, by the order of the quads by their corners.
fn count_duplicates(np: usize, nq: usize, quads: &[u32], work: &mut [u32]) -> usize
    requires { Countable np nq quads.now (length work.old) }
    ensures { result ≡ duplicate_faces (quads_of nq quads.now) }
{
    let n = np + nq;
    let order = CORNERS * n;
    quality_counts::quad_order(np, nq, quads, order, STARTS * n, WORK * n, work);
    quality_counts::duplicate_faces(np, nq, quads, order, work)
}

// The record of a sheet with these measures, and whether it is tight.
fn with_counts(np: usize, nq: usize, quads: &[u32], m: Measures, work: &mut [u32]) -> Assessment
    requires { Countable np nq quads.now (length work.old) }
    ensures { result ≡ assessment_of np (quads_of nq quads.now) m }
{
    let points = count_points(np, nq, quads, work);
    let edges = count_edges(np, nq, quads, work);
    let duplicate_faces = count_duplicates(np, nq, quads, work);
    let quality = Quality {
        quads: nq,
        irregular_vertices: points.irregular,
        boundary_edges: edges.boundary,
        nonmanifold_edges: edges.nonmanifold,
        orientation_errors: edges.orientation,
        bad_vertex_links: points.bad_links,
        duplicate_faces,
        minimum_shape: m.minimum_shape,
        shape_size_p05: m.shape_size_p05,
        shape_size_mean: m.shape_size_mean,
        minimum_sampled_jacobian: m.minimum_sampled_jacobian,
        invalid_cells: m.invalid_cells,
    };
    Assessment {
        quality,
        is_tight: quality_counts::is_tight(edges, points.bad_links),
    }
}

// The measures of a sheet that the tests accept, and its counts if it has them.
fn assess(
    b: Band,
    c: Counts,
    points: &[f64],
    quads: &[u32],
    labels: &[u8],
    work: &mut [u32],
    floats: &mut [f64],
) -> Result<Assessment, Refusal>
    requires { Measuring c (length points.now) quads.now (length labels.now) (length work.old)
        (length floats.old) }
    ensures { result ≡ assessed_of (with_counts c.points (quads_of c.quads quads.now)
        (measure_rule (domain_of b) (sheet_of c points.now quads.now labels.now))) }
{
    let np = c.points;
    let nq = c.quads;
    let m = quality_measures::measure(b, c, points, quads, labels, 0, work, floats)?;
    Ok(with_counts(np, nq, quads, m, work))
}

// The answer; the work slices behind it may hold anything.
fn quality_or_refusal(
    b: Band,
    c: Counts,
    points: &[f64],
    quads: &[u32],
    labels: &[u8],
    work: &mut [u32],
    floats: &mut [f64],
) -> Result<Assessment, Refusal>
    ensures { result ≡ assessed_of (quality_rule (domain_of b) (lent_of c points.now quads.now
        labels.now) (work_of work.old floats.old)) }
{
    admission::measure_verdict(b, c, points, quads, labels, work, floats.len())?;
    assess(b, c, points, quads, labels, work, floats)
}

// The measures of a sheet and whether it is tight, or the first refusal.
pub fn quality(
    b: Band,
    c: Counts,
    points: &[f64],
    quads: &[u32],
    labels: &[u8],
    work: &mut [u32],
    floats: &mut [f64],
) -> Result<Assessment, Refusal>
    ensures answer { result ≡ assessed_of (quality_rule (domain_of b) (lent_of c points.now
        quads.now labels.now) (work_of work.old floats.old)) }
    ensures cleared { Cleared work.old floats.old work.new
        floats.new }
{
    let r = quality_or_refusal(b, c, points, quads, labels, work, floats);
    sheet::clear_work(work, floats);
    r
}
