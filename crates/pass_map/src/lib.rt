// The start of a pass: the quads, their corners by edge and by point, and their valences, in regions of one work slice.

#![tactic(auto)]

ghost use Rattle.std.specs.Prelude.{◌≡◌, ◌<◌};
ghost use Rattle.rule_sheet.specs.Quads.{is_edge};
ghost use Rattle.pass_map.specs.Regions.{start_in};
ghost use Rattle.pass_map.specs.Conditions.{MapAsks, MapHolds, MapLeaves};

// Where the regions begin in the work slice, in units of all points and quads together. The quads of the pass's start.
pub const WAS: usize = 1;

// Where the sorts work.
pub const WORK: usize = 5;

// Where the corners of each smaller point begin in the order of the edges, and the corners in that order.
pub const EDGE_STARTS: usize = 9;

pub const EDGES: usize = 11;

// Where the corners of each point begin in the order of the points, and the corners in that order.
pub const POINT_STARTS: usize = 15;

pub const POINTS: usize = 17;

// The valences.
pub const VALENCES: usize = 21;

// The quads of a sheet, their corners by edge and by point, and how many quads each point has.
pub fn map_sheet(np: usize, nq: usize, quads: &[u32], w: &mut [u32])
    requires { MapAsks np nq quads.now w.old }
    ensures { MapLeaves np nq quads.now w.old w.new }
{
    let n = np + nq;
    let work = WORK * n;
    let starts = POINT_STARTS * n;
    edges::copy_quads(nq, quads, WAS * n, w);
    edges::edge_map(np, nq, quads, work, EDGE_STARTS * n, EDGES * n, w);
    incidence::quads_at(np, nq, quads, work, starts, POINTS * n, w);
    incidence::valences(np, nq, quads, starts, VALENCES * n, w);
}

// Whether u and v are an edge of the pass's start.
pub fn is_edge(np: usize, nq: usize, u: usize, v: usize, w: &[u32]) -> bool
    requires map_holds { MapHolds np nq w.now }
    requires u_lt_np { u < np }
    requires v_lt_np { v < np }
    ensures { result ≡ is_edge (start_in np nq w.now) u v }
{
    let n = np + nq;
    edges::is_edge(np, nq, WAS * n, EDGE_STARTS * n, EDGES * n, u, v, w)
}
