// Where the grid's edges cross the band. A crossing is found by 32 halvings of its edge; the decisions, one bit
// each, are its path, by which it is found again without a sample.

#![tactic(auto)]

ghost use Rattle.std.specs.Prelude.{◌≡◌};
ghost use Rattle.extract_crossings.specs.Crossings.{Near, replay_from, path_from};
ghost use Rattle.rule_extract.specs.Crossings.{next_site, edge_span, mid_of, keeps, narrowed, halvings};

use points::Point;
use rule_extract::{Grid, Site, Span};

// How often an edge is halved.
const HALVINGS: usize = 32;

// The next place along an axis.
pub fn next_site(c: Site, axis: usize) -> Site
    requires { Near c }
    ensures { result ≡ next_site c axis }
{
    let mut next = c;
    match axis {
        0 => next.x += 1,
        1 => next.y += 1,
        _ => next.z += 1,
    }
    next
}

// The edge from a place along an axis.
fn edge_span(g: Grid, c: Site, axis: usize) -> Span
    requires { Near c }
    ensures { result ≡ edge_span g c axis }
{
    let a = extract_samples::grid_point(g, c);
    let b = extract_samples::grid_point(g, next_site(c, axis));
    Span { a, b }
}

// The middle of a span.
fn mid(s: Span) -> Point
    ensures { result ≡ mid_of s }
{
    points::halfway(s.a, s.b)
}

// Whether the middle of a span is on the side of its first end, which is inside the band or not.
fn keeps_side(g: Grid, sign: bool, s: Span) -> bool
    ensures { result ≡ keeps g sign s }
{
    extract_samples::inside(g, mid(s)) == sign
}

// The half of a span that begins at its middle, or the one that ends there.
fn narrow(s: Span, keep: bool) -> Span
    ensures { result ≡ narrowed s keep }
{
    let a = s.a;
    let b = s.b;
    let m = mid(s);
    if keep {
        return Span { a: m, b };
    }
    Span { a, b: m }
}

// The path of the crossing on the edge from a place along an axis; sign tells whether the edge begins inside the band.
pub fn path(g: Grid, sign: bool, c: Site, axis: usize) -> u32
    requires { Near c }
    ensures { result ≡ path_from halvings g sign (edge_span g c axis) }
{
    let mut s = edge_span(g, c, axis);
    let mut path: u32 = 0;
    for i in 0..HALVINGS {
        let keep = keeps_side(g, sign, s);
        s = narrow(s, keep);
        path += u32::from(keep) << i;
    }
    path
}

// The crossing with this path on the edge from a place along an axis.
pub fn replay(g: Grid, c: Site, axis: usize, path: u32) -> Point
    requires { Near c }
    ensures { result ≡ replay_from halvings (edge_span g c axis) path }
{
    let mut s = edge_span(g, c, axis);
    let mut rest = path;
    for i in 0..HALVINGS {
        s = narrow(s, rest % 2 == 1);
        rest /= 2;
    }
    mid(s)
}
