// The links of the points: the graph of a point's neighbours, in which each corner at the point joins the point before
// it to the point after it.

#![tactic(auto)]

ghost use Rattle.std.specs.Prelude.{◌≡◌, ℕ, ◌+◌, ◌<◌, eqb, length, get_or};
ghost use Rattle.rule_sheet.specs.Lent.{limit};
ghost use Rattle.lists.specs.Every.{every};
ghost use Rattle.lists.specs.Regions.{part, Out, Out2, Kept};
ghost use Rattle.rule_sheet.specs.Quads.{valence};
ghost use Rattle.sheet.specs.Flat.{before, to};
ghost use Rattle.rule_sheet.specs.Flat.{quads_of};
ghost use Rattle.incidence.specs.Corners.{Known};
ghost use Rattle.rule_quality.specs.Census.{connected, good_link, bad_links};
ghost use Rattle.quality_links.specs.Links.{degree_to, others_to, other_sum, registered, Registering, Joining};
ghost use Rattle.quality_links.specs.Links.{Joins, Unjoined, both_two, two_at, Walkable, OneLink};
ghost use Rattle.quality_links.specs.Links.{one_round, LinkRoom};

// The sum of the first two joins of a point that has d joins of the sum s, with a join to y.
fn other_sum(d: u32, s: u32, y: u32) -> u32
    requires s_lt_limit { d ≡ 1 → s < limit }
    requires y_lt_limit { y < limit }
    ensures { result ≡ other_sum d s y }
{
    match d {
        0 => y,
        1 => s + y,
        _ => s,
    }
}

// The point before corner c in its quad.
fn point_before(quads: &[u32], c: usize) -> usize
    requires { Known quads.now c }
    ensures { result ≡ before quads.now c }
{
    lists::at(quads, c / 4 * 4 + (c + 3) % 4)
}

// One more join of x, to y: its count at deg, and at acc the sum of the points of its first two joins.
fn register(deg: usize, acc: usize, x: usize, y: usize, w: &mut [u32])
    requires { Registering deg acc x y w.old }
    ensures { w.new ≡ registered deg acc x y w.old }
{
    let d = w[deg + x];
    let s = w[acc + x];
    w[acc + x] = other_sum(d, s, y as u32);
    w[deg + x] = d + 1;
}

// Registers the joins of the m corners at from.
fn join_all(np: usize, quads: &[u32], from: usize, m: usize, deg: usize, acc: usize, w: &mut [u32])
    requires joining { Joining np quads.now (part from m w.old) from m deg acc w.old }
    requires unjoined { Unjoined np deg w.old }
    ensures joins { Joins np (degree_to quads.now (part from m w.old) m)
        (others_to quads.now (part from m w.old) m) deg acc w.new }
    ensures kept { Kept (Out2 deg np acc np) w.old w.new }
{
    for j in 0..m {
        let c = lists::at(w, from + j);
        let p = point_before(quads, c);
        let n = edges::point_after(quads, c);
        register(deg, acc, p, n, w);
        register(deg, acc, n, p, w);
    }
}

// Both ends of corner c have two joins.
fn both_two(quads: &[u32], c: usize, deg: usize, w: &[u32]) -> bool
    requires known { Known quads.now c }
    requires c_in_bounds { deg + before quads.now c < length w.now }
    requires c_in_bounds_2 { deg + to quads.now c < length w.now }
    ensures { result ≡ both_two quads.now deg w.now c }
{
    let a = lists::at(w, deg + point_before(quads, c));
    let b = lists::at(w, deg + edges::point_after(quads, c));
    (a == 2) & (b == 2)
}

// Both ends of each of the m corners at from have two joins.
fn all_two(
    np: usize,
    quads: &[u32],
    from: usize,
    m: usize,
    deg: usize,
    acc: usize,
    w: &[u32],
) -> bool
    requires { Joining np quads.now (part from m w.now) from m deg acc w.now }
    ensures { result ≡ every (two_at quads.now deg w.now (part from m w.now)) m }
{
    for j in 0..m {
        if !both_two(quads, lists::at(w, from + j), deg, w) {
            return false;
        }
    }
    true
}

// Sets the counts of both ends of each of the m corners at from to 0.
fn clear_joins(
    np: usize,
    quads: &[u32],
    from: usize,
    m: usize,
    deg: usize,
    acc: usize,
    w: &mut [u32],
)
    requires joining { Joining np quads.now (part from m w.old) from m deg acc w.old }
    requires by_index { (x : ℕ) → x < np → get_or w.old (deg + x) 0 ≡ degree_to quads.now (part from m w.old) m x }
    ensures unjoined { Unjoined np deg w.new }
    ensures kept { Kept (Out deg np) w.old w.new }
{
    for j in 0..m {
        let c = lists::at(w, from + j);
        let p = point_before(quads, c);
        let n = edges::point_after(quads, c);
        w[deg + p] = 0;
        w[deg + n] = 0;
    }
}

// How many corners at v a walk from u by way of first passes until it is at u again.
fn round_length(
    np: usize,
    nq: usize,
    quads: &[u32],
    v: usize,
    acc: usize,
    u: usize,
    first: usize,
    w: &[u32],
) -> usize
    requires { Walkable np nq quads.now v acc u first w.now }
    ensures { eqb result (valence (quads_of nq quads.now) v) ≡
        connected np (quads_of nq quads.now) v }
{
    let mut last = u;
    let mut x = first;
    let mut count = 1;
    while x != u {
        let next = lists::at(w, acc + x) - last;
        last = x;
        x = next;
        count += 1;
    }
    count
}

// The link of v, of the m corners at from, is one round.
fn is_round(
    np: usize,
    nq: usize,
    quads: &[u32],
    v: usize,
    from: usize,
    m: usize,
    deg: usize,
    acc: usize,
    w: &[u32],
) -> bool
    requires { OneLink np nq quads.now v from m deg acc w.now }
    ensures { result ≡ one_round np (quads_of nq quads.now) v }
{
    if !all_two(np, quads, from, m, deg, acc, w) {
        return false;
    }
    let c = lists::at(w, from);
    let p = point_before(quads, c);
    let n = edges::point_after(quads, c);
    round_length(np, nq, quads, v, acc, p, n, w) == m
}

// The link of v is good. The counts at deg are 0 before and after; the sums at acc are work.
fn is_good_link(
    np: usize,
    nq: usize,
    quads: &[u32],
    v: usize,
    starts: usize,
    order: usize,
    deg: usize,
    acc: usize,
    w: &mut [u32],
) -> bool
    requires link_room { LinkRoom np nq quads.now starts order deg acc w.old }
    requires unjoined { Unjoined np deg w.old }
    requires v_lt_np { v < np }
    ensures value { result ≡ good_link np (quads_of nq quads.now) v }
    ensures unjoined_2 { Unjoined np deg w.new }
    ensures kept { Kept (Out2 deg np acc np) w.old w.new }
{
    let s = lists::at(w, starts + v);
    let m = lists::at(w, starts + v + 1) - s;
    if m == 0 {
        return false;
    }
    join_all(np, quads, order + s, m, deg, acc, w);
    let r = is_round(np, nq, quads, v, order + s, m, deg, acc, w);
    clear_joins(np, quads, order + s, m, deg, acc, w);
    r
}

// Counts the points whose link is empty, not connected, or has a node of another degree than 2, from the corners by
// point, at order. The regions at deg and acc are work.
pub fn bad_links(
    np: usize,
    nq: usize,
    quads: &[u32],
    starts: usize,
    order: usize,
    deg: usize,
    acc: usize,
    w: &mut [u32],
) -> usize
    requires { LinkRoom np nq quads.now starts order deg acc w.old }
    ensures value { result ≡ bad_links np (quads_of nq quads.now) }
    ensures kept { Kept (Out2 deg np acc np) w.old w.new }
{
    lists::clear(&mut w[deg..deg + np]);
    let mut count = 0;
    for v in 0..np {
        count += usize::from(!is_good_link(np, nq, quads, v, starts, order, deg, acc, w));
    }
    count
}
