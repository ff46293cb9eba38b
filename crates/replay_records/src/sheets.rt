// The sizes of a sheet.
ghost use Rattle.std.specs.Prelude.{◌≡◌, true, IfSome};
ghost use Rattle.replay_records.specs.Sizes.{Small, Finer};

// The most points, quads or labels of a lent sheet that is taken.
const MOST: usize = 64;

// The most points and quads of a finer sheet that are compared.
const MOST_POINTS: u64 = 384;

const MOST_QUADS: u64 = 256;

// How many points, quads and labels a sheet has.
#[derive(Clone, Copy, PartialEq, Eq)]
pub struct Sizes {
    pub points: usize,
    pub quads: usize,
    pub labels: usize,
}

// Whether a lent sheet of these sizes is taken.
pub fn is_small(n: Sizes) -> bool
    ensures { result ≡ true → Small n }
{
    n.points <= MOST && n.quads <= MOST && n.labels <= MOST
}

// The counts of an answer, if they are few enough to be compared.
pub fn finer(points: u64, quads: u64, labels: u64) -> Option<Sizes>
    ensures { IfSome result Finer }
{
    if MOST_POINTS < points || MOST_QUADS < quads || MOST_QUADS < labels {
        return None;
    }
    Some(Sizes {
        points: points as usize,
        quads: quads as usize,
        labels: labels as usize,
    })
}
