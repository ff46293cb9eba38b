// The words of all rules: sheets, their counts and tests, outcomes; and the laws of these words. See specs/ and
// proofs/.

#![tactic(auto)]

ghost use Rattle.std.specs.Prelude.{◌≡◌};
ghost use Rattle.rule_sheet.specs.Numbers.{refusal_number};

// How many points, quads and labels a sheet has.
#[derive(Clone, Copy)]
pub struct Counts {
    pub points: usize,
    pub quads: usize,
    pub labels: usize,
}

// Why a test or an operation refuses, by the words that a setter reads.
#[derive(Clone, Copy, PartialEq, Eq)]
pub enum Refusal {
    Box,
    Bottomless,
    Cells,
    Samples,
    Bare,
    Corner,
    Clash,
    Edge,
    Astray,
    Row,
    Normal,
    Large,
    Short,
    Trailer,
    Sum,
}

impl Refusal {
    // The number that a setter reads.
    pub fn number(self) -> u32
        ensures { result ≡ refusal_number self }
    {
        match self {
            Refusal::Box => 1,
            Refusal::Bottomless => 2,
            Refusal::Cells => 3,
            Refusal::Samples => 4,
            Refusal::Bare => 5,
            Refusal::Corner => 6,
            Refusal::Clash => 7,
            Refusal::Edge => 8,
            Refusal::Astray => 9,
            Refusal::Row => 10,
            Refusal::Normal => 11,
            Refusal::Large => 12,
            Refusal::Short => 13,
            Refusal::Trailer => 14,
            Refusal::Sum => 17,
        }
    }
}

// What an operation did: the swaps or merges that it made, the bytes of a file that it saved, 0 of one that makes a
// sheet; and the counts of its sheet.
#[derive(Clone, Copy)]
pub struct Tally {
    pub count: usize,
    pub sheet: Counts,
}
