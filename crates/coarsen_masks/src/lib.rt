// The test of two masks of labels whose points may become one.

#![tactic(auto)]

ghost use Rattle.std.specs.Prelude.{◌≡◌};
ghost use Rattle.coarsen_masks.specs.Masks.{no_opposite, part_of, masks_joined};

// Two masks together have no opposite pair.
fn no_opposite(a: u32, c: u32) -> bool
    ensures { result ≡ no_opposite a c }
{
    ((a % 2 + c % 2 == 0) | (a / 2 % 2 + c / 2 % 2 == 0))
        & ((a / 4 % 2 + c / 4 % 2 == 0) | (a / 8 % 2 + c / 8 % 2 == 0))
        & ((a / 16 % 2 + c / 16 % 2 == 0) | (a / 32 % 2 + c / 32 % 2 == 0))
        & ((a / 64 % 2 + c / 64 % 2 == 0) | (a / 128 % 2 + c / 128 % 2 == 0))
}

// Every bit of one mask is one of the other.
fn part_of(a: u32, c: u32) -> bool
    ensures { result ≡ part_of a c }
{
    (a % 2 <= c % 2)
        & (a / 2 % 2 <= c / 2 % 2)
        & (a / 4 % 2 <= c / 4 % 2)
        & (a / 8 % 2 <= c / 8 % 2)
        & (a / 16 % 2 <= c / 16 % 2)
        & (a / 32 % 2 <= c / 32 % 2)
        & (a / 64 % 2 <= c / 64 % 2)
        & (a / 128 % 2 <= c / 128 % 2)
}

// Two masks together have no opposite pair and are one of the two.
pub fn masks_join(a: u32, c: u32) -> bool
    ensures { result ≡ masks_joined a c }
{
    no_opposite(a, c) & (part_of(c, a) | part_of(a, c))
}
