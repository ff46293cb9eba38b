// The claim that a yes to tight means that demand 3 holds is about the code: the function is a call of `quality`, and
// its contract is what the claim knows of such a call.

#![tactic(auto)]

ghost use Rattle.rule_sheet.specs.Lent.{lent_of};
ghost use Rattle.safety_tight.specs.Tight.{Assesses};

use band::Band;
use rule_quality::report::Assessment;
use rule_sheet::{Counts, Refusal};

// A call of `quality`.
pub fn quality_call(
    b: Band,
    c: Counts,
    points: &[f64],
    quads: &[u32],
    labels: &[u8],
    work: &mut [u32],
    floats: &mut [f64],
) -> Result<Assessment, Refusal>
    ensures { Assesses (lent_of c points.now quads.now labels.now) result }
{
    quality::quality(b, c, points, quads, labels, work, floats)
}
