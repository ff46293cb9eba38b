// `page` after a test.

#![tactic(auto)]

ghost use Rattle.std.specs.Prelude.{length};
ghost use Rattle.setting.specs.Settings.{domain_of};
ghost use Rattle.rule_sheet.specs.Lent.{lent_of, work_of};
ghost use Rattle.rule_sheet.specs.Outcomes.{after_test};
ghost use Rattle.rule_sheet.specs.Results.{Cleared};
ghost use Rattle.rule_page.specs.Page.{page_rule, Pages};

use band::Band;
use rule_sheet::{Counts, Refusal};

// `page` after a test: its refusal, or the operation.
pub fn page_after(
    v: Result<(), Refusal>,
    b: Band,
    c: Counts,
    points: &[f64],
    quads: &[u32],
    labels: &[u8],
    work: &mut [u32],
    floats: &mut [f64],
    page: &mut [u8],
) -> Result<(), Refusal>
    ensures fact { let x = lent_of c points.now quads.now labels.now in
        let w = work_of work.old floats.old in
        let n = length page.old in
        Pages (after_test v (page_rule (domain_of b) x w n)) n result page.new }
    ensures cleared { Cleared work.old floats.old work.new floats.new }
{
    if let Err(refusal) = v {
        sheet::clear_work(work, floats);
        lists::clear(page);
        return Err(refusal);
    }
    page::page(b, c, points, quads, labels, work, floats, page)
}
