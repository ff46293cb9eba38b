// `page`: the eight counts of a sheet as text, one to a line.

#![tactic(auto)]

ghost use Rattle.std.specs.Prelude.{◌≡◌, ◌++◌, ◌+◌, ◌*◌, ◌/◌, ◌^◌, ◌≤◌, length, take};
ghost use Rattle.setting.specs.Settings.{domain_of};
ghost use Rattle.rule_sheet.specs.Lent.{lent_of, work_of};
ghost use Rattle.rule_sheet.specs.Results.{Cleared};
ghost use Rattle.sheet.specs.Results.{Front};
ghost use Rattle.rule_page.specs.Page.{column_of, line_of, page_of, page_rule, Pages};
ghost use Rattle.page.specs.Steps.{byte_of, shown_of};

use band::Band;
use rule_quality::report::{Assessment, Quality};
use rule_sheet::{Counts, Refusal};

// How many bytes a page, a line, and the name in a line have.
pub const PAGE: usize = 328;

const LINE: usize = 41;

const NAME: usize = 24;

// A number without its last k digits.
fn without(n: usize, k: usize) -> usize
    ensures { result ≡ n / 10 ^ k }
{
    let mut rest = n;
    for _ in 0..k {
        rest /= 10;
    }
    rest
}

// The column of a count with k columns to its right.
fn column(n: usize, k: usize) -> u8
    ensures { result ≡ column_of n k }
{
    let rest = without(n, k);
    if (rest == 0) & (0 < k) {
        return b' ';
    }
    b'0' + (rest % 10) as u8
}

// Byte i of the line of a name and a count.
fn line_byte(name: &[u8], n: usize, i: usize) -> u8
    requires { length name.now ≤ 24 }
    ensures { result ≡ byte_of name.now n i }
{
    if i < name.len() {
        return name[i];
    }
    if i < NAME {
        return b' ';
    }
    if i < LINE - 1 {
        return column(n, LINE - 2 - i);
    }
    b'\n'
}

// Writes line j.
fn put_line(page: &mut [u8], j: usize, name: &[u8], n: usize)
    requires j_in_bounds { 41 * j + 41 ≤ length page.old }
    requires name_len_bound { length name.now ≤ 24 }
    ensures { Front (take (41 * j) page.old ++ line_of name.now n)
        page.new }
{
    for i in 0..LINE {
        page[LINE * j + i] = line_byte(name, n, i);
    }
}

// Writes the page of a record.
fn put_page(page: &mut [u8], q: Quality)
    requires { 328 ≤ length page.old }
    ensures { Front (page_of q) page.new }
{
    put_line(page, 0, b"quads", q.quads);
    put_line(page, 1, b"irregular", q.irregular_vertices);
    put_line(page, 2, b"boundary", q.boundary_edges);
    put_line(page, 3, b"nonmanifold", q.nonmanifold_edges);
    put_line(page, 4, b"orientation", q.orientation_errors);
    put_line(page, 5, b"links", q.bad_vertex_links);
    put_line(page, 6, b"duplicates", q.duplicate_faces);
    put_line(page, 7, b"invalid", q.invalid_cells);
}

// Shows what `quality` answers: the page and zeros behind it, or zeros.
fn show(page: &mut [u8], r: Result<Assessment, Refusal>) -> Result<(), Refusal>
    requires { 328 ≤ length page.old }
    ensures { Pages (shown_of r) (length page.old) result page.new }
{
    match r {
        Ok(a) => {
            put_page(page, a.quality);
            sheet::clear_behind(PAGE, page);
            Ok(())
        }
        Err(refusal) => {
            lists::clear(page);
            Err(refusal)
        }
    }
}

// The page of a sheet, or the first refusal.
pub fn page(
    b: Band,
    c: Counts,
    points: &[f64],
    quads: &[u32],
    labels: &[u8],
    work: &mut [u32],
    floats: &mut [f64],
    page: &mut [u8],
) -> Result<(), Refusal>
    ensures answer { let x = lent_of c points.now quads.now labels.now in
        let w = work_of work.old floats.old in
        let n = length page.old in
        Pages (page_rule (domain_of b) x w n) n result page.new }
    ensures cleared { Cleared work.old floats.old work.new
        floats.new }
{
    let tested = sheet::before_verdict(c, page.len() < PAGE);
    if let Err(refusal) = tested {
        sheet::clear_work(work, floats);
        lists::clear(page);
        return Err(refusal);
    }
    let r = quality::quality(b, c, points, quads, labels, work, floats);
    show(page, r)
}
