// The public face: every operation under its name; the crate quads_c exports each to C and Rust. A function that takes
// a band is told it as a kind, numbers, bounds and levels; the answer slice takes the count of swaps or merges, or of
// the bytes of a saved file, and the counts of the sheet, or what is said at the function.

#![tactic(auto)]

ghost use Rattle.std.specs.Prelude.{◌≡◌, false, ◌||◌, length, replicate};
ghost use Rattle.rule_sheet.specs.Lent.{lent_of, room_of, work_of};
ghost use Rattle.rule_sheet.specs.Results.{Cleared};
ghost use Rattle.rule_regularize.specs.Rule.{regularize_rule, improve_rule};
ghost use Rattle.rule_coarsen.specs.Rule.{coarsen_rule};
ghost use Rattle.rule_finer.specs.Finer.{refine_rule};
ghost use Rattle.rule_finer.specs.Subdivide.{subdivide_rule};
ghost use Rattle.rule_rows.specs.Rows.{rows_rule};
ghost use Rattle.rule_quality.specs.Quality.{quality_rule, assessed_of};
ghost use Rattle.rule_corners.specs.Corners.{corners_rule, divided_of};
ghost use Rattle.rule_page.specs.Page.{page_rule};
ghost use Rattle.rule_extract.specs.Drawing.{extract_rule};
ghost use Rattle.rule_job.specs.Files.{job_of};
ghost use Rattle.rule_job.specs.Jobs.{job_room_of, save_rule, sum_rule};
ghost use Rattle.rule_exports.specs.Told.{told_of, by_told, drawn_by_told};
ghost use Rattle.rule_exports.specs.Exports.{is_short_answer, with_answer, ExportMakes, ExportAlters};
ghost use Rattle.rule_exports.specs.Exports.{ExportAltersQuads};
ghost use Rattle.rule_exports.specs.Measured.{is_short_counts, is_short_measures, ShowsMeasures};
ghost use Rattle.rule_exports.specs.Divided.{is_short_ratio, ShowsRatio};
ghost use Rattle.rule_exports.specs.Paged.{ShowsPage};
ghost use Rattle.rule_exports.specs.Jobs.{ExportSaves, open_by, ExportOpens, is_short_sum, ShowsSum};

use rule_sheet::Counts;

// `extract_candidate`: the counts of the drawn sheet go to answer[1..4], answer[0] is 0.
pub fn quads_extract_candidate(
    kind: u32,
    numbers: &[f64],
    bounds: &[f64],
    lower: f64,
    upper: f64,
    cells: usize,
    new_points: &mut [f64],
    new_quads: &mut [u32],
    new_labels: &mut [u8],
    work: &mut [u32],
    floats: &mut [f64],
    answer: &mut [u64],
) -> u32
    ensures sheet { let t = told_of kind numbers.now bounds.now lower upper in
        let room = room_of new_points.old new_quads.old new_labels.old in
        let w = work_of work.old floats.old in
        let l = answer.old in
        ExportMakes (drawn_by_told (is_short_answer l) t w (λ s v. extract_rule s cells v room)) room l result
        new_points.new new_quads.new
        new_labels.new answer.new }
    ensures cleared { Cleared work.old floats.old work.new
        floats.new }
{
    let v = export_band::band_verdict(numbers.len(), bounds.len());
    let b = export_band::band_of(kind, numbers, bounds, lower, upper);
    let r = export_extract::extract_after(
        v,
        answer.len() < export_band::ANSWERS,
        b,
        cells,
        new_points,
        new_quads,
        new_labels,
        work,
        floats,
    );
    export_band::put_answer(answer, r)
}

// `refine`: the counts of the finer sheet go to answer[1..4], answer[0] is 0.
pub fn quads_refine(
    points: &[f64],
    quads: &[u32],
    labels: &[u8],
    np: usize,
    nq: usize,
    nl: usize,
    new_points: &mut [f64],
    new_quads: &mut [u32],
    new_labels: &mut [u8],
    work: &mut [u32],
    floats: &mut [f64],
    answer: &mut [u64],
) -> u32
    ensures sheet { let x = lent_of (record { points = np; quads = nq; labels = nl }) points.now quads.now
        labels.now in
        let room = room_of new_points.old new_quads.old new_labels.old in
        let w = work_of work.old floats.old in
        let l = answer.old in
        ExportMakes (with_answer x.counts l (refine_rule x w room)) room l result
        new_points.new new_quads.new
        new_labels.new answer.new }
    ensures cleared { Cleared work.old floats.old work.new
        floats.new }
{
    let c = Counts {
        points: np,
        quads: nq,
        labels: nl,
    };
    let v = export_band::answer_verdict(c, answer.len());
    let r = export_finer::refine_after(
        v, c, points, quads, labels, new_points, new_quads, new_labels, work, floats,
    );
    export_band::put_answer(answer, r)
}

// `subdivide`: the counts of the smooth sheet go to answer[1..4], answer[0] is 0.
pub fn quads_subdivide(
    points: &[f64],
    quads: &[u32],
    labels: &[u8],
    np: usize,
    nq: usize,
    nl: usize,
    kind: u32,
    numbers: &[f64],
    bounds: &[f64],
    lower: f64,
    upper: f64,
    new_points: &mut [f64],
    new_quads: &mut [u32],
    new_labels: &mut [u8],
    work: &mut [u32],
    floats: &mut [f64],
    answer: &mut [u64],
) -> u32
    ensures sheet { let x = lent_of (record { points = np; quads = nq; labels = nl }) points.now quads.now
        labels.now in
        let t = told_of kind numbers.now bounds.now lower upper in
        let room = room_of new_points.old new_quads.old new_labels.old in
        let w = work_of work.old floats.old in
        let l = answer.old in
        ExportMakes (by_told x.counts (is_short_answer l) t (λ s. subdivide_rule s x w room)) room l result
        new_points.new new_quads.new
        new_labels.new answer.new }
    ensures cleared { Cleared work.old floats.old work.new
        floats.new }
{
    let c = Counts {
        points: np,
        quads: nq,
        labels: nl,
    };
    let v = export_band::told_verdict(
        c,
        answer.len() < export_band::ANSWERS,
        numbers.len(),
        bounds.len(),
    );
    let b = export_band::band_of(kind, numbers, bounds, lower, upper);
    let r = export_finer::subdivide_after(
        v, b, c, points, quads, labels, new_points, new_quads, new_labels, work, floats,
    );
    export_band::put_answer(answer, r)
}

// `boundary_rows`: the counts of the sheet with rows go to answer[1..4], answer[0] is 0.
pub fn quads_boundary_rows(
    points: &[f64],
    quads: &[u32],
    labels: &[u8],
    np: usize,
    nq: usize,
    nl: usize,
    kind: u32,
    numbers: &[f64],
    bounds: &[f64],
    lower: f64,
    upper: f64,
    new_points: &mut [f64],
    new_quads: &mut [u32],
    new_labels: &mut [u8],
    work: &mut [u32],
    floats: &mut [f64],
    answer: &mut [u64],
) -> u32
    ensures sheet { let x = lent_of (record { points = np; quads = nq; labels = nl }) points.now quads.now
        labels.now in
        let t = told_of kind numbers.now bounds.now lower upper in
        let room = room_of new_points.old new_quads.old new_labels.old in
        let w = work_of work.old floats.old in
        let l = answer.old in
        ExportMakes (by_told x.counts (is_short_answer l) t (λ s. rows_rule s x w room)) room l result
        new_points.new new_quads.new
        new_labels.new answer.new }
    ensures cleared { Cleared work.old floats.old work.new
        floats.new }
{
    let c = Counts {
        points: np,
        quads: nq,
        labels: nl,
    };
    let v = export_band::told_verdict(
        c,
        answer.len() < export_band::ANSWERS,
        numbers.len(),
        bounds.len(),
    );
    let b = export_band::band_of(kind, numbers, bounds, lower, upper);
    let r = export_finer::rows_after(
        v, b, c, points, quads, labels, new_points, new_quads, new_labels, work, floats,
    );
    export_band::put_answer(answer, r)
}

// `quality`: the eight counts in the record's order, tight and valid go to answer[..10], the four measures to
// measures[..4].
pub fn quads_quality(
    points: &[f64],
    quads: &[u32],
    labels: &[u8],
    np: usize,
    nq: usize,
    nl: usize,
    kind: u32,
    numbers: &[f64],
    bounds: &[f64],
    lower: f64,
    upper: f64,
    work: &mut [u32],
    floats: &mut [f64],
    answer: &mut [u64],
    measures: &mut [f64],
) -> u32
    ensures answer { let x = lent_of (record { points = np; quads = nq; labels = nl }) points.now quads.now
        labels.now in
        let t = told_of kind numbers.now bounds.now lower upper in
        let w = work_of work.old floats.old in
        let few = is_short_counts answer.old || is_short_measures measures.old in
        ShowsMeasures (assessed_of (by_told x.counts few t (λ s. quality_rule s x w))) answer.old
        measures.old result answer.new measures.new }
    ensures cleared { Cleared work.old floats.old work.new
        floats.new }
{
    let c = Counts {
        points: np,
        quads: nq,
        labels: nl,
    };
    let few = export_quality::is_short(answer.len(), measures.len());
    let v = export_band::told_verdict(c, few, numbers.len(), bounds.len());
    let b = export_band::band_of(kind, numbers, bounds, lower, upper);
    let r = export_quality::quality_after(v, b, c, points, quads, labels, work, floats);
    export_quality::put_assessed(answer, measures, r)
}

// `corners_per_point`: the quotient goes to answer[0], the remainder to answer[1].
pub fn quads_corners_per_point(
    points: &[f64],
    quads: &[u32],
    labels: &[u8],
    np: usize,
    nq: usize,
    nl: usize,
    kind: u32,
    numbers: &[f64],
    bounds: &[f64],
    lower: f64,
    upper: f64,
    work: &mut [u32],
    floats: &mut [f64],
    answer: &mut [u64],
) -> u32
    ensures answer { let x = lent_of (record { points = np; quads = nq; labels = nl }) points.now quads.now
        labels.now in
        let t = told_of kind numbers.now bounds.now lower upper in
        let w = work_of work.old floats.old in
        let l = answer.old in
        ShowsRatio (divided_of (by_told x.counts (is_short_ratio l) t (λ s. corners_rule s x w))) l result
        answer.new }
    ensures cleared { Cleared work.old floats.old work.new
        floats.new }
{
    let c = Counts {
        points: np,
        quads: nq,
        labels: nl,
    };
    let few = answer.len() < export_corners::ANSWERS;
    let v = export_band::told_verdict(c, few, numbers.len(), bounds.len());
    let b = export_band::band_of(kind, numbers, bounds, lower, upper);
    let r = export_corners::corners_after(v, b, c, points, quads, labels, work, floats);
    export_corners::put_divided(answer, r)
}

// `regularize`: the swaps go to answer[0], the counts of the sheet to answer[1..4].
pub fn quads_regularize(
    points: &[f64],
    quads: &mut [u32],
    labels: &[u8],
    np: usize,
    nq: usize,
    nl: usize,
    kind: u32,
    numbers: &[f64],
    bounds: &[f64],
    lower: f64,
    upper: f64,
    passes: usize,
    work: &mut [u32],
    floats: &mut [f64],
    answer: &mut [u64],
) -> u32
    ensures sheet { let x = lent_of (record { points = np; quads = nq; labels = nl }) points.now quads.old
        labels.now in
        let t = told_of kind numbers.now bounds.now lower upper in
        let w = work_of work.old floats.old in
        let l = answer.old in
        ExportAltersQuads (by_told x.counts (is_short_answer l) t (λ s. regularize_rule s passes x w)) x l result
        quads.new answer.new }
    ensures cleared { Cleared work.old floats.old work.new
        floats.new }
{
    let c = Counts {
        points: np,
        quads: nq,
        labels: nl,
    };
    let v = export_band::told_verdict(
        c,
        answer.len() < export_band::ANSWERS,
        numbers.len(),
        bounds.len(),
    );
    let b = export_band::band_of(kind, numbers, bounds, lower, upper);
    let r = export_cleanup::regularize_after(v, b, passes, c, points, quads, labels, work, floats);
    export_band::put_answer(answer, r)
}

// `improve_layout`: the swaps go to answer[0], the counts of the sheet to answer[1..4].
pub fn quads_improve_layout(
    points: &[f64],
    quads: &mut [u32],
    labels: &[u8],
    np: usize,
    nq: usize,
    nl: usize,
    kind: u32,
    numbers: &[f64],
    bounds: &[f64],
    lower: f64,
    upper: f64,
    passes: usize,
    work: &mut [u32],
    floats: &mut [f64],
    answer: &mut [u64],
) -> u32
    ensures sheet { let x = lent_of (record { points = np; quads = nq; labels = nl }) points.now quads.old
        labels.now in
        let t = told_of kind numbers.now bounds.now lower upper in
        let w = work_of work.old floats.old in
        let l = answer.old in
        ExportAltersQuads (by_told x.counts (is_short_answer l) t (λ s. improve_rule s passes x w)) x l result
        quads.new answer.new }
    ensures cleared { Cleared work.old floats.old work.new
        floats.new }
{
    let c = Counts {
        points: np,
        quads: nq,
        labels: nl,
    };
    let v = export_band::told_verdict(
        c,
        answer.len() < export_band::ANSWERS,
        numbers.len(),
        bounds.len(),
    );
    let b = export_band::band_of(kind, numbers, bounds, lower, upper);
    let r = export_cleanup::improve_after(v, b, passes, c, points, quads, labels, work, floats);
    export_band::put_answer(answer, r)
}

// `coarsen`: the merges go to answer[0], the counts of the sheet that is left to answer[1..4].
pub fn quads_coarsen(
    points: &mut [f64],
    quads: &mut [u32],
    labels: &mut [u8],
    np: usize,
    nq: usize,
    nl: usize,
    kind: u32,
    numbers: &[f64],
    bounds: &[f64],
    lower: f64,
    upper: f64,
    passes: usize,
    work: &mut [u32],
    floats: &mut [f64],
    answer: &mut [u64],
) -> u32
    ensures sheet { let x = lent_of (record { points = np; quads = nq; labels = nl }) points.old quads.old
        labels.old in
        let t = told_of kind numbers.now bounds.now lower upper in
        let w = work_of work.old floats.old in
        let l = answer.old in
        ExportAlters (by_told x.counts (is_short_answer l) t (λ s. coarsen_rule s passes x w)) x l result
        points.new quads.new labels.new answer.new }
    ensures cleared { Cleared work.old floats.old work.new
        floats.new }
{
    let c = Counts {
        points: np,
        quads: nq,
        labels: nl,
    };
    let v = export_band::told_verdict(
        c,
        answer.len() < export_band::ANSWERS,
        numbers.len(),
        bounds.len(),
    );
    let b = export_band::band_of(kind, numbers, bounds, lower, upper);
    let r = export_cleanup::coarsen_after(v, b, passes, c, points, quads, labels, work, floats);
    export_band::put_answer(answer, r)
}

// `page`: the page goes to the slice of that name, zeros behind its 328 bytes; all zeros after a refusal.
pub fn quads_page(
    points: &[f64],
    quads: &[u32],
    labels: &[u8],
    np: usize,
    nq: usize,
    nl: usize,
    kind: u32,
    numbers: &[f64],
    bounds: &[f64],
    lower: f64,
    upper: f64,
    work: &mut [u32],
    floats: &mut [f64],
    page: &mut [u8],
) -> u32
    ensures answer { let x = lent_of (record { points = np; quads = nq; labels = nl }) points.now quads.now
        labels.now in
        let t = told_of kind numbers.now bounds.now lower upper in
        let w = work_of work.old floats.old in
        let n = length page.old in
        ShowsPage (by_told x.counts false t (λ s. page_rule s x w n)) n result page.new }
    ensures cleared { Cleared work.old floats.old work.new
        floats.new }
{
    let c = Counts {
        points: np,
        quads: nq,
        labels: nl,
    };
    let v = export_band::told_verdict(c, false, numbers.len(), bounds.len());
    let b = export_band::band_of(kind, numbers, bounds, lower, upper);
    let r = export_page::page_after(v, b, c, points, quads, labels, work, floats, page);
    export_band::answer_number(r)
}

// `save`: answer[0] is how many bytes the file has, answer[1..4] are the counts. Header and points are f64 elsewhere;
// here they pass as their 64 bits.
pub fn quads_save_job(
    header: &[u64],
    points: &[u64],
    quads: &[u32],
    labels: &[u8],
    np: usize,
    nq: usize,
    nl: usize,
    work: &mut [u32],
    file: &mut [u8],
    answer: &mut [u64],
) -> u32
    ensures answer { let x = job_of (record { points = np; quads = nq; labels = nl }) header.now points.now
        quads.now labels.now in
        let w = length work.old in
        let m = length file.old in
        let l = answer.old in
        ExportSaves (with_answer x.counts l (save_rule x w m)) m l result file.new answer.new }
    ensures cleared { work.new ≡ replicate (length work.old) 0 }
{
    let c = Counts {
        points: np,
        quads: nq,
        labels: nl,
    };
    let before = export_band::answer_verdict(c, answer.len());
    let r = export_job::save_after(before, header, points, quads, labels, c, work, file);
    export_band::put_answer(answer, r)
}

// `open`: the counts go to answer[1..4], answer[0] is 0. Header and points as in `quads_save_job`.
pub fn quads_open_job(
    file: &[u8],
    header: &mut [u64],
    new_points: &mut [u64],
    new_quads: &mut [u32],
    new_labels: &mut [u8],
    work: &mut [u32],
    answer: &mut [u64],
) -> u32
    ensures answer { let room = job_room_of header.old new_points.old new_quads.old
        new_labels.old work.old in
        let l = answer.old in
        ExportOpens (open_by file.now room l) room l result header.new new_points.new
        new_quads.new new_labels.new answer.new }
    ensures cleared { work.new ≡ replicate (length work.old) 0 }
{
    let few = answer.len() < export_band::ANSWERS;
    let r = export_job::open_after(few, file, header, new_points, new_quads, new_labels, work);
    export_band::put_answer(answer, r)
}

// The squared sum that a job file says, without opening it: answer[0] is 1 where one is written, answer[1] is the sum.
pub fn quads_job_sum(file: &[u8], answer: &mut [u64]) -> u32
    ensures { let l = answer.old in
        ShowsSum (sum_rule file.now (is_short_sum l)) l result answer.new }
{
    export_job::sum_told(file, answer)
}
