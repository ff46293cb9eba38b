// `quality` after a test, and what its export shows of its answer.

#![tactic(auto)]

ghost use Rattle.std.specs.Prelude.{◌≡◌, cond, ◌||◌, ◌≤◌, ltb, length};
ghost use Rattle.setting.specs.Settings.{domain_of};
ghost use Rattle.rule_sheet.specs.Quads.{num};
ghost use Rattle.rule_sheet.specs.Lent.{lent_of, work_of};
ghost use Rattle.rule_sheet.specs.Outcomes.{after_test};
ghost use Rattle.rule_sheet.specs.Results.{Cleared};
ghost use Rattle.rule_quality.specs.Quality.{quality_rule, assessed_of};
ghost use Rattle.rule_exports.specs.Measured.{quality_counts, quality_measures, counts_shown, measures_shown, fronted};
ghost use Rattle.rule_exports.specs.Measured.{is_short_counts, is_short_measures, ShowsMeasures};
ghost use Rattle.export_quality.specs.Steps.{no_quality};

use band::Band;
use rule_quality::report::{Assessment, Quality};
use rule_sheet::{Counts, Refusal};

// How many elements the slices of counts and of measures have.
const ANSWERS: usize = 10;

const MEASURES: usize = 4;

// Writes the counts of a record, tight and valid.
fn put_counts(answer: &mut [u64], q: Quality, tight: bool, valid: bool)
    requires { 10 ≤ length answer.old }
    ensures { answer.new ≡ fronted (quality_counts q (num tight) (num valid)) answer.old }
{
    answer[..ANSWERS].copy_from_slice(&[
        q.quads as u64,
        q.irregular_vertices as u64,
        q.boundary_edges as u64,
        q.nonmanifold_edges as u64,
        q.orientation_errors as u64,
        q.bad_vertex_links as u64,
        q.duplicate_faces as u64,
        q.invalid_cells as u64,
        u64::from(tight),
        u64::from(valid),
    ]);
}

// Writes the measures of a record.
fn put_measures(measures: &mut [f64], q: Quality)
    requires { 4 ≤ length measures.old }
    ensures { measures.new ≡ fronted (quality_measures q) measures.old }
{
    measures[..MEASURES].copy_from_slice(&[
        q.minimum_shape,
        q.shape_size_p05,
        q.shape_size_mean,
        q.minimum_sampled_jacobian,
    ]);
}

// The record of zeros, which a refusal shows.
fn no_quality() -> Quality
    ensures { result ≡ no_quality }
{
    Quality {
        quads: 0,
        irregular_vertices: 0,
        boundary_edges: 0,
        nonmanifold_edges: 0,
        orientation_errors: 0,
        bad_vertex_links: 0,
        duplicate_faces: 0,
        minimum_shape: 0.0,
        shape_size_p05: 0.0,
        shape_size_mean: 0.0,
        minimum_sampled_jacobian: 0.0,
        invalid_cells: 0,
    }
}

// Shows the counts of an answer; a slice that is too short stays as it came.
fn show_counts(answer: &mut [u64], r: Result<Assessment, Refusal>)
    ensures { answer.new ≡ cond (is_short_counts answer.old) answer.old
        (fronted (counts_shown r) answer.old) }
{
    if answer.len() < ANSWERS {
        return;
    }
    match r {
        Ok(a) => put_counts(answer, a.quality, a.is_tight, a.quality.is_valid()),
        Err(_) => put_counts(answer, no_quality(), false, false),
    }
}

// Shows its measures; a slice that is too short stays as it came.
fn show_measures(measures: &mut [f64], r: Result<Assessment, Refusal>)
    ensures { measures.new ≡ cond (is_short_measures measures.old) measures.old
        (fronted (measures_shown r) measures.old) }
{
    if measures.len() < MEASURES {
        return;
    }
    match r {
        Ok(a) => put_measures(measures, a.quality),
        Err(_) => put_measures(measures, no_quality()),
    }
}

// A slice of counts or of measures is too short.
pub fn is_short(answers: usize, measures: usize) -> bool
    ensures { result ≡ (ltb answers 10 || ltb measures 4) }
{
    (answers < ANSWERS) | (measures < MEASURES)
}

// Shows an answer: its number, its counts and its measures; a slice that is too short stays as it came.
pub fn put_assessed(answer: &mut [u64], measures: &mut [f64], r: Result<Assessment, Refusal>) -> u32
    ensures { ShowsMeasures r answer.old measures.old result answer.new
        measures.new }
{
    show_counts(answer, r);
    show_measures(measures, r);
    export_band::answer_number(r)
}

// `quality` after a test: its refusal, or the operation.
pub fn quality_after(
    v: Result<(), Refusal>,
    b: Band,
    c: Counts,
    points: &[f64],
    quads: &[u32],
    labels: &[u8],
    work: &mut [u32],
    floats: &mut [f64],
) -> Result<Assessment, Refusal>
    ensures result_value { let x = lent_of c points.now quads.now labels.now in
        result ≡ assessed_of (after_test v (quality_rule (domain_of b) x (work_of work.old
        floats.old))) }
    ensures cleared { Cleared work.old floats.old work.new floats.new }
{
    if let Err(refusal) = v {
        sheet::clear_work(work, floats);
        return Err(refusal);
    }
    quality::quality(b, c, points, quads, labels, work, floats)
}
