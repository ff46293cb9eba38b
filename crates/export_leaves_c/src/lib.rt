// The exports of the leaf functions to C, for tests that link them. A slice passes as its pointer and its length. Each
// calls the function of the crate export_leaves, and says what that says.

#![tactic(auto)]

ghost use Rattle.std.specs.Prelude.{◌≡◌, length};
ghost use Rattle.numeric.specs.Root.{sqrt_of};
ghost use Rattle.rule_exports.specs.Told.{told_of};
ghost use Rattle.export_leaves.specs.Answers.{point_of, value_at, of_band, gradient_at, normal_at};
ghost use Rattle.export_leaves.specs.Answers.{projection_at, ShowsPoint, band_number, filling};
ghost use Rattle.export_leaves.specs.Answers.{told_tests, ShowsMasks};

// The root.
#[unsafe(no_mangle)]
pub extern "C" fn leaf_sqrt(x: f64) -> f64
    ensures { result ≡ sqrt_of x }
{
    export_leaves::leaf_sqrt(x)
}

// The value of a field, NaN if it has fewer than ten numbers.
#[unsafe(no_mangle)]
pub extern "C" fn leaf_value(kind: u32, numbers: &[f64], x: f64, y: f64, z: f64) -> f64
    ensures { result ≡ value_at kind numbers.now x y z }
{
    export_leaves::leaf_value(kind, numbers, x, y, z)
}

// Writes the gradient of a band's field to out.
#[unsafe(no_mangle)]
pub extern "C" fn leaf_gradient(
    kind: u32,
    numbers: &[f64],
    bounds: &[f64],
    lower: f64,
    upper: f64,
    x: f64,
    y: f64,
    z: f64,
    out: &mut [f64],
) -> u32
    ensures { let t = told_of kind numbers.now bounds.now lower upper in
        ShowsPoint (of_band t (gradient_at (point_of x y z))) out.old result out.new }
{
    export_leaves::leaf_gradient(kind, numbers, bounds, lower, upper, x, y, z, out)
}

// Writes the normal of a label to out.
#[unsafe(no_mangle)]
pub extern "C" fn leaf_normal(
    kind: u32,
    numbers: &[f64],
    bounds: &[f64],
    lower: f64,
    upper: f64,
    x: f64,
    y: f64,
    z: f64,
    label: u8,
    out: &mut [f64],
) -> u32
    ensures { let t = told_of kind numbers.now bounds.now lower upper in
        ShowsPoint (of_band t (normal_at (point_of x y z) label)) out.old result out.new }
{
    export_leaves::leaf_normal(kind, numbers, bounds, lower, upper, x, y, z, label, out)
}

// Writes the projection by a mask to out.
#[unsafe(no_mangle)]
pub extern "C" fn leaf_project(
    kind: u32,
    numbers: &[f64],
    bounds: &[f64],
    lower: f64,
    upper: f64,
    x: f64,
    y: f64,
    z: f64,
    mask: u8,
    out: &mut [f64],
) -> u32
    ensures { let t = told_of kind numbers.now bounds.now lower upper in
        ShowsPoint (of_band t (projection_at (point_of x y z) mask)) out.old result out.new }
{
    export_leaves::leaf_project(kind, numbers, bounds, lower, upper, x, y, z, mask, out)
}

// Tests the levels, the bounds and the length of a band.
#[unsafe(no_mangle)]
pub extern "C" fn leaf_validate(
    kind: u32,
    numbers: &[f64],
    bounds: &[f64],
    lower: f64,
    upper: f64,
) -> u32
    ensures { result ≡ band_number (told_of kind numbers.now bounds.now lower upper) }
{
    export_leaves::leaf_validate(kind, numbers, bounds, lower, upper)
}

// Tests a sheet and its band.
#[unsafe(no_mangle)]
pub extern "C" fn leaf_constraints(
    points: &[f64],
    quads: &[u32],
    labels: &[u8],
    kind: u32,
    numbers: &[f64],
    bounds: &[f64],
    lower: f64,
    upper: f64,
    masks: &mut [u32],
) -> u32
    ensures { let t = told_of kind numbers.now bounds.now lower upper in
        let x = filling points.now quads.now labels.now in
        ShowsMasks (told_tests t x (length masks.old)) x result masks.new }
{
    export_leaves::leaf_constraints(
        points, quads, labels, kind, numbers, bounds, lower, upper, masks,
    )
}
