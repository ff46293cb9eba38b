// The least, the mean and the value at a place of a list of floats, and how many of its elements are at most 1e-8.

#![tactic(auto)]

ghost use Rattle.std.specs.Prelude.{◌≡◌, ◌<◌, ◌≤◌, length};
ghost use Rattle.numeric.specs.Num.{floor_of};
ghost use Rattle.rule_sheet.specs.Lent.{limit};
ghost use Rattle.rule_quality.specs.Measure.{least_of, total_of, mean_of, invalid_of, fract_of, ceil_of};
ghost use Rattle.rule_quality.specs.Measure.{value_at_place};
ghost use Rattle.rule_quality.specs.Measure.{p05_of};

// The least element, from plus infinity on.
pub fn least(s: &[f64]) -> f64
    ensures { result ≡ least_of s.now }
{
    s.iter().fold(1.0 / 0.0, |w, x| numeric::min(w, *x))
}

// The sum in order, from -0.0 on.
fn total(s: &[f64]) -> f64
    ensures { result ≡ total_of s.now }
{
    s.iter().fold(-0.0, |w, x| w + *x)
}

// The sum over the count.
pub fn mean(s: &[f64]) -> f64
    ensures { result ≡ mean_of s.now }
{
    total(s) / numeric::float(s.len())
}

// How many elements are at most 1e-8.
pub fn invalid(s: &[f64]) -> usize
    ensures { result ≡ invalid_of s.now }
{
    s.iter().filter(|x| **x <= 1e-8).count()
}

// x without its whole part.
fn fract(x: f64) -> f64
    ensures { result ≡ fract_of x }
{
    x - numeric::float(numeric::floor(x) as usize)
}

// The whole number next above x, or x itself where it is whole.
fn ceil(x: f64) -> u64
    requires { floor_of x < limit }
    ensures { result ≡ ceil_of x }
{
    let lo = numeric::floor(x);
    if fract(x) > 0.0 {
        return lo + 1;
    }
    lo
}

// Between the elements on either side of the place x.
fn value_at_place(s: &[f64], x: f64) -> f64
    requires x_bound { floor_of x < limit }
    requires x_in_bounds { floor_of x < length s.now }
    requires x_in_bounds_2 { ceil_of x < length s.now }
    ensures { result ≡ value_at_place s.now x }
{
    let lo = numeric::floor(x) as usize;
    let hi = ceil(x) as usize;
    let t = fract(x);
    s[lo] * (1.0 - t) + s[hi] * t
}

// The value at a twentieth of the way from the first element to the last.
pub fn p05(s: &[f64]) -> f64
    requires s_nonzero { 0 < length s.now }
    requires s_len_bound { length s.now ≤ limit }
    ensures { result ≡ p05_of s.now }
{
    let last = s.len() - 1;
    value_at_place(s, 0.05 * numeric::float(last))
}
