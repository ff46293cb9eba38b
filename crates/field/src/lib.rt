// A field is one of three kinds, each with its own numbers.

#![tactic(auto)]

ghost use Rattle.std.specs.Prelude.{◌≡◌};
ghost use Rattle.field.specs.Fields.{value_of, field_gradient_of};

use points::Point;

// The ten coefficients of a quadric.
#[derive(Clone, Copy)]
pub struct Coefficients {
    pub k0: f64,
    pub k1: f64,
    pub k2: f64,
    pub k3: f64,
    pub k4: f64,
    pub k5: f64,
    pub k6: f64,
    pub k7: f64,
    pub k8: f64,
    pub k9: f64,
}

// A plane (a, b, c, d), a ball (cx, cy, cz, r) or a quadric.
#[derive(Clone, Copy)]
pub enum Field {
    Plane(f64, f64, f64, f64),
    Ball(f64, f64, f64, f64),
    Quadric(Coefficients),
}

// The field's value at p.
pub fn value(f: Field, p: Point) -> f64
    ensures { result ≡ value_of f p }
{
    match f {
        Field::Plane(a, b, c, d) => a * p.x + b * p.y + c * p.z - d,
        Field::Ball(cx, cy, cz, r) => {
            let dx = p.x - cx;
            let dy = p.y - cy;
            let dz = p.z - cz;
            dx * dx + dy * dy + dz * dz - r
        }
        Field::Quadric(k) => {
            k.k0 * p.x * p.x
                + k.k1 * p.y * p.y
                + k.k2 * p.z * p.z
                + k.k3 * p.x * p.y
                + k.k4 * p.y * p.z
                + k.k5 * p.z * p.x
                + k.k6 * p.x
                + k.k7 * p.y
                + k.k8 * p.z
                + k.k9
        }
    }
}

// The gradient at p, if the field has one of its own.
pub fn gradient(f: Field, p: Point) -> Option<Point>
    ensures { result ≡ field_gradient_of f p }
{
    match f {
        Field::Plane(a, b, c, _) => Some(Point { x: a, y: b, z: c }),
        Field::Ball(cx, cy, cz, _) => Some(Point {
            x: 2.0 * (p.x - cx),
            y: 2.0 * (p.y - cy),
            z: 2.0 * (p.z - cz),
        }),
        Field::Quadric(_) => None,
    }
}
