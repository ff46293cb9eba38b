// The operations that a record can ask, grouped by how they are asked.

use std::fmt;

// What makes a sheet of the lent one.
#[derive(Clone, Copy, PartialEq, Eq)]
pub enum Making {
    Refine,
    Subdivide,
    BoundaryRows,
}

// What alters the lent sheet.
#[derive(Clone, Copy, PartialEq, Eq)]
pub enum Altering {
    Regularize,
    ImproveLayout,
    Coarsen,
}

// What tells numbers of the lent sheet.
#[derive(Clone, Copy, PartialEq, Eq)]
pub enum Measuring {
    Quality,
    CornersPerPoint,
    Page,
}

// The functions at a point, and the tests of a band and of a sheet.
#[derive(Clone, Copy, PartialEq, Eq)]
pub enum Function {
    Project,
    Value,
    Gradient,
    Normal,
    Sqrt,
    Constraints,
    Validate,
}

// What writes a file of a job or reads one.
#[derive(Clone, Copy, PartialEq, Eq)]
pub enum Filing {
    Save,
    Open,
    Sum,
}

// An operation.
#[derive(Clone, Copy, PartialEq, Eq)]
pub enum Operation {
    Make(Making),
    Extract,
    Alter(Altering),
    Measure(Measuring),
    At(Function),
    File(Filing),
}

// A number that no operation has.
#[derive(Clone, Copy, PartialEq, Eq)]
pub struct UnknownOperation(pub u8);

// The function at a point, or the test, of a number.
fn function_of(number: u8) -> Result<Operation, UnknownOperation> {
    Ok(Operation::At(match number {
        9 => Function::Project,
        10 => Function::Value,
        11 => Function::Gradient,
        12 => Function::Normal,
        13 => Function::Sqrt,
        14 => Function::Constraints,
        15 => Function::Validate,
        _ => return Err(UnknownOperation(number)),
    }))
}

impl TryFrom<u8> for Operation {
    type Error = UnknownOperation;

    fn try_from(number: u8) -> Result<Operation, UnknownOperation> {
        Ok(match number {
            1 => Operation::Make(Making::Refine),
            2 => Operation::Make(Making::Subdivide),
            3 => Operation::Extract,
            4 => Operation::Alter(Altering::Regularize),
            5 => Operation::Alter(Altering::ImproveLayout),
            6 => Operation::Alter(Altering::Coarsen),
            7 => Operation::Make(Making::BoundaryRows),
            8 => Operation::Measure(Measuring::Quality),
            16 => Operation::Measure(Measuring::CornersPerPoint),
            17 => Operation::Measure(Measuring::Page),
            18 => Operation::File(Filing::Save),
            19 => Operation::File(Filing::Open),
            20 => Operation::File(Filing::Sum),
            _ => return function_of(number),
        })
    }
}

impl Function {
    // Its name.
    fn name(self) -> &'static str {
        match self {
            Function::Project => "project",
            Function::Value => "value",
            Function::Gradient => "gradient",
            Function::Normal => "normal",
            Function::Sqrt => "sqrt",
            Function::Constraints => "constraints",
            Function::Validate => "validate",
        }
    }
}

impl Operation {
    // Its name.
    fn name(self) -> &'static str {
        match self {
            Operation::Make(Making::Refine) => "refine",
            Operation::Make(Making::Subdivide) => "subdivide",
            Operation::Make(Making::BoundaryRows) => "boundary_rows",
            Operation::Extract => "extract_candidate",
            Operation::Alter(Altering::Regularize) => "regularize",
            Operation::Alter(Altering::ImproveLayout) => "improve_layout",
            Operation::Alter(Altering::Coarsen) => "coarsen",
            Operation::Measure(Measuring::Quality) => "quality",
            Operation::Measure(Measuring::CornersPerPoint) => "corners_per_point",
            Operation::Measure(Measuring::Page) => "page",
            Operation::At(function) => function.name(),
            Operation::File(Filing::Save) => "save",
            Operation::File(Filing::Open) => "open",
            Operation::File(Filing::Sum) => "sum",
        }
    }

    // Whether it takes a sheet and shows what it makes, measures or saves of it.
    pub fn takes_sheet(self) -> bool {
        match self {
            Operation::At(_) => false,
            Operation::File(filing) => filing == Filing::Save,
            _ => true,
        }
    }
}

impl fmt::Display for Operation {
    fn fmt<W: fmt::Write>(&self, f: &mut fmt::Formatter<W>) -> fmt::Result {
        f.write_str(self.name())
    }
}

impl fmt::Display for UnknownOperation {
    fn fmt<W: fmt::Write>(&self, f: &mut fmt::Formatter<W>) -> fmt::Result {
        f.write_str("unknown")
    }
}
