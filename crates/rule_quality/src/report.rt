// What `quality` answers.

ghost use Rattle.std.specs.Prelude.{◌≡◌};
ghost use Rattle.rule_quality.specs.Quality.{is_valid};

// The measures of a sheet.
#[derive(Clone, Copy)]
pub struct Quality {
    pub quads: usize,
    pub irregular_vertices: usize,
    pub boundary_edges: usize,
    pub nonmanifold_edges: usize,
    pub orientation_errors: usize,
    pub bad_vertex_links: usize,
    pub duplicate_faces: usize,
    pub minimum_shape: f64,
    pub shape_size_p05: f64,
    pub shape_size_mean: f64,
    pub minimum_sampled_jacobian: f64,
    pub invalid_cells: usize,
}

impl Quality {
    // Closed manifold connectivity and positive Jacobians.
    pub fn is_valid(self) -> bool
        ensures answer { result ≡ is_valid self }
    {
        (self.boundary_edges == 0)
            & (self.nonmanifold_edges == 0)
            & (self.orientation_errors == 0)
            & (self.bad_vertex_links == 0)
            & (self.duplicate_faces == 0)
            & (self.invalid_cells == 0)
            & numeric::is_finite(self.minimum_sampled_jacobian)
    }
}

// The measures, and beside them whether the sheet is tight.
#[derive(Clone, Copy)]
pub struct Assessment {
    pub quality: Quality,
    pub is_tight: bool,
}
