// The limit of a path, which is that of the definitions.
ghost use Rattle.std.specs.Prelude.{◌≡◌};
ghost use Rattle.path_model.specs.PathText.{max_legs};

/// How many legs a path may have.
pub const MAX_LEGS: usize = 100;

/// It is the limit that the definitions have.
pub fn limit_is_defined()
    ensures { MAX_LEGS ≡ max_legs }
{}
