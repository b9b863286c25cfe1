use std::marker::Brand;

/// Which board, which keeper of entries, which opening state and how many entries a control has. What is generic over a name speaks of one
/// control. A program calls it at `Brand`, and its proof picks there what the name means.
pub trait Named {
    ghost use Rattle.af_plane.specs.Names.{Name};

    ghost name: { Name };
}

impl Named for Brand {
    ghost use Rattle.af_plane.specs.Names.{no_name};

    ghost name = { no_name };
}
