//! What a place holds that has no cell of its own.
//! A further kind of cell is one more `impl`, where its type is declared.
ghost use Rattle.std.specs.Prelude.{◌≡◌, ℕ};

/// What is kept of a place.
pub trait Cell: Copy + Drop {
    /// What the place with a number holds where it has no cell of its own.
    ghost bare: { ℕ → Self };

    /// The same, as a value.
    fn bare(place: u32) -> Self
        ensures { result ≡ bare place };
}

impl Cell for u32 {
    ghost bare = { λ _. 0 };

    fn bare(_place: u32) -> u32 {
        0
    }
}
