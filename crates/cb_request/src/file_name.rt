//! Names of files.
ghost use Rattle.std.specs.Prelude.{◌≡◌};

use std::marker::Model;

/// The name of a file, as a word of the command line gives it. Contracts see its bytes.
#[derive(Debug, Drop)]
pub struct FileName<'w>(pub(crate) &'w str);

impl<'w> Model for FileName<'w> {
    ghost use Rattle.std.specs.Prelude.{List, ℕ};

    ghost Value = { List ℕ };

    ghost view = { λ name. name.0.now };
}

impl<'w> FileName<'w> {
    /// The word.
    pub fn as_str(&self) -> &str
        ensures { result.now ≡ self.now }
    {
        self.0
    }
}
