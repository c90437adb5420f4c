//! What is looked through.
ghost use Rattle.std.specs.Prelude.{◌≡◌};

use crate::key::Key;

/// A row of a table, which has a key.
pub trait Keyed {
    type Key: Key;

    ghost label: { Self → Self.Key };

    /// The row's key.
    fn key(&self) -> Self::Key
        ensures { result ≡ label self.now };
}
