// A row of values.
ghost use Rattle.std.specs.Prelude.{◌≡◌};

use cyclo24::Field;
use std::marker::Model;

/// A row of field values, seen as their list.
#[derive(Drop)]
pub struct Row<F: Field> {
    entries: Vec<F>,
}

impl<F: Field> Model for Row<F> {
    ghost use Rattle.std.specs.Prelude.{List};

    ghost Value = { List F };

    ghost view = { λ r. r.entries.items };
}

impl<F: Field> Row<F> {
    /// The row of these entries. It takes no memory.
    pub fn from_vec(entries: Vec<F>) -> Row<F>
        ensures { result ≡ entries.items }
    {
        Row { entries }
    }

    /// The entries in order. It takes no memory.
    pub fn into_vec(self) -> Vec<F>
        ensures { result.items ≡ self }
    {
        self.entries
    }

    /// The entries in order.
    pub fn as_slice(&self) -> &[F]
        ensures { result.now ≡ self.now }
    {
        &self.entries
    }
}
