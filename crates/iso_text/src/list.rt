// Lists that own their memory.
ghost use Rattle.std.specs.Prelude.{◌≡◌, ◌++◌, ◌∷◌, [], OnOk, OnErr};

use crate::NoMemory;
use std::marker::Model;

/// Lines of a file, numbers of a line, or other values in order, seen as their list.
#[derive(Drop)]
pub struct TextList<T> {
    held: Vec<T>,
}

impl<T> Model for TextList<T> {
    ghost use Rattle.std.specs.Prelude.{List};

    ghost Value = { List T };

    ghost view = { λ l. l.held.items };
}

impl<T> TextList<T> {
    /// The list of these. It takes no memory.
    pub fn from_vec(held: Vec<T>) -> Self
        ensures { result ≡ held.items }
    {
        TextList { held }
    }

    /// What it holds, given back. It takes no memory.
    pub fn into_vec(self) -> Vec<T>
        ensures { result.items ≡ self }
    {
        self.held
    }

    /// What it holds, in order.
    pub fn as_slice(&self) -> &[T]
        ensures { result.now ≡ self.now }
    {
        &self.held
    }

    /// Adds one at the end. Want of memory leaves the list as it was.
    pub fn push(&mut self, item: T) -> Result<(), NoMemory>
    where
        T: Drop,
        ensures ok { OnOk result (self.new ≡ self.old ++ item ∷ []) }
        ensures err { OnErr result (self.new ≡ self.old) }
    {
        match self.held.push(item) {
            Ok(()) => Ok(()),
            Err(_) => Err(NoMemory),
        }
    }
}

/// The numbers of elements of a group, as a stabiliser has them, seen as their list.
pub type Stab = TextList<usize>;
