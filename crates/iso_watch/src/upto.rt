// A count of directions up to a limit.
ghost use Rattle.std.specs.Prelude.{◌≡◌};
ghost use Rattle.iso_watch.specs.Upto.{upto_of};

use crate::{Notice, Watch};
use iso_text::{NoMemory, Text};
use std::alloc::Global;
use std::marker::Model;

/// How many directions were told, and the limit from which on that is enough. Its line is `upto C of L`.
#[derive(Drop)]
pub struct Upto {
    count: u64,
    limit: u64,
}

impl Model for Upto {
    ghost use Rattle.iso_watch.specs.Upto.{UptoView};

    ghost Value = { UptoView };

    ghost view = { λ u. record { count = u.count; limit = u.limit } };
}

impl Upto {
    /// No direction told yet.
    pub fn new(limit: u64) -> Self
        ensures { result ≡ record { count = 0; limit = limit } }
    {
        Upto { count: 0, limit }
    }
}

impl Watch for Upto {
    ghost watcher = { λ u. upto_of u };

    /// It takes no memory. The greatest count stays.
    fn told(&mut self, notice: Notice) {
        let _ = notice;
        self.count = self.count.saturating_add(1);
    }

    fn enough(&self) -> bool {
        self.count >= self.limit
    }

    fn line(&self, alloc: Global) -> Result<Text, NoMemory> {
        let mut text = Text::new(alloc);
        text.push(b"upto ")?;
        text.push_number(self.count)?;
        text.push(b" of ")?;
        text.push_number(self.limit)?;
        Ok(text)
    }
}
