// The counts of directions by their dimension.
ghost use Rattle.std.specs.Prelude.{◌≡◌, ◌++◌, ◌<◌, ℕ, List, OnOk, pos, replicate};
ghost use Rattle.iso_watch.specs.Tally.{tally_of, count_words};

use crate::{Notice, Watch};
use iso_text::{NoMemory, Text};
use std::alloc::Global;
use std::marker::Model;

/// The greatest dimension that is counted, and one.
const DIMENSIONS: usize = 25;

/// How many directions of each dimension from 0 to 24 were told. It never has enough; its line is
/// `tally` and then ` d:c` for each dimension d with a count c above 0, rising.
#[derive(Drop)]
pub struct Tally {
    counts: [u64; DIMENSIONS],
}

impl Model for Tally {
    ghost use Rattle.std.specs.Prelude.{ℕ, List};

    ghost Value = { List ℕ };

    ghost view = { λ t. t.counts };
}

impl Tally {
    /// No direction told yet.
    pub fn new() -> Self
        ensures { result ≡ replicate 25 0 }
    {
        Tally {
            counts: [0; DIMENSIONS],
        }
    }
}

// Adds a dimension with its count, where that is above 0.
fn push_count(text: &mut Text, dim: usize, count: u64) -> Result<(), NoMemory>
    ensures { OnOk result (text.new ≡ text.old ++ count_words (dim, pos count)) }
{
    if count > 0 {
        text.push(b" ")?;
        text.push_number(dim as u64)?;
        text.push(b":")?;
        text.push_number(count)?;
    }
    Ok(())
}

impl Watch for Tally {
    ghost watcher = { λ t. tally_of t };

    /// It takes no memory. A dimension above 24 changes nothing; the greatest count stays.
    fn told(&mut self, notice: Notice) {
        let dim = usize::from(notice.dim);
        if dim < DIMENSIONS {
            self.counts[dim] = self.counts[dim].saturating_add(1);
        }
    }

    fn enough(&self) -> bool {
        false
    }

    fn line(&self, alloc: Global) -> Result<Text, NoMemory> {
        let mut text = Text::new(alloc);
        text.push(b"tally")?;
        for dim in 0..DIMENSIONS {
            push_count(&mut text, dim, self.counts[dim])?;
        }
        Ok(text)
    }
}
