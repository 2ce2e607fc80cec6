// The trait of watchers.
ghost use Rattle.std.specs.Prelude.{◌≡◌, [], ◌∷◌, IfOk};
ghost use Rattle.iso_watch.specs.Watchers.{Watcher, after, is_enough, line_of};

use crate::Notice;
use iso_text::{NoMemory, Text};
use std::alloc::Global;

/// A watcher of a listing. How a notice changes its mark, which marks are enough and their texts are
/// definitions of the implementation, which no call changes.
pub trait Watch: Drop {
    /// The watcher as contracts see it: its mark and its definitions.
    ghost watcher: { Self → Watcher };

    /// Tells it of a direction: its mark takes a step.
    fn told(&mut self, notice: Notice)
        ensures { watcher self.new ≡ after (notice ∷ []) (watcher self.old) };

    /// Whether its mark is enough.
    fn enough(&self) -> bool
        ensures { result ≡ is_enough (watcher self.now) };

    /// The text of its mark, without a line feed.
    fn line(&self, alloc: Global) -> Result<Text, NoMemory>
        ensures { IfOk result (λ text. text ≡ line_of (watcher self.now)) };
}
