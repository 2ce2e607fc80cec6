// Laws over the definitions, as contracts of functions that do nothing.
ghost use Rattle.std.specs.Prelude.{◌≡◌, ◌≤◌, ℕ, List, length};
ghost use Rattle.demo_files.specs.Demo.{IsDemoFile};

use hall_symbol::law_of_symbols;
use iso_text::MAX_BYTES;
use space_ops::law_of_lists;

/// A number has one demo file, which is no longer than a file may be.
pub fn law_of_demo_files()
    ensures one { (number : ℕ) (s t : List ℕ) → IsDemoFile number s → IsDemoFile number t → s ≡ t }
    ensures short { (number : ℕ) (text : List ℕ) → IsDemoFile number text → length text ≤ MAX_BYTES }
{
    law_of_symbols();
    law_of_lists();
}
