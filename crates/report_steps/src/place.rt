// The texts of places.
ghost use Rattle.std.specs.Prelude.{◌≡◌, ◌<ℤ◌, pos, IfOk};
ghost use Rattle.report_steps.specs.Places.{ratio_text, edge_text, place_text};

use cyclo24::K24;
use iso_text::{NoMemory, Text, UNITS_PER_EDGE};
use std::alloc::Global;

// The text of n / d.
fn ratio_text(alloc: Global, n: i64, d: i64) -> Result<Text, NoMemory>
    requires { pos 0 <ℤ d }
    ensures { IfOk result (λ text. text ≡ ratio_text n d) }
{
    K24::ratio(n, d).print(alloc)
}

// A coordinate as a fraction of the cell edge.
fn edge_text(alloc: Global, units: i64) -> Result<Text, NoMemory>
    ensures { IfOk result (λ text. text ≡ edge_text units) }
{
    ratio_text(alloc, units, UNITS_PER_EDGE)
}

/// A place in units of 1/12,000,000 of the cell edges, as three fractions of the edges in lowest
/// terms.
pub fn place_text(alloc: Global, place: &[i64; 3]) -> Result<Text, NoMemory>
    ensures { IfOk result (λ text. text ≡ place_text place.now) }
{
    let mut text = edge_text(alloc, place[0])?;
    text.push(b" ")?;
    text.push(edge_text(alloc, place[1])?.as_slice())?;
    text.push(b" ")?;
    text.push(edge_text(alloc, place[2])?.as_slice())?;
    Ok(text)
}
