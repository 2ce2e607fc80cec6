// The places of the atoms of an orbit.
ghost use Rattle.std.specs.Prelude.{◌≡◌, ◌++◌, IfOk, OnOk};
ghost use Rattle.mode_report.specs.ModesReport.{place_line, place_lines};

use iso_text::{NoMemory, Text};
use report_steps::place_text;
use std::alloc::Global;
use wyckoff::Orbit;

// The line of the place under this number.
fn place_line(alloc: Global, number: u64, place: &[i64; 3]) -> Result<Text, NoMemory>
    ensures { IfOk result (λ text. text ≡ place_line (number, place.now)) }
{
    let mut text = Text::new(alloc);
    text.push(b"place ")?;
    text.push_number(number)?;
    text.push(b" ")?;
    text.push(place_text(alloc, place)?.as_slice())?;
    text.push(b"\n")?;
    Ok(text)
}

/// Adds the lines of the places of an orbit's atoms, numbered from 1.
pub fn push_places(alloc: Global, text: &mut Text, orbit: &Orbit) -> Result<(), NoMemory>
    ensures { OnOk result (text.new ≡ text.old ++ place_lines orbit.now.places) }
{
    for i in 0..orbit.atoms() {
        let line = place_line(alloc, i as u64 + 1, &orbit.place(i))?;
        text.push(line.as_slice())?;
    }
    Ok(())
}
