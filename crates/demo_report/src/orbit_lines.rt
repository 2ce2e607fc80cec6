// The lines of the orbits.
ghost use Rattle.std.specs.Prelude.{◌≡◌, ◌<◌, ◌++◌, List, IfOk, OnOk, Some, length, map, slice_get};
ghost use Rattle.std.specs.List.{enumerate_from};
ghost use Rattle.iso_text.specs.declared.sections.IrrepText.{IrrepText};
ghost use Rattle.report_steps.specs.IrrepSteps.{Each};
ghost use Rattle.mode_report.specs.Held.{HasSizeOf, told_of, told_in};
ghost use Rattle.demo_report.specs.DemoReport.{orbit_line};

use iso_text::{NoMemory, Text};
use mode_project::Modes;
use mode_report::{counts_text, push_orbit_head};
use std::alloc::Global;
use wyckoff::{Orbit, Orbits};

// Adds the line of an orbit under its number.
fn push_orbit(
    alloc: Global,
    text: &mut Text,
    number: u64,
    orbit: &Orbit,
    found: &Modes,
) -> Result<(), NoMemory>
    ensures { OnOk result ((irreps : List IrrepText) → text.new ≡ text.old ++ orbit_line (number, told_of irreps orbit.now found.now)) }
{
    let irrep = found.irrep_modes();
    let counts = counts_text(alloc, irrep, found.len() - irrep)?;
    push_orbit_head(
        text,
        number,
        orbit.label().as_slice(),
        orbit.atoms(),
        &counts,
    )
}

/// The line of orbit i under its number in the report, by its modes. Condition: there are modes for each
/// orbit. Errors: want of memory.
pub fn orbit_piece(
    alloc: Global,
    orbits: &Orbits,
    all: &[Modes],
    i: usize,
) -> Result<Text, NoMemory>
    requires held { Each HasSizeOf orbits.now all.now }
    requires orbit { i < length all.now }
    ensures { IfOk result (λ text. (irreps : List IrrepText) → slice_get (map orbit_line (enumerate_from 1 (told_in irreps orbits.now all.now))) i ≡ Some text) }
{
    let mut text = Text::new(alloc);
    push_orbit(alloc, &mut text, i as u64 + 1, orbits.get(i), &all[i])?;
    Ok(text)
}
