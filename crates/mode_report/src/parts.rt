// Which piece of a report of modes is which.
ghost use Rattle.std.specs.Prelude.{◌≡◌, ◌++◌, IfOk, OnOk, map};
ghost use Rattle.std.specs.List.{range_with_len};
ghost use Rattle.mode_report.specs.Parts.{parts_of};
ghost use Rattle.mode_report.specs.declared.parts.Part.TheVariants as part;

use iso_text::NoMemory;
use report_steps::add;
use std::alloc::Global;

/// A piece of a report of modes: what stands in front of all orbits; the first lines of an orbit; or a
/// mode of an orbit. Orbits and modes are numbered from 0.
#[derive(Clone, Copy)]
pub enum Part {
    Front,
    Orbit(usize),
    Mode(usize, usize),
}

// Adds the modes of orbit i.
fn push_modes(parts: &mut Vec<Part>, i: usize, count: usize) -> Result<(), NoMemory>
    ensures { OnOk result (parts.new.items ≡ parts.old.items ++ map (λ m. part.Mode i m) (range_with_len 0 count)) }
{
    for m in 0..count {
        add(parts, Part::Mode(i, m))?;
    }
    Ok(())
}

/// The pieces of a report on orbits with so many modes.
pub(crate) fn parts_of(alloc: Global, counts: &[usize]) -> Result<Vec<Part>, NoMemory>
    ensures { IfOk result (λ parts. parts.items ≡ parts_of counts.now) }
{
    let mut parts: Vec<Part> = Vec::new(alloc);
    add(&mut parts, Part::Front)?;
    for i in 0..counts.len() {
        add(&mut parts, Part::Orbit(i))?;
        push_modes(&mut parts, i, counts[i])?;
    }
    Ok(parts)
}
