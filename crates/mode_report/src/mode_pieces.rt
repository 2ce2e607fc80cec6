// The pieces of the report of all modes of an orbit.
ghost use Rattle.std.specs.Prelude.{ℕ, List, ◌≡◌, ◌<◌, ◌≤◌, ◌+◌, ◌-◌, ◌*◌, [], IfOk, Some, codes, length, slice_get, slice_index_or};
ghost use Rattle.cyclo24.specs.ExactK24.{Exact24, k24_laws};
ghost use Rattle.iso_text.specs.declared.sections.IrrepText.{IrrepText as Irrep};
ghost use Rattle.lin_alg.specs.Equations.{unit_vector};
ghost use Rattle.mode_project.specs.ModesView.{count_in, irrep_modes_in};
ghost use Rattle.mode_report.specs.AllModes.{name_at, named};
ghost use Rattle.mode_report.specs.Held.{HasSizeBy, told_of};
ghost use Rattle.mode_report.specs.ModesPieces.{orbit_front};
ghost use Rattle.mode_report.specs.ModesReport.{each_of, mode_text_by};

use crate::mode_text::{push_mode, push_site};
use crate::moves::AtomEntries;
use crate::orbit_text::{counts_text, push_orbit_front};
use iso_text::{IrrepText, NoMemory, Text};
use mode_project::Modes;
use std::alloc::Global;
use wyckoff::Orbit;

/// The line of an orbit under its number, and its places.
pub(crate) fn orbit_front(
    alloc: Global,
    number: u64,
    orbit: &Orbit,
    found: &Modes,
) -> Result<Text, NoMemory>
    ensures { IfOk result (λ text. (irreps : List Irrep) → text ≡ orbit_front (number, told_of irreps orbit.now found.now)) }
{
    let irrep = found.irrep_modes();
    let counts = counts_text(alloc, irrep, found.len() - irrep)?;
    let mut text = Text::new(alloc);
    push_orbit_front(alloc, &mut text, number, orbit, &counts)?;
    Ok(text)
}

// The name of irrep j, nothing where there is none.
fn name_of(irreps: &[IrrepText], j: usize) -> &[u8]
    ensures { result.now ≡ name_at irreps.now j }
{
    if j < irreps.len() {
        irreps[j].name.as_slice()
    } else {
        b""
    }
}

// The name of the irrep of mode m.
fn mode_name<'a>(irreps: &'a [IrrepText], found: &Modes, m: usize) -> &'a [u8]
    requires { m < length found.now.rows }
    ensures { result.now ≡ name_at irreps.now (slice_index_or found.now.rows m (0, [])).0 }
{
    match found.irrep_of(m) {
        Some(j) => name_of(irreps, j),
        None => b"",
    }
}

// The lines of mode m, which belongs to an irrep.
fn irrep_mode(
    alloc: Global,
    entries: AtomEntries,
    irreps: &[IrrepText],
    atoms: usize,
    found: &Modes,
    m: usize,
) -> Result<Text, NoMemory>
    requires size { found.now.size ≡ atoms * each_of entries }
    requires mode { m < length found.now.rows }
    ensures { IfOk result (λ text. (r : ℕ × (ℕ → Exact24)) → slice_get (irrep_modes_in found.now) m ≡ Some r → text ≡ mode_text_by entries atoms (m + 1, named irreps.now r)) }
{
    let _modes = found.irrep_modes();
    let name = mode_name(irreps, found, m);
    let mut text = Text::new(alloc);
    push_mode(
        alloc,
        &mut text,
        entries,
        atoms,
        m as u64 + 1,
        name,
        found.row(m),
    )?;
    Ok(text)
}

// The lines of mode m, which belongs to no irrep.
fn site_mode(
    alloc: Global,
    entries: AtomEntries,
    atoms: usize,
    found: &Modes,
    m: usize,
) -> Result<Text, NoMemory>
    requires size { found.now.size ≡ atoms * each_of entries }
    requires behind { length found.now.rows ≤ m }
    requires mode { m < count_in found.now }
    ensures { IfOk result (λ text. (c : ℕ) → slice_get found.now.sites (m - length found.now.rows) ≡ Some c → text ≡ mode_text_by entries atoms (m + 1, (codes "site", unit_vector k24_laws c))) }
{
    let _modes = found.len();
    let irrep = found.irrep_modes();
    let mut text = Text::new(alloc);
    let column = found.site(m - irrep);
    push_site(alloc, &mut text, entries, atoms, m as u64 + 1, column)?;
    Ok(text)
}

/// The lines of mode m of an orbit.
pub(crate) fn mode_piece(
    alloc: Global,
    entries: AtomEntries,
    irreps: &[IrrepText],
    orbit: &Orbit,
    found: &Modes,
    m: usize,
) -> Result<Text, NoMemory>
    requires size { HasSizeBy (each_of entries) orbit.now found.now }
    requires mode { m < count_in found.now }
    ensures { IfOk result (λ text. (x : List ℕ × (ℕ → Exact24)) → slice_get (told_of irreps.now orbit.now found.now).modes m ≡ Some x → text ≡ mode_text_by entries (length orbit.now.places) (m + 1, x)) }
{
    if m < found.irrep_modes() {
        return irrep_mode(alloc, entries, irreps, orbit.atoms(), found, m);
    }
    site_mode(alloc, entries, orbit.atoms(), found, m)
}
