// From a file's bytes to the orbits of its atoms.
ghost use Rattle.std.specs.Prelude.{◌≤◌, length};

use iso_text::Document;
use space_ops::Group;
use std::alloc::Global;
use std::process::Abort;
use super_group::{Quotient, are_denominators, multipliers};
use wyckoff::{AtomError, Orbits};

/// The group of a Hall symbol modulo the supercell of a wave vector with these denominators.
pub fn quotient_of(rt: &impl Abort, alloc: Global, symbol: &[u8], dens: [u8; 3]) -> Quotient {
    let generators = hall_symbol::read(symbol).expect(rt, "a symbol");
    let closed = Group::close(alloc, generators.ops.as_slice(), generators.lattice);
    let group = closed.expect(rt, "a group");
    let dens = [dens];
    assert!(rt; are_denominators(&dens));
    let d = multipliers(&group, &dens);
    Quotient::new(alloc, group, d).expect(rt, "a quotient")
}

/// The orbits of the atoms of a file in the supercell of a wave vector with these denominators.
pub fn orbits_of(
    rt: &impl Abort,
    alloc: Global,
    file: &[u8],
    dens: [u8; 3],
) -> Result<Orbits, AtomError>
    requires { length file.now ≤ 1048576 }
{
    let document = Document::read(alloc, file).expect(rt, "a file");
    let quotient = quotient_of(rt, alloc, document.hall(), dens);
    Orbits::new(alloc, &quotient, document.atoms())
}

/// The number of atoms of orbit n.
pub fn atoms_of(orbits: &Orbits, n: usize) -> Option<usize> {
    if n < orbits.len() {
        Some(orbits.get(n).atoms())
    } else {
        None
    }
}
