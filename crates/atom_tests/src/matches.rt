// Listed atoms in a doubled cell of their own, and an atom for which there is none.
ghost use Rattle.std.specs.Prelude.{◌≤◌, length};

use crate::cases::quotient_of;
use distort_match::{MatchError, Shifts, match_atoms};
use iso_text::Document;
use std::alloc::Global;
use std::process::Abort;
use wyckoff::Orbits;

// What the listed atoms of a file match in the supercell of a wave vector with these denominators.
fn shifts_of(
    rt: &impl Abort,
    alloc: Global,
    file: &[u8],
    dens: [u8; 3],
) -> Result<Shifts, MatchError>
    requires { length file.now ≤ 1048576 }
{
    let document = Document::read(alloc, file).expect(rt, "a file");
    let quotient = quotient_of(rt, alloc, document.hall(), dens);
    let found = Orbits::new(alloc, &quotient, document.atoms());
    let orbits = found.expect(rt, "orbits");
    let tolerance = document.tolerance();
    assert!(rt; tolerance < 3_000_000);
    match_atoms(
        alloc,
        &quotient,
        &orbits,
        document.listed(),
        tolerance,
        document.cell(),
    )
}

fn is_shift(shifts: &Shifts, orbit: usize, atom: usize, want: [i64; 3]) -> bool {
    if orbit >= shifts.len() {
        return false;
    }
    atom < shifts.atoms(orbit) && shifts.shift(orbit, atom) == want
}

// The places 1/100 along z, and 1/100 along x and z after a cell edge along z.
const DOUBLED: &str = "isodist 2
hall P 1
atom A 0 0 0
tolerance 0.1
cell 1 0 0 0 1 0 0 0 2 0 0 1/4
listed A 0 0 -0.12
listed A 0.01 0 0.38
end
";

#[test]
fn in_a_doubled_cell(rt: HostRuntime) {
    let found = shifts_of(&rt, rt.alloc(), DOUBLED.as_bytes(), [1, 1, 2]);
    let shifts = found.expect(&rt, "shifts");
    assert!(rt; is_shift(&shifts, 0, 0, [0, 0, 120_000]));
    assert!(rt; is_shift(&shifts, 0, 1, [120_000, 0, 120_000]));
}

// The second of these atoms is missing.
const MISSING: &str = "isodist 2
hall P 1
atom A 0 0 0
tolerance 0.1
cell 1 0 0 0 1 0 0 0 2 0 0 1/4
listed A 0 0 -0.12
end
";

fn misses(found: &Result<Shifts, MatchError>, label: &[u8], place: [i64; 3]) -> bool {
    match found {
        Err(MatchError::MissingAtom(name, missing)) => {
            name.as_slice() == label && *missing == place
        }
        _ => false,
    }
}

#[test]
fn with_an_atom_missing(rt: HostRuntime) {
    let found = shifts_of(&rt, rt.alloc(), MISSING.as_bytes(), [1, 1, 2]);
    assert!(rt; misses(&found, b"A", [0, 0, 12_000_000]));
}
