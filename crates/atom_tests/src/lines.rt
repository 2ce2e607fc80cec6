// Atom lines that have no orbits: the lines that the error names.
use crate::cases::orbits_of;
use wyckoff::{AtomError, Orbits};

fn is_error(found: &Result<Orbits, AtomError>, want: AtomError) -> bool {
    match found {
        Ok(_) => false,
        Err(error) => *error == want,
    }
}

// A place and one a cell edge away, behind the lines of another atom.
const TWICE: &str = "isodist 1
hall -P 1

# an atom elsewhere, and two on one site
atom C 1/4 0 0

atom A 0 0 0
atom B 1 0 0
end
";

#[test]
fn two_on_one_site(rt: HostRuntime) {
    let found = orbits_of(&rt, rt.alloc(), TWICE.as_bytes(), [1, 1, 1]);
    assert!(rt; is_error(&found, AtomError::SameSite(7, 8)));
}

const LARGE: &str = "isodist 1
hall P 1
atom A 0 0 0
end
";

#[test]
fn more_than_384_atoms(rt: HostRuntime) {
    let found = orbits_of(&rt, rt.alloc(), LARGE.as_bytes(), [12, 12, 12]);
    assert!(rt; is_error(&found, AtomError::TooManyAtoms(3, 5184)));
}
