// The images and sites of an atom on a centre of inversion, and of one beside it.

use crate::cases::{atoms_of, quotient_of};
use iso_text::{Document, NoMemory};
use std::alloc::Global;
use std::test::Fail;
use wyckoff::Orbits;

const INVERSION: &str = "isodist 1
hall -P 1
atom A 0 0 0
atom B 1/4 0 0
end
";

fn has_counts(orbits: &Orbits) -> bool {
    orbits.len() == 2 && atoms_of(orbits, 0) == Some(1) && atoms_of(orbits, 1) == Some(2)
}

// The atom to which element q takes atom i of orbit n.
fn image_of(orbits: &Orbits, n: usize, q: usize, i: usize) -> Option<usize> {
    if n >= orbits.len() {
        return None;
    }
    let orbit = orbits.get(n);
    if q >= orbit.order() || i >= orbit.atoms() {
        return None;
    }
    Some(orbit.image(q, i))
}

// Whether the elements that leave atom i of orbit n in its place are these.
fn is_site(
    alloc: Global,
    orbits: &Orbits,
    n: usize,
    i: usize,
    want: &[usize],
) -> Result<bool, NoMemory> {
    if n >= orbits.len() {
        return Ok(false);
    }
    let orbit = orbits.get(n);
    if i >= orbit.atoms() {
        return Ok(false);
    }
    let site = orbit.site(alloc, i)?;
    Ok(site.as_slice() == want)
}

#[test]
fn under_an_inversion(rt: HostRuntime) -> Result<(), Fail> {
    let document = Document::read(rt.alloc(), INVERSION.as_bytes()).expect(&rt, "a file");
    let quotient = quotient_of(&rt, rt.alloc(), document.hall(), [1, 1, 1]);
    let found = Orbits::new(rt.alloc(), &quotient, document.atoms());
    let orbits = found.expect(&rt, "orbits");
    assert!(rt; has_counts(&orbits));
    assert!(rt; image_of(&orbits, 1, 1, 0) == Some(1));
    assert!(rt; is_site(rt.alloc(), &orbits, 0, 0, &[0, 1])?);
    assert!(rt; is_site(rt.alloc(), &orbits, 1, 0, &[0])?);
    Ok(())
}
