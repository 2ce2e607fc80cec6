// The atoms of a perovskite in 2 by 2 by 2 cells: how many there are, and in which order.
use crate::cases::{atoms_of, orbits_of};
use wyckoff::Orbits;

const PEROVSKITE: &str = "isodist 1
hall -P 4 2 3
atom Ti 0 0 0
atom Sr 1/2 1/2 1/2
atom O 1/2 0 0
end
";

// Numbers of oxygen atoms, from 0, and their places.
const PLACES: [(usize, [i64; 3]); 4] = [
    (0, [0, 0, 6_000_000]),
    (8, [6_000_000, 0, 0]),
    (19, [12_000_000, 18_000_000, 12_000_000]),
    (23, [18_000_000, 12_000_000, 12_000_000]),
];

fn has_counts(orbits: &Orbits) -> bool {
    orbits.len() == 3
        && atoms_of(orbits, 0) == Some(8)
        && atoms_of(orbits, 1) == Some(8)
        && atoms_of(orbits, 2) == Some(24)
}

fn is_place(orbits: &Orbits, n: usize, i: usize, place: [i64; 3]) -> bool {
    if n >= orbits.len() {
        return false;
    }
    let orbit = orbits.get(n);
    i < orbit.atoms() && orbit.place(i) == place
}

fn has_places(orbits: &Orbits) -> bool {
    PLACES
        .iter()
        .all(|(i, place)| is_place(orbits, 2, *i, *place))
}

#[test]
fn of_a_perovskite(rt: HostRuntime) {
    let found = orbits_of(&rt, rt.alloc(), PEROVSKITE.as_bytes(), [2, 2, 2]);
    let orbits = found.expect(&rt, "orbits");
    assert!(rt; has_counts(&orbits));
    assert!(rt; has_places(&orbits));
}

// A general position.
const GENERAL: &str = "isodist 1
hall -P 4 2 3
atom H 1/24 1/12 1/8
end
";

#[test]
fn as_large_as_may_be(rt: HostRuntime) {
    let found = orbits_of(&rt, rt.alloc(), GENERAL.as_bytes(), [2, 2, 2]);
    let orbits = found.expect(&rt, "orbits");
    assert!(rt; atoms_of(&orbits, 0) == Some(384));
}
