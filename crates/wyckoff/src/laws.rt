// Laws over the definitions, as contracts of functions that do nothing.
ghost use Rattle.std.specs.Prelude.{◌≡◌, ℕ, ℤ, ◌<◌, ◌≤◌, ◌↔◌, List, Some, length, slice_get};
ghost use Rattle.iso_text.specs.declared.sections.AtomText.{AtomText};
ghost use Rattle.algebra.specs.Subgroup.{IsSubgroup};
ghost use Rattle.space_ops.specs.Matrix.{Vector};
ghost use Rattle.super_group.specs.Quotient.{SupercellGroup, IsQuotient, quotient_group};
ghost use Rattle.wyckoff.specs.Places.{image_in, reduced_place, place_at, IsInSupercell, IsOnOrbit};
ghost use Rattle.wyckoff.specs.Orbit.{ArePlacesOf, OrbitView, image_of, IsOrbitOf};
ghost use Rattle.wyckoff.specs.Permutations.{IsPermutationAction};
ghost use Rattle.wyckoff.specs.Sites.{IsSiteOf};
ghost use Rattle.wyckoff.specs.AtomLines.{AreAccepted, AreOrbitsOf};

/// The group permutes the atoms of an orbit, and takes its first atom to each of them. No translation
/// but zero leaves an atom in its place, so that there are at least as many atoms as translations.
pub fn law_of_images()
    ensures action { (s : SupercellGroup) (atom : AtomText) (o : OrbitView) → IsQuotient s → IsOrbitOf s atom o → IsPermutationAction (quotient_group s) (length o.places) (image_of o) }
    ensures some { (s : SupercellGroup) (atom : AtomText) (o : OrbitView) → IsQuotient s → IsOrbitOf s atom o → 0 < length o.places }
    ensures transitive { (s : SupercellGroup) (atom : AtomText) (o : OrbitView) → IsQuotient s → IsOrbitOf s atom o → (i : ℕ) → i < length o.places → (q : ℕ) × (q < o.order) × (image_of o q 0 ≡ i) }
    ensures translations { (s : SupercellGroup) (atom : AtomText) (o : OrbitView) → IsQuotient s → IsOrbitOf s atom o → length s.translations ≤ length o.places }
    ensures inside { (s : SupercellGroup) (atom : AtomText) (o : OrbitView) → IsQuotient s → IsOrbitOf s atom o → (i : ℕ) → i < length o.places → IsInSupercell s.d (place_at o.places i) }
{}

/// A place is on an orbit exactly where it is listed, modulo the supercell. An orbit has one list of
/// places and one image of each. The orbits of accepted lines have at most 384 atoms.
pub fn law_of_orbits()
    ensures listed { (s : SupercellGroup) (x y : Vector ℤ) (places : List (List ℤ)) → IsQuotient s → ArePlacesOf s x places → IsOnOrbit s x y ↔ ((i : ℕ) × (i < length places) × (place_at places i ≡ reduced_place s.d y)) }
    ensures places { (s : SupercellGroup) (x : Vector ℤ) (v w : List (List ℤ)) → ArePlacesOf s x v → ArePlacesOf s x w → v ≡ w }
    ensures images { (s : SupercellGroup) (atom : AtomText) (o u : OrbitView) → IsQuotient s → IsOrbitOf s atom o → IsOrbitOf s atom u → (q i : ℕ) → q < o.order → i < length o.places → image_of o q i ≡ image_of u q i }
    ensures few { (s : SupercellGroup) (atoms : List AtomText) (orbits : List OrbitView) → AreOrbitsOf s atoms orbits → AreAccepted s atoms (length atoms) → (n : ℕ) (o : OrbitView) → slice_get orbits n ≡ Some o → length o.places ≤ 384 }
{}

/// The elements that leave an atom in its place are a subgroup, and its place is theirs.
pub fn law_of_sites()
    ensures subgroup { (s : SupercellGroup) (atom : AtomText) (o : OrbitView) (i : ℕ) (stab : List ℕ) → IsQuotient s → IsOrbitOf s atom o → i < length o.places → IsSiteOf o i stab → IsSubgroup (quotient_group s) stab }
    ensures place { (s : SupercellGroup) (atom : AtomText) (o : OrbitView) (i q : ℕ) → IsQuotient s → IsOrbitOf s atom o → i < length o.places → q < o.order → (image_of o q i ≡ i) ↔ (image_in s q (place_at o.places i) ≡ place_at o.places i) }
{}
