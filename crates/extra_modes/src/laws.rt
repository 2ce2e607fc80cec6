// Laws over the definitions, as contracts of functions that do nothing.
ghost use Rattle.iso_text.specs.declared.sections.AtomText.{AtomText};
ghost use Rattle.super_group.specs.Quotient.{SupercellGroup, IsQuotient};
ghost use Rattle.wyckoff.specs.Orbit.{OrbitView, IsOrbitOf};
ghost use Rattle.mode_project.specs.AtomSpace.{IsAtomSpace, IsOrbit};
ghost use Rattle.mode_project.specs.OneBasis.{AreAlike};
ghost use Rattle.extra_modes.specs.ExtraSpace.{extra_space};
ghost use Rattle.extra_modes.specs.declared.nature.Nature.{Nature};

use mode_project::{law_of_one_space, law_of_spaces};

/// Occupations and axial vectors of the atoms of an orbit are moved by the group of the quotient, and are
/// alike on all orbits of one atom.
pub fn law_of_extra_spaces()
    ensures space { (nature : Nature) (g : SupercellGroup) (o : OrbitView) → IsQuotient g → IsOrbit g o → IsAtomSpace (extra_space nature g o) }
    ensures alike { (nature : Nature) (g : SupercellGroup) (atom : AtomText) (o u : OrbitView) → IsQuotient g → IsOrbitOf g atom o → IsOrbitOf g atom u → AreAlike (extra_space nature g o) (extra_space nature g u) }
{
    law_of_spaces();
    law_of_one_space();
}
