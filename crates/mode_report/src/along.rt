// The modes of the orbits of a file along a direction.
ghost use Rattle.std.specs.Prelude.{◌≡◌, IfOk, length};
ghost use Rattle.algebra.specs.Subgroup.{IsSubgroup};
ghost use Rattle.iso_text.specs.Ranges.{IsInRange};
ghost use Rattle.super_group.specs.Quotient.{quotient_group};
ghost use Rattle.report_steps.specs.HeldFiles.{AreInducedHeld};
ghost use Rattle.report_steps.specs.IrrepSteps.{Each};
ghost use Rattle.report_steps.specs.Steps.{Answers, OrWide};
ghost use Rattle.mode_report.specs.Atoms.{RefusesAtoms};
ghost use Rattle.mode_report.specs.DirectionFound.{AreWideAllAlong, AreToldAlong, AfterDirection};
ghost use Rattle.mode_report.specs.DirectionHeld.{AreFit, along_in};
ghost use Rattle.mode_report.specs.FoundAlong.{FindsAlong};
ghost use Rattle.mode_report.specs.Held.{AreOrbitsHeld};

use crate::atoms::orbits_of;
use crate::direction_rows::all_rows;
use crate::weights::weights_of;
use cyclo24::K24;
use iso_text::{Name, NoMemory};
use lin_alg::Matrix;
use report_steps::{InducedFile, Step};
use std::alloc::Global;
use wyckoff::Orbits;

/// The modes of the orbits of a file that the direction of this number of the irrep of this name
/// allows: for each orbit, and for each irrep in file order, as rows of three numbers for each atom.
#[derive(Drop)]
pub struct ModesAlong {
    pub file: InducedFile,
    pub name: Name,
    pub number: u64,
    pub orbits: Orbits,
    pub rows: Vec<Vec<Matrix<K24>>>,
}

// How many irreps a file has.
fn irrep_count(file: &InducedFile) -> usize
    ensures { result ≡ length file.now.divided.file.irreps }
{
    file.divided.document().irreps().len()
}

// The modes of these orbits that the elements of a stabiliser leave.
fn rows_at(
    alloc: Global,
    file: &InducedFile,
    orbits: &Orbits,
    stab: &[usize],
) -> Result<Step<Vec<Vec<Matrix<K24>>>>, NoMemory>
    requires file { AreInducedHeld file.now }
    requires orbits { AreOrbitsHeld file.now.divided orbits.now }
    requires stabiliser { IsSubgroup (quotient_group file.now.divided.quotient) stab.now }
    ensures { IfOk result (λ step. Answers (OrWide RefusesAtoms (AreWideAllAlong stab.now) file.now.divided) (λ rows. AreToldAlong stab.now file.now.divided (along_in file.now.divided.file.irreps orbits.now rows.items) × Each (AreFit file.now.divided.file.irreps) orbits.now rows.items) step) }
{
    let weights = weights_of(alloc, file)?;
    let irreps = irrep_count(file);
    all_rows(
        alloc,
        file.divided.quotient(),
        orbits,
        &weights,
        irreps,
        stab,
    )
}

// What is found behind the orbits of the atoms.
fn after_orbits(
    alloc: Global,
    file: InducedFile,
    name: Name,
    number: u64,
    orbits: Orbits,
    stab: &[usize],
) -> Result<Step<ModesAlong>, NoMemory>
    requires file { AreInducedHeld file }
    requires orbits { AreOrbitsHeld file.divided orbits }
    requires stabiliser { IsSubgroup (quotient_group file.divided.quotient) stab.now }
    ensures { IfOk result (FindsAlong (AfterDirection file.divided name number stab.now)) }
{
    match rows_at(alloc, &file, &orbits, stab)? {
        Step::Passed(rows) => Ok(Step::Passed(ModesAlong {
            file,
            name,
            number,
            orbits,
            rows,
        })),
        Step::Refused(refusal) => Ok(Step::Refused(refusal)),
    }
}

/// What is found behind the direction of this number of the irrep of this name, by its stabiliser.
pub(crate) fn after_direction(
    alloc: Global,
    file: InducedFile,
    name: Name,
    number: u64,
    stab: &[usize],
) -> Result<Step<ModesAlong>, NoMemory>
    requires file { AreInducedHeld file }
    requires ranges { IsInRange file.divided.file }
    requires stabiliser { IsSubgroup (quotient_group file.divided.quotient) stab.now }
    ensures { IfOk result (FindsAlong (AfterDirection file.divided name number stab.now)) }
{
    match orbits_of(alloc, &file)? {
        Step::Passed(orbits) => after_orbits(alloc, file, name, number, orbits, stab),
        Step::Refused(refusal) => Ok(Step::Refused(refusal)),
    }
}
