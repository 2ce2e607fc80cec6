// The weights of the irreps of a file.
ghost use Rattle.std.specs.Prelude.{IfOk};
ghost use Rattle.report_steps.specs.HeldFiles.{AreInducedHeld};
ghost use Rattle.mode_project.specs.Weights.{AreWeights, exact_weights};
ghost use Rattle.mode_report.specs.IrrepWeights.{AreWeightsOf};

use iso_text::NoMemory;
use mode_project::Weights;
use report_steps::InducedFile;
use std::alloc::Global;

/// The weights of what each irrep induces, in file order.
pub fn weights_of(alloc: Global, file: &InducedFile) -> Result<Weights, NoMemory>
    requires { AreInducedHeld file.now }
    ensures lists { IfOk result (AreWeights file.now.divided.quotient) }
    ensures of { IfOk result (λ weights. AreWeightsOf file.now.divided.quotient file.now.divided.file.irreps (exact_weights weights)) }
{
    Weights::new(alloc, &file.irreps)
}
