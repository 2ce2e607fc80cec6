// The real form of the irrep whose direction is asked for.
ghost use Rattle.std.specs.Prelude.{◌≡◌, ◌<◌, ◌≤◌, ℕ, IfOk, Some, slice_get, length};
ghost use Rattle.iso_text.specs.declared.sections.IrrepText.{IrrepText as Irrep};
ghost use Rattle.real_form.specs.RealForm.{quotient_of, action_of};
ghost use Rattle.list_report.specs.Choice.{chosen_of};
ghost use Rattle.list_report.specs.HeldListings.{formed_by, formed_in, IsFormedHeld};

use iso_text::NoMemory;
use list_report::FormedIrrep;
use real_form::RealForm;
use report_steps::InducedFile;
use std::alloc::Global;

/// The real form of the irrep at a place, with what the later steps use of the file.
pub fn formed_of(
    alloc: Global,
    file: &InducedFile,
    k: usize,
    form: RealForm,
) -> Result<FormedIrrep, NoMemory>
    requires place { k < length file.now.divided.file.irreps }
    requires quotient { quotient_of form ≡ file.now.divided.quotient }
    requires few { (action_of form).dim ≤ 24 }
    ensures formed { IfOk result (λ formed. (i : Irrep) → slice_get file.now.divided.file.irreps k ≡ Some i → formed_in formed ≡ formed_by (chosen_of file.now.divided i) form) }
    ensures held { IfOk result IsFormedHeld }
    ensures same { IfOk result (λ formed. formed.quotient ≡ file.now.divided.quotient) }
{
    let quotient = file.divided.quotient().copy(alloc)?;
    let document = file.divided.document();
    Ok(FormedIrrep {
        format: document.format(),
        name: document.irreps()[k].name,
        quotient,
        form,
    })
}
