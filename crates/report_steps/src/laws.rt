// Laws over the definitions, as contracts of functions that do nothing.
ghost use Rattle.std.specs.Prelude.{◌≡◌, List};
ghost use Rattle.iso_text.specs.declared.sections.IrrepText.{IrrepText};
ghost use Rattle.kstar.specs.Star.{WaveStar};
ghost use Rattle.super_group.specs.Quotient.{SupercellGroup, IsQuotient};
ghost use Rattle.small_rep.specs.SmallRep.{Matrices};
ghost use Rattle.report_steps.specs.Contexts.{Parented, Divided};
ghost use Rattle.report_steps.specs.InducedLaws.{InduceTheSame};
ghost use Rattle.report_steps.specs.IrrepReport.{Facts, AreFacts};
ghost use Rattle.report_steps.specs.Irreps.{IsRepresented};
ghost use Rattle.report_steps.specs.Stages.{RefusesText, IsRead, RefusesParent, IsParented, RefusesPhases, HavePhases, RefusesOrder, IsDivided, RefusesReps, HaveReps, RefusesDimensions, HaveInduced};
ghost use Rattle.report_steps.specs.StepLaws.{IsSingle, IsSingleAt};

use hall_symbol::law_of_symbols;
use iso_text::law_of_files;
use space_ops::law_of_lists;

/// Each step refuses with at most one refusal, or at most one value passes it.
pub fn law_of_steps()
    ensures text { IsSingle RefusesText IsRead }
    ensures parent { IsSingle RefusesParent IsParented }
    ensures phases { (p : Parented) → IsSingleAt RefusesPhases HavePhases p }
    ensures order { IsSingle RefusesOrder IsDivided }
    ensures reps { (d : Divided) → IsQuotient d.quotient → IsSingleAt RefusesReps HaveReps d }
    ensures dimensions { (d : Divided) → IsQuotient d.quotient → IsSingleAt RefusesDimensions HaveInduced d }
{
    law_of_files();
    law_of_symbols();
    law_of_lists();
}

/// The irreps of a file have one list of facts; and what an irrep induces is one, whichever star of
/// its wave vector it is read on.
pub fn law_of_irreps()
    ensures facts { (q : SupercellGroup) → IsQuotient q → (irreps : List IrrepText) (fs gs : List Facts) → AreFacts q irreps fs → AreFacts q irreps gs → fs ≡ gs }
    ensures induced { (q : SupercellGroup) → IsQuotient q → (i : IrrepText) (s t : WaveStar) (g m : Matrices) → IsRepresented q.parent i s g → IsRepresented q.parent i t m → InduceTheSame q i s t g m }
{}
