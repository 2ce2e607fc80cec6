// Phases as rows of real numbers.
ghost use Rattle.std.specs.Prelude.{◌≡◌, ◌∷◌, ◌<◌, true, IfOk, OnOk, length};
ghost use Rattle.cyclo24.specs.K24.{exact24};
ghost use Rattle.cyclo24.specs.ExactK24.{k24_laws};
ghost use Rattle.lin_alg.specs.Spans.{row_vectors, IsInSpan, AreSame};
ghost use Rattle.lin_alg.specs.Rows.{vector, exact_rows};
ghost use Rattle.lin_alg.specs.Echelon.{IsEchelon, IsSpanned};
ghost use Rattle.lin_alg.specs.declared.echelon.Grew.TheVariants as grew;
ghost use Rattle.real_form.specs.Sparse.{phase_row};

use crate::insertion::insert;
use cyclo24::{K24, Wide, Z24};
use lin_alg::{Echelon, Grew, LinError};

/// The real numbers of two phases.
pub(crate) const PHASE_WIDTH: usize = 4;

// Writes z^p and z^o: their real parts, and then their imaginary parts.
fn write_phases(row: &mut [K24], p: u8, o: u8) -> Result<(), Wide>
    requires first { p < 24 }
    requires second { o < 24 }
    requires room { length row.old ≡ 4 }
    ensures { OnOk result (vector k24_laws exact24 row.new ≡ phase_row p o) }
{
    let first = Z24::root(p);
    let second = Z24::root(o);
    row[0] = first.real_part()?;
    row[1] = second.real_part()?;
    row[2] = first.imag_part()?;
    row[3] = second.imag_part()?;
    Ok(())
}

// Inserts z^p and z^o, and tells whether the row was new.
pub(crate) fn insert_phases(
    form: &mut Echelon<K24>,
    row: &mut [K24],
    p: u8,
    o: u8,
) -> Result<Grew, LinError>
    requires first { p < 24 }
    requires second { o < 24 }
    requires whole { form.old.whole ≡ true }
    requires width { form.old.width ≡ 4 }
    requires room { length row.old ≡ 4 }
    ensures width { form.new.width ≡ 4 }
    ensures whole { OnOk result (form.new.whole ≡ true) }
    ensures span { OnOk result (AreSame (IsSpanned k24_laws exact24 form.new) (IsInSpan k24_laws (phase_row p o ∷ row_vectors (exact_rows k24_laws exact24 form.old.rows)))) }
    ensures stays { IfOk result (λ answer. (answer ≡ grew.No) → form.new.rows ≡ form.old.rows) }
{
    match write_phases(row, p, o) {
        Ok(()) => {}
        Err(_) => return Err(LinError::Wide),
    }
    match insert(form, row) {
        Ok(answer) => Ok(answer),
        Err(error) => Err(error),
    }
}
