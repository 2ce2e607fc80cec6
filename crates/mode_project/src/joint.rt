// The rows of the ranges in one form, of which those that are new are modes.
ghost use Rattle.std.specs.Prelude.{◌≡◌, ◌<◌, ℕ, true, Err, IfOk, length, map};
ghost use Rattle.lin_alg.specs.Rows.{vector, exact_rows};
ghost use Rattle.lin_alg.specs.Insertion.{IsWideInsert};
ghost use Rattle.lin_alg.specs.declared.errors.LinError.TheVariants as lin_error;
ghost use Rattle.mode_project.specs.Modes.{marked, IsKept, AreKept};
ghost use Rattle.mode_project.specs.Joined.{IsJoined, joined_rows_in};
ghost use Rattle.mode_project.specs.WideParts.{IsWideRows};

use crate::insertion::insert_row;
use cyclo24::Field;
use lin_alg::{Echelon, Grew, LinError};
use std::alloc::Global;

/// The modes so far, each with the number of its irrep, and the reduced form of their span.
#[derive(Drop)]
pub(crate) struct Joint<F: Field> {
    pub(crate) form: Echelon<F>,
    pub(crate) rows: Vec<(usize, Vec<F>)>,
}

// A copy of a row.
pub(crate) fn copied<F: Field>(alloc: Global, row: &[F]) -> Result<Vec<F>, LinError>
    ensures row { IfOk result (λ v. v.items ≡ row.now) }
    ensures memory { result ≡ Err lin_error.Wide → ⊥ }
{
    match Vec::from_slice(alloc, row) {
        Ok(copy) => Ok(copy),
        Err(_) => Err(LinError::NoMemory),
    }
}

// The modes with one row more, where it is new.
fn with_row<F: Field>(
    alloc: Global,
    joint: Joint<F>,
    j: usize,
    row: &[F],
) -> Result<Joint<F>, LinError>
    requires joined { IsJoined F.field.laws F.value joint.form joint.rows.items }
    requires width { length row.now ≡ joint.form.width }
    ensures joined { IfOk result (λ more. IsJoined F.field.laws F.value more.form more.rows.items) }
    ensures width { IfOk result (λ more. more.form.width ≡ joint.form.width) }
    ensures kept { IfOk result (λ more. IsKept F.field.laws (joined_rows_in F.field.laws F.value joint.rows.items) (j, vector F.field.laws F.value row.now) (joined_rows_in F.field.laws F.value more.rows.items)) }
    ensures wide { (result ≡ Err lin_error.Wide) → IsWideInsert F.field (exact_rows F.field.laws F.value joint.form.rows) (vector F.field.laws F.value row.now) }
{
    let mut form = joint.form;
    let mut rows = joint.rows;
    let lent = match copied(alloc, row) {
        Ok(lent) => lent,
        Err(error) => return Err(error),
    };
    match insert_row(&mut form, lent) {
        Ok(Grew::Yes) => {}
        Ok(Grew::No) => return Ok(Joint { form, rows }),
        Err(error) => return Err(error),
    }
    let own = match copied(alloc, row) {
        Ok(own) => own,
        Err(error) => return Err(error),
    };
    match rows.push((j, own)) {
        Ok(()) => Ok(Joint { form, rows }),
        Err(_) => Err(LinError::NoMemory),
    }
}

// The modes with those rows of a range that are new.
pub(crate) fn with_range<F: Field>(
    alloc: Global,
    joint: Joint<F>,
    j: usize,
    range: &Echelon<F>,
) -> Result<Joint<F>, LinError>
    requires joined { IsJoined F.field.laws F.value joint.form joint.rows.items }
    requires width { range.now.width ≡ joint.form.width }
    ensures joined { IfOk result (λ more. IsJoined F.field.laws F.value more.form more.rows.items) }
    ensures width { IfOk result (λ more. more.form.width ≡ joint.form.width) }
    ensures kept { IfOk result (λ more. AreKept F.field.laws (joined_rows_in F.field.laws F.value joint.rows.items) (marked j (exact_rows F.field.laws F.value range.now.rows)) (joined_rows_in F.field.laws F.value more.rows.items)) }
    ensures wide { (result ≡ Err lin_error.Wide) → IsWideRows F.field (joined_rows_in F.field.laws F.value joint.rows.items) (marked j (exact_rows F.field.laws F.value range.now.rows)) }
{
    let _whole = range.is_whole();
    let mut held = joint;
    for k in 0..range.len() {
        match with_row(alloc, held, j, range.row(k)) {
            Ok(more) => held = more,
            Err(error) => return Err(error),
        }
    }
    Ok(held)
}
