// Insertions that are counted by a counter of their own.
ghost use Rattle.std.specs.Prelude.{◌≡◌, ◌↔◌, ◌∷◌, ◌<◌, true, Err, IfOk, OnOk, length};
ghost use Rattle.lin_alg.specs.Spans.{row_vectors, IsInSpan, AreSame};
ghost use Rattle.lin_alg.specs.Rows.{vector, exact_rows};
ghost use Rattle.lin_alg.specs.Insertion.{IsWideInsert};
ghost use Rattle.lin_alg.specs.Echelon.{IsEchelon, IsSpanned};
ghost use Rattle.lin_alg.specs.declared.errors.LinError.TheVariants as lin_error;
ghost use Rattle.lin_alg.specs.declared.echelon.Grew.TheVariants as grew;

use cyclo24::Field;
use lin_alg::{Echelon, Grew, LinError, Steps};
use std::marker::Brand;
use std::sync::ledger::{Blank, Ledger};

// Inserts a row, and tells whether it was new.
pub(crate) fn insert<F: Field>(form: &mut Echelon<F>, row: &mut [F]) -> Result<Grew, LinError>
    requires whole { form.old.whole ≡ true }
    requires width { length row.old ≡ form.old.width }
    ensures width { form.new.width ≡ form.old.width }
    ensures form { IsEchelon F.field.laws F.value form.new }
    ensures whole { OnOk result (form.new.whole ≡ true) }
    ensures span { OnOk result (AreSame (IsSpanned F.field.laws F.value form.new) (IsInSpan F.field.laws (vector F.field.laws F.value row.old ∷ row_vectors (exact_rows F.field.laws F.value form.old.rows)))) }
    ensures grew { IfOk result (λ answer. (answer ≡ grew.Yes) ↔ (IsSpanned F.field.laws F.value form.old (vector F.field.laws F.value row.old) → ⊥)) }
    ensures stays { IfOk result (λ answer. (answer ≡ grew.No) → form.new.rows ≡ form.old.rows) }
    ensures wide { (result ≡ Err lin_error.Wide) → IsWideInsert F.field (exact_rows F.field.laws F.value form.old.rows) (vector F.field.laws F.value row.old) }
{
    insert_counted::<F, Brand>(form, row, Blank::new(1))
}

// The same of a row that is given.
pub(crate) fn insert_row<F: Field>(form: &mut Echelon<F>, row: Vec<F>) -> Result<Grew, LinError>
    requires whole { form.old.whole ≡ true }
    requires width { length row.items ≡ form.old.width }
    ensures width { form.new.width ≡ form.old.width }
    ensures form { IsEchelon F.field.laws F.value form.new }
    ensures whole { OnOk result (form.new.whole ≡ true) }
    ensures span { OnOk result (AreSame (IsSpanned F.field.laws F.value form.new) (IsInSpan F.field.laws (vector F.field.laws F.value row.items ∷ row_vectors (exact_rows F.field.laws F.value form.old.rows)))) }
    ensures grew { IfOk result (λ answer. (answer ≡ grew.Yes) ↔ (IsSpanned F.field.laws F.value form.old (vector F.field.laws F.value row.items) → ⊥)) }
    ensures stays { IfOk result (λ answer. (answer ≡ grew.No) → form.new.rows ≡ form.old.rows) }
    ensures wide { (result ≡ Err lin_error.Wide) → IsWideInsert F.field (exact_rows F.field.laws F.value form.old.rows) (vector F.field.laws F.value row.items) }
{
    let mut lent = row;
    insert(form, &mut lent)
}

// The same, with a blank for the counter.
fn insert_counted<F: Field, L: Ledger>(
    form: &mut Echelon<F>,
    row: &mut [F],
    blank: Blank,
) -> Result<Grew, LinError>
    requires name { blank.name ≡ L.name }
    requires parts { blank.parts ≡ L.parts }
    requires some { 0 < blank.parts }
    requires whole { form.old.whole ≡ true }
    requires width { length row.old ≡ form.old.width }
    ensures width { form.new.width ≡ form.old.width }
    ensures form { IsEchelon F.field.laws F.value form.new }
    ensures whole { OnOk result (form.new.whole ≡ true) }
    ensures span { OnOk result (AreSame (IsSpanned F.field.laws F.value form.new) (IsInSpan F.field.laws (vector F.field.laws F.value row.old ∷ row_vectors (exact_rows F.field.laws F.value form.old.rows)))) }
    ensures grew { IfOk result (λ answer. (answer ≡ grew.Yes) ↔ (IsSpanned F.field.laws F.value form.old (vector F.field.laws F.value row.old) → ⊥)) }
    ensures stays { IfOk result (λ answer. (answer ≡ grew.No) → form.new.rows ≡ form.old.rows) }
    ensures wide { (result ≡ Err lin_error.Wide) → IsWideInsert F.field (exact_rows F.field.laws F.value form.old.rows) (vector F.field.laws F.value row.old) }
{
    let mut steps: Steps<L> = Steps::new(blank);
    match form.insert(row, &mut steps) {
        Ok(answer) => Ok(answer),
        Err(error) => Err(error),
    }
}
