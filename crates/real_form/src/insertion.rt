// Insertions that are counted by a counter of their own.
ghost use Rattle.std.specs.Prelude.{◌≡◌, ◌∷◌, ◌<◌, true, Err, IfOk, OnOk, length};
ghost use Rattle.cyclo24.specs.K24.{exact24};
ghost use Rattle.cyclo24.specs.ExactK24.{k24, k24_laws};
ghost use Rattle.lin_alg.specs.Spans.{row_vectors, IsInSpan, AreSame};
ghost use Rattle.lin_alg.specs.Rows.{vector, exact_rows};
ghost use Rattle.lin_alg.specs.Insertion.{IsWideInsert};
ghost use Rattle.lin_alg.specs.Echelon.{IsEchelon, IsSpanned};
ghost use Rattle.lin_alg.specs.declared.errors.LinError.TheVariants as lin_error;
ghost use Rattle.lin_alg.specs.declared.echelon.Grew.TheVariants as grew;

use cyclo24::K24;
use lin_alg::{Echelon, Grew, LinError, Steps};
use std::marker::Brand;
use std::sync::ledger::{Blank, Ledger};

// Inserts a row, and tells whether it was new.
pub(crate) fn insert(form: &mut Echelon<K24>, row: &mut [K24]) -> Result<Grew, LinError>
    requires whole { form.old.whole ≡ true }
    requires width { length row.old ≡ form.old.width }
    ensures width { form.new.width ≡ form.old.width }
    ensures form { IsEchelon k24_laws exact24 form.new }
    ensures whole { OnOk result (form.new.whole ≡ true) }
    ensures span { OnOk result (AreSame (IsSpanned k24_laws exact24 form.new) (IsInSpan k24_laws (vector k24_laws exact24 row.old ∷ row_vectors (exact_rows k24_laws exact24 form.old.rows)))) }
    ensures stays { IfOk result (λ answer. (answer ≡ grew.No) → form.new.rows ≡ form.old.rows) }
    ensures wide { (result ≡ Err lin_error.Wide) → IsWideInsert k24 (exact_rows k24_laws exact24 form.old.rows) (vector k24_laws exact24 row.old) }
{
    insert_counted::<Brand>(form, row, Blank::new(1))
}

// The same. The blank is for the counter.
fn insert_counted<L: Ledger>(
    form: &mut Echelon<K24>,
    row: &mut [K24],
    blank: Blank,
) -> Result<Grew, LinError>
    requires name { blank.name ≡ L.name }
    requires parts { blank.parts ≡ L.parts }
    requires some { 0 < blank.parts }
    requires whole { form.old.whole ≡ true }
    requires width { length row.old ≡ form.old.width }
    ensures width { form.new.width ≡ form.old.width }
    ensures form { IsEchelon k24_laws exact24 form.new }
    ensures whole { OnOk result (form.new.whole ≡ true) }
    ensures span { OnOk result (AreSame (IsSpanned k24_laws exact24 form.new) (IsInSpan k24_laws (vector k24_laws exact24 row.old ∷ row_vectors (exact_rows k24_laws exact24 form.old.rows)))) }
    ensures stays { IfOk result (λ answer. (answer ≡ grew.No) → form.new.rows ≡ form.old.rows) }
    ensures wide { (result ≡ Err lin_error.Wide) → IsWideInsert k24 (exact_rows k24_laws exact24 form.old.rows) (vector k24_laws exact24 row.old) }
{
    let mut steps: Steps<L> = Steps::new(blank);
    match form.insert(row, &mut steps) {
        Ok(answer) => Ok(answer),
        Err(error) => Err(error),
    }
}
