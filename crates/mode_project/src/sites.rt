// The columns of a form without a pivot.
ghost use Rattle.std.specs.Prelude.{◌≡◌, true, IfOk};
ghost use Rattle.lin_alg.specs.Reduced.{is_pivot, free_columns as columns_of};

use cyclo24::Field;
use iso_text::NoMemory;
use lin_alg::Echelon;
use std::alloc::Global;

// Whether a row has its pivot at p.
fn has_pivot<F: Field>(form: &Echelon<F>, p: usize) -> bool
    ensures { result ≡ is_pivot p form.now.rows }
{
    for i in 0..form.len() {
        if p == form.pivot(i) {
            return true;
        }
    }
    false
}

// The columns without a pivot, rising.
pub(crate) fn free_columns<F: Field>(
    alloc: Global,
    form: &Echelon<F>,
) -> Result<Vec<usize>, NoMemory>
    ensures { IfOk result (λ v. v.items ≡ columns_of form.now.width form.now.rows) }
{
    let mut columns = Vec::new(alloc);
    for j in 0..form.width() {
        if !has_pivot(form, j) {
            match columns.push(j) {
                Ok(()) => {}
                Err(_) => return Err(NoMemory),
            }
        }
    }
    Ok(columns)
}
