// The pivot columns: those without a unit vector.
ghost use Rattle.std.specs.Prelude.{◌≡◌, ◌<◌, ◌+◌, ◌↔◌, ℕ, IsTrue, IfOk, length, slice_index};
ghost use Rattle.mode_project.specs.AmplitudeParts.{IsWalk};
ghost use Rattle.mode_project.specs.Amplitudes.{ArePivotColumns};

use iso_text::NoMemory;
use std::alloc::Global;

// Whether the site of this number is column j.
fn is_site(sites: &[usize], number: usize, j: usize) -> bool
    ensures { IsTrue result ↔ ((number < length sites.now) × (slice_index sites.now number ≡ j)) }
{
    number < sites.len() && sites[number] == j
}

// Takes column j, and tells the number of the next site: the column is this site, or it is added.
fn add_column(
    columns: &mut Vec<usize>,
    sites: &[usize],
    next: usize,
    j: usize,
) -> Result<usize, NoMemory>
    requires rising { (i k : ℕ) → i < k → k < length sites.now → slice_index sites.now i < slice_index sites.now k }
    requires walk { IsWalk sites.now j next columns.old.items }
    ensures { IfOk result (λ more. IsWalk sites.now (j + 1) more columns.new.items) }
{
    if is_site(sites, next, j) {
        return Ok(next + 1);
    }
    match columns.push(j) {
        Ok(()) => Ok(next),
        Err(_) => Err(NoMemory),
    }
}

// The columns below `size` that are no sites, rising. Both lists rise, so one walk tells them apart.
pub(crate) fn pivot_columns(
    alloc: Global,
    size: usize,
    sites: &[usize],
) -> Result<Vec<usize>, NoMemory>
    requires { (i k : ℕ) → i < k → k < length sites.now → slice_index sites.now i < slice_index sites.now k }
    ensures { IfOk result (λ v. ArePivotColumns size sites.now v.items) }
{
    let mut columns = Vec::new(alloc);
    let mut next = 0;
    for j in 0..size {
        match add_column(&mut columns, sites, next, j) {
            Ok(more) => next = more,
            Err(error) => return Err(error),
        }
    }
    Ok(columns)
}
