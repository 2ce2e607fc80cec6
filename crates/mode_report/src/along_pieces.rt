// The pieces of the report of the modes of an orbit along a direction.
ghost use Rattle.std.specs.Prelude.{ℕ, List, ◌≡◌, ◌<◌, ◌+◌, ◌*◌, IfOk, Some, length, slice_get};
ghost use Rattle.std.specs.List.{All};
ghost use Rattle.cyclo24.specs.ExactK24.{Exact24, k24_laws};
ghost use Rattle.cyclo24.specs.K24.{exact24};
ghost use Rattle.iso_text.specs.declared.sections.IrrepText.{IrrepText as Irrep};
ghost use Rattle.lin_alg.specs.Matrix.{entry};
ghost use Rattle.lin_alg.specs.Rows.{vector};
ghost use Rattle.mode_report.specs.DirectionHeld.{along_of, named_matrices};
ghost use Rattle.mode_report.specs.ModesPieces.{orbit_front};
ghost use Rattle.mode_report.specs.ModesReport.{mode_text};

use crate::mode_text::push_mode;
use crate::moves::AtomEntries;
use crate::orbit_text::{count_text, push_orbit_front};
use cyclo24::K24;
use iso_text::{IrrepText, NoMemory, Text};
use lin_alg::Matrix;
use report_steps::add;
use std::alloc::Global;
use wyckoff::Orbit;

/// How many rows matrices have, one matrix for each irrep. Errors: want of memory, also where they are
/// more than can be counted.
pub(crate) fn count_of(matrices: &[Matrix<K24>]) -> Result<usize, NoMemory>
    ensures { IfOk result (λ count. (irreps : List Irrep) → length irreps ≡ length matrices.now → count ≡ length (named_matrices irreps matrices.now)) }
{
    let mut count: usize = 0;
    for j in 0..matrices.len() {
        match count.checked_add(matrices[j].rows()) {
            Some(sum) => count = sum,
            None => return Err(NoMemory),
        }
    }
    Ok(count)
}

/// The line of an orbit under its number, and its places.
pub(crate) fn along_orbit(
    alloc: Global,
    number: u64,
    orbit: &Orbit,
    matrices: &[Matrix<K24>],
) -> Result<Text, NoMemory>
    ensures { IfOk result (λ text. (irreps : List Irrep) → length irreps ≡ length matrices.now → text ≡ orbit_front (number, along_of irreps orbit.now matrices.now)) }
{
    let count = count_of(matrices)?;
    let counts = count_text(alloc, count)?;
    let mut text = Text::new(alloc);
    push_orbit_front(alloc, &mut text, number, orbit, &counts)?;
    Ok(text)
}

// Row i of a matrix.
fn row_of(alloc: Global, matrix: &Matrix<K24>, i: usize) -> Result<Vec<K24>, NoMemory>
    requires { i < matrix.now.rows }
    ensures width { IfOk result (λ row. length row.items ≡ matrix.now.cols) }
    ensures entries { IfOk result (λ row. entry k24_laws exact24 matrix.now i ≡ vector k24_laws exact24 row.items) }
{
    let mut row: Vec<K24> = Vec::new(alloc);
    for j in 0..matrix.cols() {
        add(&mut row, matrix.get(i, j))?;
    }
    Ok(row)
}

// The lines of the mode in row i of a matrix.
fn row_text(
    alloc: Global,
    atoms: usize,
    number: u64,
    name: &[u8],
    matrix: &Matrix<K24>,
    i: usize,
) -> Result<Text, NoMemory>
    requires row { i < matrix.now.rows }
    requires width { matrix.now.cols ≡ atoms * 3 }
    ensures { IfOk result (λ text. text ≡ mode_text atoms (number, (name.now, entry k24_laws exact24 matrix.now i))) }
{
    let row = row_of(alloc, matrix, i)?;
    let mut text = Text::new(alloc);
    push_mode(
        alloc,
        &mut text,
        AtomEntries::Three,
        atoms,
        number,
        name,
        &row,
    )?;
    Ok(text)
}

/// The lines of mode m of the rows of the matrices of the irreps.
pub(crate) fn along_mode(
    alloc: Global,
    irreps: &[IrrepText],
    atoms: usize,
    matrices: &[Matrix<K24>],
    m: usize,
) -> Result<Text, NoMemory>
    requires count { length irreps.now ≡ length matrices.now }
    requires widths { All (λ x. x.cols ≡ atoms * 3) matrices.now }
    requires mode { m < length (named_matrices irreps.now matrices.now) }
    ensures { IfOk result (λ text. (x : List ℕ × (ℕ → Exact24)) → slice_get (named_matrices irreps.now matrices.now) m ≡ Some x → text ≡ mode_text atoms (m + 1, x)) }
{
    let _count = count_of(matrices)?;
    let mut left = m;
    for j in 0..matrices.len() {
        let matrix = &matrices[j];
        let rows = matrix.rows();
        if left < rows {
            let name = irreps[j].name.as_slice();
            return row_text(alloc, atoms, m as u64 + 1, name, matrix, left);
        }
        left -= rows;
    }
    Ok(Text::new(alloc))
}
