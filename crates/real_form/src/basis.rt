// Rows of bases with their pivots.
ghost use Rattle.std.specs.Prelude.{◌≡◌, ◌<◌, IfOk, length, map};
ghost use Rattle.cyclo24.specs.K24.{exact24};
ghost use Rattle.cyclo24.specs.ExactK24.{k24_laws};
ghost use Rattle.lin_alg.specs.Equations.{unit_vector};
ghost use Rattle.lin_alg.specs.Rows.{vector, exact_rows, HaveWidth};
ghost use Rattle.real_form.specs.Bases.{unit_rows};
ghost use Rattle.real_form.specs.Vectors.{lines_of};

use cyclo24::{Field, K24};
use iso_text::NoMemory;
use lin_alg::{Echelon, zeros};
use std::alloc::Global;

// The rows of a form.
pub(crate) fn form_lines(
    alloc: Global,
    form: &Echelon<K24>,
) -> Result<Vec<(usize, Vec<K24>)>, NoMemory>
    ensures { IfOk result (λ lines. lines_of lines.items ≡ form.now.rows) }
{
    let mut lines = Vec::new(alloc);
    for i in 0..form.len() {
        let row = Vec::from_slice(alloc, form.row(i))?;
        match lines.push((form.pivot(i), row)) {
            Ok(()) => {}
            Err(_) => return Err(NoMemory),
        }
    }
    Ok(lines)
}

// The unit vectors of w entries.
pub(crate) fn unit_lines(alloc: Global, w: usize) -> Result<Vec<(usize, Vec<K24>)>, NoMemory>
    ensures rows { IfOk result (λ lines. exact_rows k24_laws exact24 (lines_of lines.items) ≡ unit_rows k24_laws 0 w) }
    ensures width { IfOk result (λ lines. HaveWidth w (lines_of lines.items)) }
    ensures len { IfOk result (λ lines. length lines.items ≡ w) }
{
    let mut lines = Vec::new(alloc);
    for i in 0..w {
        let row = unit_line(alloc, w, i)?;
        match lines.push((i, row)) {
            Ok(()) => {}
            Err(_) => return Err(NoMemory),
        }
    }
    Ok(lines)
}

// 1 at place i.
fn unit_line(alloc: Global, w: usize, i: usize) -> Result<Vec<K24>, NoMemory>
    requires { i < w }
    ensures len { IfOk result (λ row. length row.items ≡ w) }
    ensures exact { IfOk result (λ row. vector k24_laws exact24 row.items ≡ unit_vector k24_laws i) }
{
    let mut row = zeros(alloc, w)?;
    row[i] = K24::one();
    Ok(row)
}

// The pivots of rows.
pub(crate) fn pivots_of(alloc: Global, lines: &[(usize, Vec<K24>)]) -> Result<Vec<usize>, NoMemory>
    ensures { IfOk result (λ pivots. pivots.items ≡ map (λ r. r.0) (lines_of lines.now)) }
{
    let mut pivots = Vec::new(alloc);
    for line in lines {
        match pivots.push(line.0) {
            Ok(()) => {}
            Err(_) => return Err(NoMemory),
        }
    }
    Ok(pivots)
}
