// The `mat` lines of an irrep block, in order.
ghost use Rattle.std.specs.Prelude.{◌≡◌, ◌≤◌, IfOk, IfErr, length};
ghost use Rattle.std.specs.List.{All};
ghost use Rattle.small_rep.specs.Reading.{IsReadCause};
ghost use Rattle.small_rep.specs.LinesRead.{AreRead};
ghost use Rattle.iso_text.specs.Ranges.{IsMat};

use crate::RepError;
use crate::line::read_line;
use cyclo24::Z24;
use iso_text::MatText;
use kstar::Star;
use lin_alg::Matrix;
use space_ops::Group;
use std::alloc::Global;

/// The numbers of the rotations of some lines, and their matrices, carried to the listed operations.
#[derive(Drop)]
pub struct Lines {
    pub rotations: Vec<usize>,
    pub matrices: Vec<Matrix<Z24>>,
}

/// The lines of a block, each of another rotation of the little group.
pub fn read_lines(
    alloc: Global,
    group: &Group,
    star: &Star,
    size: usize,
    mats: &[MatText],
) -> Result<Lines, RepError>
    requires lattice { star.now.lattice ≡ group.now.lattice }
    requires some { 1 ≤ size }
    requires few { size ≤ 6 }
    requires lines { All (IsMat size) mats.now }
    ensures read { IfOk result (λ r. AreRead group.now star.now size mats.now (length mats.now) r.rotations.items r.matrices.items) }
    ensures cause { IfErr result (λ e. IsReadCause group.now star.now mats.now e) }
{
    let mut rotations: Vec<usize> = Vec::new(alloc);
    let mut matrices: Vec<Matrix<Z24>> = Vec::new(alloc);
    for mat in mats {
        match read_line(alloc, group, star, size, mat, &rotations) {
            Ok((rotation, matrix)) => {
                match rotations.push(rotation) {
                    Ok(()) => {}
                    Err(_) => return Err(RepError::NoMemory),
                }
                match matrices.push(matrix) {
                    Ok(()) => {}
                    Err(_) => return Err(RepError::NoMemory),
                }
            }
            Err(error) => return Err(error),
        }
    }
    Ok(Lines {
        rotations,
        matrices,
    })
}
