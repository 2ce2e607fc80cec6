// The tables that give every block of every induced matrix.
ghost use Rattle.std.specs.Prelude.{◌≡◌, IfOk, Err};
ghost use Rattle.lin_alg.specs.declared.errors.LinError.TheVariants as lin_error;
ghost use Rattle.small_rep.specs.Rep.{matrices_of, IsRepOf};
ghost use Rattle.induce.specs.Induced.{IsInducible};
ghost use Rattle.induce.specs.Tables.{AreTablesOf};
ghost use Rattle.induce.specs.Wide.{IsWideEntry};

use crate::arms::arm_numbers;
use crate::moves::{Move, moves};
use crate::phases::phases;
use crate::products::products;
use cyclo24::Z24;
use kstar::Star;
use lin_alg::{LinError, Matrix};
use small_rep::CheckedRep;
use std::alloc::Global;
use super_group::Quotient;

/// A star and a small representation, with what gives every block: how the listed operations move
/// the arms, operation by operation; the phases of the translations of the supercell, arm by arm; the
/// matrices z^a G(R), power by power.
#[derive(Drop)]
pub struct Tables {
    pub star: Star,
    pub rep: CheckedRep,
    pub moves: Vec<Move>,
    pub phases: Vec<u8>,
    pub matrices: Vec<Matrix<Z24>>,
}

/// A block that isn't 0: its row of blocks, and the place of its matrix.
#[derive(Clone, Copy, Debug, PartialEq, Eq)]
pub struct Place {
    pub row: usize,
    pub matrix: usize,
}

/// The tables of a star and a small representation.
pub fn form_tables(
    alloc: Global,
    quotient: &Quotient,
    star: Star,
    rep: CheckedRep,
) -> Result<Tables, LinError>
    requires inducible { IsInducible quotient.now star rep.rep.size (matrices_of rep.rep) }
    requires rep { IsRepOf quotient.now.parent star rep.rep }
    ensures tables { IfOk result (λ tables. AreTablesOf quotient.now tables) }
    ensures star { IfOk result (λ tables. tables.star ≡ star) }
    ensures rep { IfOk result (λ tables. tables.rep ≡ rep) }
    ensures wide { result ≡ Err lin_error.Wide → IsWideEntry quotient.now star rep.rep.size (matrices_of rep.rep) }
{
    let arms = match arm_numbers(alloc, quotient, &star) {
        Ok(arms) => arms,
        Err(_) => return Err(LinError::NoMemory),
    };
    let moves = match moves(alloc, quotient, &star, &arms) {
        Ok(moves) => moves,
        Err(_) => return Err(LinError::NoMemory),
    };
    let phases = match phases(alloc, quotient, &star, &arms) {
        Ok(phases) => phases,
        Err(_) => return Err(LinError::NoMemory),
    };
    let matrices = match products(alloc, quotient, &star, &rep, &phases) {
        Ok(matrices) => matrices,
        Err(error) => return Err(error),
    };
    Ok(Tables {
        star,
        rep,
        moves,
        phases,
        matrices,
    })
}
