// The squares of the elements of a quotient.
ghost use Rattle.std.specs.Prelude.{IfOk};
ghost use Rattle.super_group.specs.Quotient.{order_of};
ghost use Rattle.super_group.specs.Squares.{AreSquares};

use crate::numbering::Numbering;
use iso_text::NoMemory;
use std::alloc::Global;

/// The numbers of the squares of the elements, in their order.
pub fn squares(alloc: Global, numbering: &Numbering) -> Result<Vec<u16>, NoMemory>
    ensures { IfOk result (λ squares. AreSquares numbering.now squares.items (order_of numbering.now)) }
{
    let mut squares: Vec<u16> = Vec::new(alloc);
    for q in 0..numbering.order() {
        match squares.push(numbering.product(q, q) as u16) {
            Ok(()) => {}
            Err(_) => return Err(NoMemory),
        }
    }
    Ok(squares)
}
