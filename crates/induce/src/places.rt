// The blocks of induced matrices, from the tables.
ghost use Rattle.std.specs.Prelude.{◌≡◌, ℕ, ◌<◌, ◌+◌, ◌*◌, ◌/◌, length};
ghost use Rattle.cyclo24.specs.ExactZ24.{z24_laws};
ghost use Rattle.cyclo24.specs.Z24.{exact_z24};
ghost use Rattle.super_group.specs.Quotient.{order_of};
ghost use Rattle.small_rep.specs.SmallRep.{phased};
ghost use Rattle.induce.specs.Tables.{AreTablesOf, IsPlaceOf, size_in, dimension_in, matrix_in};

use crate::errors::ROOT_ORDER;
use crate::tables::{Place, Tables};
use cyclo24::{Field, Z24};
use super_group::Quotient;

/// The block that isn't 0 in column i of blocks of D(q), for q = r T + t: its row is that of listed
/// operation r, and the phases of both multiply.
pub fn place_of(tables: &Tables, quotient: &Quotient, q: usize, i: usize) -> Place
    requires tables { AreTablesOf quotient.now tables.now }
    requires element { q < order_of quotient.now }
    requires column { i < length tables.now.star.by }
    ensures { IsPlaceOf quotient.now tables.now q i result }
{
    let count = quotient.translations().len();
    let found = tables.moves[q / count * tables.star.arms() + i];
    let phase = tables.phases[found.row * count + q % count];
    let power = usize::from((phase + found.power) % ROOT_ORDER);
    Place {
        row: found.row,
        matrix: power * tables.star.little().len() + found.little,
    }
}

/// Entry (a, b) of D(q).
pub fn entry_of(tables: &Tables, quotient: &Quotient, q: usize, a: usize, b: usize) -> Z24
    requires tables { AreTablesOf quotient.now tables.now }
    requires element { q < order_of quotient.now }
    requires row { a < dimension_in tables.now }
    requires column { b < dimension_in tables.now }
    ensures { exact_z24 result ≡ matrix_in quotient.now tables.now q a b }
{
    let size = tables.rep.size();
    let place = place_of(tables, quotient, q, b / size);
    if place.row == a / size {
        tables.matrices[place.matrix].get(a % size, b % size)
    } else {
        Z24::zero()
    }
}

/// The phase of translation t on arm j: that of the rows of arm j of D(r T + t), from those of
/// D(r T), for each r.
pub fn phase_at(tables: &Tables, quotient: &Quotient, t: usize, j: usize) -> u8
    requires tables { AreTablesOf quotient.now tables.now }
    requires translation { t < length quotient.now.translations }
    requires arm { j < length tables.now.star.by }
    ensures below { result < 24 }
    ensures matrix { (r a b : ℕ) → r < length quotient.now.parent.ops → a < dimension_in tables.now → b < dimension_in tables.now → a / size_in tables.now ≡ j → matrix_in quotient.now tables.now (r * length quotient.now.translations + t) a b ≡ phased result (matrix_in quotient.now tables.now (r * length quotient.now.translations) a b) }
{
    let _order = quotient.order();
    let _arms = tables.star.arms();
    tables.phases[j * quotient.translations().len() + t]
}

/// The row of blocks of D(q) that isn't 0 in column i of blocks: the arm to which q moves arm i.
pub fn moved_arm(tables: &Tables, quotient: &Quotient, q: usize, i: usize) -> usize
    requires tables { AreTablesOf quotient.now tables.now }
    requires element { q < order_of quotient.now }
    requires arm { i < length tables.now.star.by }
    ensures below { result < length tables.now.star.by }
    ensures zero { (a b : ℕ) → a < dimension_in tables.now → b < dimension_in tables.now → b / size_in tables.now ≡ i → (a / size_in tables.now ≡ result → ⊥) → matrix_in quotient.now tables.now q a b ≡ z24_laws.nought }
{
    let place = place_of(tables, quotient, q, i);
    place.row
}
