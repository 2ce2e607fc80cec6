// The group modulo a supercell.
use crate::errors::QuotientError;
use crate::numbering::Numbering;
use crate::squares::squares;
use arrayvec::ArrayVec;
use iso_text::NoMemory;
use space_ops::{Group, Op};
use std::alloc::Global;
use std::marker::Model;

/// The parent group modulo the translations of a supercell of d1, d2 and d3 cell edges. Element
/// q = r T + t, from 0, is rotation r of the group's list with its translation and translation t of
/// the T lattice translations inside the supercell; 0 is the identity.
#[derive(Drop)]
pub struct Quotient {
    numbering: Numbering,
    squares: Vec<u16>,
}

impl Model for Quotient {
    ghost use Rattle.super_group.specs.Quotient.{SupercellGroup};

    ghost Value = { SupercellGroup };

    ghost use Rattle.super_group.specs.QuotientView.{view_of, IsHeld};

    ghost view = { view_of };

    ghost invariant = { IsHeld };
}

impl Quotient {
    ghost use Rattle.std.specs.Prelude.{◌≡◌, ℕ, ◌<◌, ◌≤◌, IfOk, Err, length, slice_index_or};
    ghost use Rattle.algebra.specs.NumberedGroup.{IsGroup, IsGenerated};
    ghost use Rattle.space_ops.specs.Seitz.{seitz_product, seitz_inverse};
    ghost use Rattle.algebra.specs.Whole.{whole};
    ghost use Rattle.space_ops.specs.Op.{seitz_of, op_of, matrix_of, IsSmallRotation, IsShiftWithin, IsUnimodular};
    ghost use Rattle.super_group.specs.Supercell.{IsSupercell, IsSameElement};
    ghost use Rattle.super_group.specs.Quotient.{IsQuotient, IsNumbered, IsMember, order_in, order_of, element_of, number_of, quotient_group, generators_of};

    /// The quotient of the group by the supercell. Condition: the multipliers are from 1 to 12, and
    /// equal on joined axes, as those of `multipliers` are.
    pub fn new(alloc: Global, group: Group, d: [u32; 3]) -> Result<Quotient, QuotientError>
        requires { IsSupercell group.ops d }
        ensures group { IfOk result (λ quotient. quotient.parent ≡ group) }
        ensures d { IfOk result (λ quotient. quotient.d ≡ d) }
        ensures quotient { IfOk result (λ quotient. IsQuotient quotient) }
        ensures small { IfOk result (λ _. order_in group d ≤ 6144) }
        ensures large { (order : ℕ) → result ≡ Err (QuotientError.TooLargeGroup order) → (order ≡ order_in group d) × (6144 < order) }
        ensures memory { result ≡ Err QuotientError.NoMemory → order_in group d ≤ 6144 }
    {
        let numbering = match Numbering::new(alloc, group, d) {
            Ok(numbering) => numbering,
            Err(error) => return Err(error),
        };
        let squares = match squares(alloc, &numbering) {
            Ok(squares) => squares,
            Err(_) => return Err(QuotientError::NoMemory),
        };
        Ok(Quotient { numbering, squares })
    }

    /// The same quotient again.
    pub fn copy(&self, alloc: Global) -> Result<Quotient, NoMemory>
        ensures { IfOk result (λ copy. copy ≡ self.now) }
    {
        let numbering = match self.numbering.copy(alloc) {
            Ok(numbering) => numbering,
            Err(_) => return Err(NoMemory),
        };
        let squares = match Vec::from_slice(alloc, &self.squares) {
            Ok(squares) => squares,
            Err(_) => return Err(NoMemory),
        };
        Ok(Quotient { numbering, squares })
    }

    /// The parent group.
    pub fn group(&self) -> &Group
        ensures { result.now ≡ self.now.parent }
    {
        self.numbering.group()
    }

    /// The number of elements: rotations times centrings times cells, at most 6,144.
    pub fn order(&self) -> usize
        ensures value { result ≡ order_of self.now }
        ensures few { result ≤ 6144 }
        ensures cells { result ≡ order_in self.now.parent self.now.d }
        ensures quotient { IsQuotient self.now }
        ensures numbered { IsNumbered self.now }
        ensures group { IsGroup (quotient_group self.now) }
    {
        self.numbering.order()
    }

    /// The multipliers.
    pub fn d(&self) -> [u32; 3]
        ensures { result ≡ self.now.d }
    {
        self.numbering.d()
    }

    /// The lattice translations inside the supercell in twelfths of a cell edge, rising.
    pub fn translations(&self) -> &[[i32; 3]]
        ensures { result.now ≡ self.now.translations }
    {
        self.numbering.translations()
    }

    /// The operation of element q, its translation reduced into the supercell. It may be composed and
    /// inverted.
    pub fn element(&self, q: usize) -> Op
        requires { q < order_of self.now }
        ensures element { result ≡ op_of (element_of self.now q) }
        ensures member { IsMember self.now (element_of self.now q) }
        ensures back { IsMember self.now (seitz_inverse whole (element_of self.now q)) }
        ensures small { IsSmallRotation result.rot }
        ensures near { IsShiftWithin 1000000 result.shift }
        ensures unimodular { IsUnimodular (matrix_of result.rot) }
    {
        self.numbering.element(q)
    }

    /// The number of the element that a member of the parent group is. Condition: it is a member, as
    /// `Group::contains` tells.
    pub fn number(&self, op: Op) -> usize
        requires { IsMember self.now (seitz_of op) }
        ensures number { result ≡ number_of self.now (seitz_of op) }
        ensures below { result < order_of self.now }
        ensures same { IsSameElement self.now.d (element_of self.now result) (seitz_of op) }
    {
        self.numbering.number(op)
    }

    /// The number of the product of two elements.
    pub fn product(&self, a: usize, b: usize) -> usize
        requires left { a < order_of self.now }
        requires right { b < order_of self.now }
        ensures product { result ≡ (quotient_group self.now).product a b }
        ensures below { result < order_of self.now }
        ensures same { IsSameElement self.now.d (element_of self.now result) (seitz_product whole (element_of self.now a) (element_of self.now b)) }
    {
        self.numbering.product(a, b)
    }

    /// The number of the product of an element with itself.
    pub fn square(&self, q: usize) -> usize
        requires { q < order_of self.now }
        ensures value { result ≡ (quotient_group self.now).product q q }
        ensures below { result < order_of self.now }
    {
        let _order = self.order();
        usize::from(self.squares[q])
    }

    /// The number of the inverse of an element.
    pub fn inverse(&self, a: usize) -> usize
        requires { a < order_of self.now }
        ensures inverse { result ≡ (quotient_group self.now).inverse a }
        ensures below { result < order_of self.now }
        ensures same { IsSameElement self.now.d (element_of self.now result) (seitz_inverse whole (element_of self.now a)) }
    {
        self.numbering.inverse(a)
    }

    /// The numbers of the generators: those of the symbol, then the centrings other than zero, then
    /// the three unit translations.
    pub fn generators(&self) -> ArrayVec<usize, 11>
        ensures numbers { result.items ≡ generators_of self.now }
        ensures below { (i : ℕ) → i < length result.items → slice_index_or result.items i 0 < order_of self.now }
        ensures generate { IsGenerated (quotient_group self.now) (length result.items) (λ i. slice_index_or result.items i 0) }
    {
        self.numbering.generators()
    }
}
