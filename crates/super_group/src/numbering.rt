// The elements of a quotient and their numbers.
ghost use Rattle.std.specs.Prelude.{◌≡◌, ℕ, ◌<◌, ◌≤◌, ◌*◌, length};
ghost use Rattle.space_ops.specs.Op.{vector_of, shift_of};
ghost use Rattle.super_group.specs.Supercell.{multiplier};
ghost use Rattle.super_group.specs.Quotient.{place_among, order_in as order_of_parent};
ghost use Rattle.super_group.specs.QuotientParts.{IsRisingList, IsAmong};

use crate::errors::{MAX_ORDER, QuotientError};
use crate::inside::{rest_inside, sum_inside};
use crate::motions::motions_in;
use crate::products::product_table;
use crate::translations::translations;
use arrayvec::ArrayVec;
use iso_text::NoMemory;
use space_ops::{Group, Op};
use std::alloc::Global;
use std::marker::Model;

/// What numbers the elements of a quotient: the group, the multipliers, the lattice translations
/// inside the supercell and the products of rotations.
#[derive(Drop)]
pub struct Numbering {
    group: Group,
    d: [u32; 3],
    translations: Vec<[i32; 3]>,
    products: [[u8; 48]; 48],
}

impl Model for Numbering {
    ghost use Rattle.super_group.specs.Quotient.{SupercellGroup};

    ghost Value = { SupercellGroup };

    ghost use Rattle.super_group.specs.NumberingView.{view_of, IsHeld};

    ghost view = { view_of };

    ghost invariant = { IsHeld };
}

impl Numbering {
    ghost use Rattle.std.specs.Prelude.{◌≡◌, ℕ, ◌<◌, ◌≤◌, ◌/◌, IfOk, Err, length, slice_index_or};
    ghost use Rattle.algebra.specs.NumberedGroup.{IsGroup, IsGenerated};
    ghost use Rattle.space_ops.specs.Seitz.{seitz_product, seitz_inverse};
    ghost use Rattle.algebra.specs.Whole.{whole};
    ghost use Rattle.space_ops.specs.Op.{seitz_of, op_of, matrix_of, IsSmallRotation, IsShiftWithin, IsUnimodular};
    ghost use Rattle.space_ops.specs.GroupLaws.{place_of, rotation_group};
    ghost use Rattle.super_group.specs.Supercell.{IsSupercell, IsSameElement};
    ghost use Rattle.super_group.specs.Quotient.{IsQuotient, IsNumbered, IsMember, order_in, order_of, element_of, number_of, quotient_group, generators_of};

    /// The numbering of the group modulo the supercell. Condition: the multipliers are from 1 to 12,
    /// and equal on joined axes, as those of `multipliers` are.
    pub fn new(alloc: Global, group: Group, d: [u32; 3]) -> Result<Numbering, QuotientError>
        requires { IsSupercell group.ops d }
        ensures group { IfOk result (λ numbering. numbering.parent ≡ group) }
        ensures d { IfOk result (λ numbering. numbering.d ≡ d) }
        ensures quotient { IfOk result (λ numbering. IsQuotient numbering) }
        ensures small { IfOk result (λ _. order_in group d ≤ 6144) }
        ensures large { (order : ℕ) → result ≡ Err (QuotientError.TooLargeGroup order) → (order ≡ order_in group d) × (6144 < order) }
        ensures memory { result ≡ Err QuotientError.NoMemory → order_in group d ≤ 6144 }
    {
        let order = order_in(&group, d);
        if order > MAX_ORDER {
            return Err(QuotientError::TooLargeGroup(order));
        }
        let translations = match translations(alloc, group.lattice(), d) {
            Ok(translations) => translations,
            Err(_) => return Err(QuotientError::NoMemory),
        };
        let products = product_table(&group);
        Ok(Numbering {
            group,
            d,
            translations,
            products,
        })
    }

    /// The same numbering again.
    pub fn copy(&self, alloc: Global) -> Result<Numbering, NoMemory>
        ensures { IfOk result (λ copy. copy ≡ self.now) }
    {
        let group = match self.group.copy(alloc) {
            Ok(group) => group,
            Err(_) => return Err(NoMemory),
        };
        let translations = match Vec::from_slice(alloc, &self.translations) {
            Ok(translations) => translations,
            Err(_) => return Err(NoMemory),
        };
        Ok(Numbering {
            group,
            d: self.d,
            translations,
            products: self.products,
        })
    }

    /// The parent group.
    pub fn group(&self) -> &Group
        ensures { result.now ≡ self.now.parent }
    {
        &self.group
    }

    /// The number of elements: rotations times centrings times cells, at most 6,144.
    pub fn order(&self) -> usize
        ensures value { result ≡ order_of self.now }
        ensures few { result ≤ 6144 }
        ensures cells { result ≡ order_in self.now.parent self.now.d }
        ensures quotient { IsQuotient self.now }
        ensures numbered { IsNumbered self.now }
        ensures group { IsGroup (quotient_group self.now) }
    {
        self.group.len() * self.translations.len()
    }

    /// The multipliers.
    pub fn d(&self) -> [u32; 3]
        ensures { result ≡ self.now.d }
    {
        self.d
    }

    /// The lattice translations inside the supercell in twelfths of a cell edge, rising.
    pub fn translations(&self) -> &[[i32; 3]]
        ensures { result.now ≡ self.now.translations }
    {
        &self.translations
    }

    /// The operation of element q, its translation reduced into the supercell. It may be composed and
    /// inverted.
    pub fn element(&self, q: usize) -> Op
        requires { q < order_of self.now }
        ensures element { result ≡ op_of (element_of self.now q) }
        ensures member { IsMember self.now (element_of self.now q) }
        ensures back { IsMember self.now (seitz_inverse whole (element_of self.now q)) }
        ensures small { IsSmallRotation result.rot }
        ensures near { IsShiftWithin 1000000 result.shift }
        ensures unimodular { IsUnimodular (matrix_of result.rot) }
    {
        let count = self.translations.len();
        let listed = self.group.op(q / count);
        let shift = sum_inside(listed.shift, self.translations[q % count], self.d);
        let rot = listed.rot;
        Op { rot, shift }
    }

    /// The number of the element that a member of the parent group is. Condition: it is a member, as
    /// `Group::contains` tells.
    pub fn number(&self, op: Op) -> usize
        requires { IsMember self.now (seitz_of op) }
        ensures number { result ≡ number_of self.now (seitz_of op) }
        ensures below { result < order_of self.now }
        ensures same { IsSameElement self.now.d (element_of self.now result) (seitz_of op) }
    {
        self.number_under(self.rotation_number(op), op)
    }

    /// The number of the product of two elements.
    pub fn product(&self, a: usize, b: usize) -> usize
        requires left { a < order_of self.now }
        requires right { b < order_of self.now }
        ensures product { result ≡ (quotient_group self.now).product a b }
        ensures below { result < order_of self.now }
        ensures same { IsSameElement self.now.d (element_of self.now result) (seitz_product whole (element_of self.now a) (element_of self.now b)) }
    {
        let left = self.element(a);
        let right = self.element(b);
        self.number_under(self.rotation_product(a, b), left.compose(right))
    }

    /// The number of the inverse of an element.
    pub fn inverse(&self, a: usize) -> usize
        requires { a < order_of self.now }
        ensures inverse { result ≡ (quotient_group self.now).inverse a }
        ensures below { result < order_of self.now }
        ensures same { IsSameElement self.now.d (element_of self.now result) (seitz_inverse whole (element_of self.now a)) }
    {
        let element = self.element(a);
        self.number(element.inverse())
    }

    /// The numbers of the generators: those of the symbol, then the centrings other than zero, then
    /// the three unit translations.
    pub fn generators(&self) -> ArrayVec<usize, 11>
        ensures numbers { result.items ≡ generators_of self.now }
        ensures below { (i : ℕ) → i < length result.items → slice_index_or result.items i 0 < order_of self.now }
        ensures generate { IsGenerated (quotient_group self.now) (length result.items) (λ i. slice_index_or result.items i 0) }
    {
        let motions = motions_in(&self.group);
        let mut numbers: ArrayVec<usize, 11> = ArrayVec::new();
        for motion in motions.as_slice() {
            numbers.push(self.number(*motion));
        }
        numbers
    }

    /// The number of a member whose rotation has this number.
    fn number_under(&self, rotation: usize, op: Op) -> usize
        requires member { IsMember self.now (seitz_of op) }
        requires place { rotation ≡ place_of self.now.parent.ops (matrix_of op.rot) }
        requires below { rotation < length self.now.parent.ops }
        ensures number { result ≡ number_of self.now (seitz_of op) }
        ensures below { result < order_of self.now }
        ensures same { IsSameElement self.now.d (element_of self.now result) (seitz_of op) }
    {
        let listed = self.group.op(rotation);
        let rest = rest_inside(op.shift, listed.shift, self.d);
        rotation * self.translations.len() + place_in(&self.translations, rest)
    }

    /// The number of the product of the rotations of two elements.
    fn rotation_product(&self, a: usize, b: usize) -> usize
        requires left { a < order_of self.now }
        requires right { b < order_of self.now }
        ensures place { result ≡ (rotation_group self.now.parent.ops).product (a / length self.now.translations) (b / length self.now.translations) }
        ensures below { result < length self.now.parent.ops }
    {
        let count = self.translations.len();
        usize::from(self.products[a / count][b / count])
    }

    fn rotation_number(&self, op: Op) -> usize
        requires { IsMember self.now (seitz_of op) }
        ensures place { result ≡ place_of self.now.parent.ops (matrix_of op.rot) }
        ensures below { result < length self.now.parent.ops }
    {
        match self.group.index_of(op.rot) {
            Some(rotation) => rotation,
            None => unreachable!(),
        }
    }
}

fn place_in(translations: &[[i32; 3]], v: [i32; 3]) -> usize
    requires rising { IsRisingList translations.now }
    requires listed { IsAmong translations.now (vector_of v) }
    requires triple { v ≡ shift_of (vector_of v) }
    ensures value { result ≡ place_among translations.now (vector_of v) }
    ensures below { result < length translations.now }
{
    match translations.binary_search(&v) {
        Ok(place) => place,
        Err(_) => unreachable!(),
    }
}

fn cells_in(d: [u32; 3]) -> u64
    requires { (i : ℕ) → i < 3 → multiplier d i ≤ 12 }
    ensures value { result ≡ multiplier d 0 * multiplier d 1 * multiplier d 2 }
    ensures few { result ≤ 1728 }
{
    u64::from(d[0]) * u64::from(d[1]) * u64::from(d[2])
}

fn order_in(group: &Group, d: [u32; 3]) -> u64
    requires { (i : ℕ) → i < 3 → multiplier d i ≤ 12 }
    ensures { result ≡ order_of_parent group.now d }
{
    group.len() as u64 * group.lattice().centrings().len() as u64 * cells_in(d)
}
