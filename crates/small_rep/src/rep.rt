// Small representations as they were read.
ghost use Rattle.std.specs.Prelude.{◌≡◌, ◌<◌, true, length};
ghost use Rattle.small_rep.specs.SmallRep.{is_listed};
ghost use Rattle.small_rep.specs.Rep.{first_place};

use crate::pairs::Pair;
use cyclo24::Z24;
use lin_alg::Matrix;
use space_ops::Op;
use std::marker::Model;

/// A small representation as it was read: the rotations of the little group with their listed
/// operations and products, and one matrix for each rotation.
#[derive(Drop)]
pub struct SmallRep {
    pub(crate) size: usize,
    pub(crate) little: Vec<usize>,
    pub(crate) ops: Vec<Op>,
    pub(crate) pairs: Vec<Pair>,
    pub(crate) rotations: Vec<usize>,
    pub(crate) matrices: Vec<Matrix<Z24>>,
}

impl Model for SmallRep {
    ghost use Rattle.small_rep.specs.Rep.{RepView};

    ghost Value = { RepView };

    ghost use Rattle.small_rep.specs.RepView.{view_of, IsHeld};

    ghost view = { view_of };

    ghost invariant = { IsHeld };
}

/// The first place of a number of a list.
fn place_of(rotations: &[usize], rotation: usize) -> usize
    requires { is_listed rotations.now rotation ≡ true }
    ensures place { result ≡ first_place rotations.now rotation }
    ensures below { result < length rotations.now }
{
    for (place, r) in rotations.iter().enumerate() {
        if *r == rotation {
            return place;
        }
    }
    unreachable!()
}

impl SmallRep {
    ghost use Rattle.std.specs.Prelude.{◌≡◌, ◌<◌, ◌≤◌, ◌*◌, ℕ, true, length, slice_index, slice_index_or};
    ghost use Rattle.space_ops.specs.Op.{identity_op};
    ghost use Rattle.cyclo24.specs.ExactZ24.{z24_laws};
    ghost use Rattle.cyclo24.specs.Z24.{exact_z24};
    ghost use Rattle.lin_alg.specs.Matrix.{entry};
    ghost use Rattle.small_rep.specs.SmallRep.{is_listed};
    ghost use Rattle.small_rep.specs.Rep.{matrices_of, pair_at, IsRep};

    /// The dimension of the matrices.
    pub(crate) fn dimension(&self) -> usize
        ensures value { result ≡ self.now.size }
        ensures held { IsRep self.now }
    {
        self.size
    }

    /// The number of rotations of the little group.
    pub(crate) fn count(&self) -> usize
        ensures value { result ≡ length self.now.little }
        ensures few { result ≤ 48 }
        ensures pairs { length self.now.pairs ≡ result * result }
        ensures held { IsRep self.now }
    {
        self.little.len()
    }

    /// Rotation i of the little group.
    pub(crate) fn rotation(&self, i: usize) -> usize
        requires { i < length self.now.little }
        ensures value { result ≡ slice_index self.now.little i }
        ensures listed { is_listed self.now.little result ≡ true }
    {
        self.little[i]
    }

    /// The listed operation of rotation i of the little group.
    pub(crate) fn op(&self, i: usize) -> Op
        requires { i < length self.now.little }
        ensures { result ≡ slice_index_or self.now.ops i identity_op }
    {
        self.ops[i]
    }

    /// Ordered pair e of the little group, row by row.
    pub(crate) fn pair(&self, e: usize) -> Pair
        requires { e < length self.now.pairs }
        ensures value { result ≡ pair_at self.now e }
        ensures product { is_listed self.now.little result.product ≡ true }
        ensures power { result.power < 24 }
    {
        self.pairs[e]
    }

    /// The matrix of the identity.
    pub(crate) fn identity(&self) -> &Matrix<Z24>
        ensures rows { result.now.rows ≡ self.now.size }
        ensures cols { result.now.cols ≡ self.now.size }
        ensures entries { (x y : ℕ) → entry z24_laws exact_z24 result.now x y ≡ matrices_of self.now 0 x y }
    {
        &self.matrices[place_of(&self.rotations, 0)]
    }

    /// The matrix of a rotation of the little group.
    pub(crate) fn matrix(&self, rotation: usize) -> &Matrix<Z24>
        requires { is_listed self.now.little rotation ≡ true }
        ensures rows { result.now.rows ≡ self.now.size }
        ensures cols { result.now.cols ≡ self.now.size }
        ensures entries { (x y : ℕ) → entry z24_laws exact_z24 result.now x y ≡ matrices_of self.now rotation x y }
        ensures held { IsRep self.now }
    {
        &self.matrices[place_of(&self.rotations, rotation)]
    }
}
