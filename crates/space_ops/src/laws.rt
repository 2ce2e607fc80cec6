// Laws over the definitions, as contracts of functions that do nothing.
ghost use Rattle.std.specs.Prelude.{◌≡◌, ℤ, List};
ghost use Rattle.iso_text.specs.OperationSpellings.{SpellsOperation};
ghost use Rattle.space_ops.specs.declared.op.Op.{Op};
ghost use Rattle.space_ops.specs.declared.lattice.Lattice.{Lattice};
ghost use Rattle.space_ops.specs.Seitz.{Seitz};
ghost use Rattle.space_ops.specs.Group.{Parent, IsListOf, IsParentGroup};
ghost use Rattle.space_ops.specs.Member.{IsMemberOf, IsListedMember, AreMembers};
ghost use Rattle.space_ops.specs.OpGroup.{HaveProducts, HaveDeterminants};
ghost use Rattle.space_ops.specs.OpText.{IsPrintable, op_text_of, text_of};

/// Products of operations are associative, with {E|0} and with the inverses of operations of
/// determinant 1 or -1; the determinant of a product is the product of the determinants.
pub fn law_of_operations()
    ensures products { HaveProducts }
    ensures determinants { HaveDeterminants }
{}

/// A member of a listed group is {E|n} after the listed operation of its rotation, n a lattice
/// vector. Members are closed under products and inverses, and the numbers of their rotations
/// multiply as the rotations.
pub fn law_of_members()
    ensures listed { (p : Parent) → IsParentGroup p → (g : Seitz ℤ) → IsMemberOf p g → IsListedMember p g }
    ensures closed { (p : Parent) → IsParentGroup p → AreMembers p }
{}

/// A group has one list.
pub fn law_of_lists()
    ensures { (generators : List Op) (lattice : Lattice) (xs ys : List Op) → IsListOf generators lattice xs → IsListOf generators lattice ys → xs ≡ ys }
{}

/// The printed text of an operation in the file's ranges spells it.
pub fn law_of_texts()
    ensures { (op : Op) → IsPrintable op → SpellsOperation (text_of op) (op_text_of op) }
{}
