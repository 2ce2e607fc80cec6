// Laws over the definitions, as contracts of functions that do nothing.
ghost use Rattle.std.specs.Prelude.{◌≡◌, ℕ, List, Option, Some, IfSome, pos};
ghost use Rattle.algebra.specs.Whole.{whole};
ghost use Rattle.space_ops.specs.Matrix.{determinant, image_under, unit_matrix};
ghost use Rattle.space_ops.specs.Op.{matrix_of};
ghost use Rattle.space_ops.specs.declared.lattice.Lattice.{Lattice};
ghost use Rattle.space_ops.specs.declared.op.Op.{Op};
ghost use Rattle.hall_symbol.specs.Axes.{power, direction_of};
ghost use Rattle.hall_symbol.specs.Generators.{named_rotation, rotation_of};
ghost use Rattle.hall_symbol.specs.Grammar.{IsHallSymbol};
ghost use Rattle.hall_symbol.specs.Rotations.{axis_of, order_of, rotation_rows, value_of};
ghost use Rattle.hall_symbol.specs.declared.generator.Generator.{Generator};
ghost use Rattle.hall_symbol.specs.declared.rotation.Axis.{Axis};
ghost use Rattle.hall_symbol.specs.declared.rotation.Axis.TheVariants.{Along};
ghost use Rattle.hall_symbol.specs.declared.rotation.CellAxis.{CellAxis};
ghost use Rattle.hall_symbol.specs.declared.rotation.Order.{Order};
ghost use Rattle.hall_symbol.specs.declared.rotation.Rotation.{Rotation};

/// A text has at most one lattice and one list of generators.
pub fn law_of_symbols()
    ensures { (text : List ℕ) (l m : Lattice) (gens more : List Op) → IsHallSymbol text l gens → IsHallSymbol text m more → (l ≡ m) × (gens ≡ more) }
{}

/// Each rotation of the table has the determinant 1, gives the identity at the power of its order,
/// and keeps the direction of its axis.
pub fn law_of_rotations()
    ensures determinants { (r : Rotation) → determinant whole (matrix_of (rotation_rows r)) ≡ pos 1 }
    ensures orders { (r : Rotation) → power (value_of (order_of r)) (matrix_of (rotation_rows r)) ≡ unit_matrix whole }
    ensures axes { (r : Rotation) → IfSome (direction_of r) (λ d. image_under whole (matrix_of (rotation_rows r)) d ≡ d) }
{}

/// The rotation of a part has the order that its digit says, and the axis of the cell that its letter
/// says.
pub fn law_of_parts()
    ensures orders { (before : List Generator) (n : Order) (a : Option Axis) → IfSome (rotation_of before n a) (λ r. order_of r ≡ n) }
    ensures axes { (last : Option CellAxis) (e : CellAxis) (n : Order) → IfSome (named_rotation last (Along e) n) (λ r. axis_of r ≡ Some e) }
{}
