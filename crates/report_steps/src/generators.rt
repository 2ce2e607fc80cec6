// The lattice and the generators of a file's parent group.
ghost use Rattle.std.specs.Prelude.{◌≡◌, ◌<◌, ◌≤◌, ◌↔◌, IsTrue, MatchOption, Some, length, map};
ghost use Rattle.std.specs.List.{All};
ghost use Rattle.iso_text.specs.Ranges as ranges;
ghost use Rattle.iso_text.specs.WordRanges.{IsOperation};
ghost use Rattle.iso_text.specs.declared.sections.OpLine.{OpLine};
ghost use Rattle.space_ops.specs.Group.{AreGenerators};
ghost use Rattle.space_ops.specs.Lattice.{lattice_of};
ghost use Rattle.space_ops.specs.Op.{IsSmallRotation};
ghost use Rattle.report_steps.specs.Generators.{operation_of, HasUnitDeterminant, AreGood, IsFirstBad, RefusesSymbol, RefusesOperations, AreOperations, RefusesGenerators, AreGiven};
ghost use Rattle.report_steps.specs.Steps.{Answers, IfPassed};
ghost use Rattle.hall_symbol.specs.Grammar.{IsHallSymbol};

use crate::refusal::Refusal;
use crate::step::Step;
use arrayvec::ArrayVec;
use hall_symbol::Generators;
use iso_text::{Document, OpLine, OpsText};
use space_ops::{Lattice, Op};

// Whether the determinant is 1 or -1.
fn has_unit_determinant(op: Op) -> bool
    requires { IsSmallRotation op.rot }
    ensures { IsTrue result ↔ HasUnitDeterminant op.rot }
{
    let determinant = op.det();
    determinant == 1 || determinant == -1
}

// The place of the first line whose determinant is neither 1 nor -1.
fn first_bad(lines: &[OpLine]) -> Option<usize>
    requires { All (λ (o : OpLine). IsOperation o.op) lines.now }
    ensures { MatchOption result (AreGood lines.now) (λ k. IsFirstBad lines.now k) }
{
    for (k, line) in lines.iter().enumerate() {
        if !has_unit_determinant(Op::from_text(&line.op)) {
            return Some(k);
        }
    }
    None
}

// The operations of the lines, their translations modulo 1.
fn operations_of(lines: &[OpLine]) -> ArrayVec<Op, 5>
    requires { length lines.now ≤ 5 }
    ensures { result.items ≡ map operation_of lines.now }
{
    let mut operations: ArrayVec<Op, 5> = ArrayVec::new();
    for line in lines {
        operations.push(Op::from_text(&line.op).reduced());
    }
    operations
}

// The lattice of the letter of a `lattice` line.
fn lattice_of(text: &OpsText) -> Lattice
    requires { ranges.AreGenerators text.now }
    ensures { lattice_of text.now.letter ≡ Some result }
{
    let Some(lattice) = Lattice::from_letter(text.letter) else {
        unreachable!();
    };
    lattice
}

// The generators of `op` lines.
fn of_operations(text: &OpsText) -> Step<Generators>
    requires { ranges.AreGenerators text.now }
    ensures answer { Answers (RefusesOperations text.now) (λ (g : Generators). AreOperations text.now g.lattice g.ops.items) result }
    ensures fit { IfPassed result (λ (g : Generators). AreGenerators g.ops.items) }
{
    let lines = text.ops.as_slice();
    match first_bad(lines) {
        Some(k) => Step::Refused(Refusal::BadOperation(lines[k].line)),
        None => Step::Passed(Generators {
            lattice: lattice_of(text),
            ops: operations_of(lines),
        }),
    }
}

// The generators of a Hall symbol.
fn of_symbol(document: &Document) -> Step<Generators>
    ensures answer { Answers (RefusesSymbol document.now) (λ (g : Generators). IsHallSymbol document.now.hall g.lattice g.ops.items) result }
    ensures fit { IfPassed result (λ (g : Generators). AreGenerators g.ops.items) }
{
    match hall_symbol::read(document.hall()) {
        Ok(generators) => Step::Passed(generators),
        Err(_) => Step::Refused(Refusal::BadHall(document.hall_line())),
    }
}

/// The lattice and the generators that a file gives its parent group.
pub fn generators_of(document: &Document) -> Step<Generators>
    requires { ranges.IsInRange document.now }
    ensures answer { Answers (RefusesGenerators document.now) (λ (g : Generators). AreGiven document.now g.lattice g.ops.items) result }
    ensures fit { IfPassed result (λ (g : Generators). AreGenerators g.ops.items) }
{
    match document.generators() {
        Some(text) => of_operations(text),
        None => of_symbol(document),
    }
}
