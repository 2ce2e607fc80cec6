// The lines of a stabiliser.
ghost use Rattle.std.specs.Prelude.{◌≡◌, ◌<◌, ◌/◌, ◌++◌, ◌∷◌, [], All, Some, IfOk, OnOk, cond, nat_eq, length, flat_map};
ghost use Rattle.std.specs.List.{cons_option};
ghost use Rattle.std.specs.Cmp.Lexicographic.{slice_cmp};
ghost use Rattle.std.specs.Ordering.{int_cmp, is_lt};
ghost use Rattle.super_group.specs.Quotient.{order_of};
ghost use Rattle.report_steps.specs.OpLines.{listed_line};
ghost use Rattle.list_report.specs.StabiliserText.{kept_line, kept_lines, operation_of, earlier_op, least_member, op_lines};
ghost use Rattle.list_report.specs.StabiliserParts.{reduced_with};

use iso_text::{NoMemory, Text};
use report_steps::{edges_text, op_line};
use space_ops::Op;
use std::alloc::Global;
use super_group::Quotient;

// Whether an element has this rotation of the group's list.
fn has_rotation(quotient: &Quotient, a: usize, rotation: usize) -> bool
    requires { a < order_of quotient.now }
    ensures { result ≡ nat_eq (a / length quotient.now.translations) rotation }
{
    let count = quotient.translations().len();
    a / count == rotation
}

// The line of a pure translation.
fn kept_line(alloc: Global, quotient: &Quotient, a: usize) -> Result<Text, NoMemory>
    requires { a < order_of quotient.now }
    ensures { IfOk result (λ text. text ≡ kept_line quotient.now a) }
{
    let op = quotient.element(a);
    let mut text = Text::new(alloc);
    text.push(b"kept ")?;
    text.push(edges_text(alloc, op.shift)?.as_slice())?;
    text.push(b"\n")?;
    Ok(text)
}

// Adds the line of an element where it is a pure translation.
fn push_kept(alloc: Global, text: &mut Text, quotient: &Quotient, a: usize) -> Result<(), NoMemory>
    requires { a < order_of quotient.now }
    ensures { OnOk result (text.new ≡ text.old ++ cond (nat_eq (a / length quotient.now.translations) 0) (kept_line quotient.now a) []) }
{
    if !has_rotation(quotient, a, 0) {
        return Ok(());
    }
    let line = kept_line(alloc, quotient, a)?;
    text.push(line.as_slice())
}

/// Adds the lines of the pure translations of a stabiliser.
pub fn push_kept_lines(
    alloc: Global,
    text: &mut Text,
    quotient: &Quotient,
    members: &[usize],
) -> Result<(), NoMemory>
    requires { All (λ a. a < order_of quotient.now) members.now }
    ensures { OnOk result (text.new ≡ text.old ++ kept_lines quotient.now members.now) }
{
    for a in members {
        push_kept(alloc, text, quotient, *a)?;
    }
    Ok(())
}

// Whether a translation comes before another.
fn is_before(a: [i32; 3], b: [i32; 3]) -> bool
    ensures { result ≡ is_lt (slice_cmp int_cmp a b) }
{
    a.cmp(&b).is_lt()
}

// The one whose translation comes first.
fn earlier_op(a: Op, b: Op) -> Op
    ensures { result ≡ earlier_op a b }
{
    if is_before(b.shift, a.shift) { b } else { a }
}

// The earliest of what was so far and one more.
fn earliest(so_far: Option<Op>, op: Op) -> Op
    ensures { result ≡ reduced_with earlier_op so_far op }
{
    match so_far {
        None => op,
        Some(first) => earlier_op(first, op),
    }
}

// What was so far, and the operation of an element where it has this rotation.
fn with_element(quotient: &Quotient, so_far: Option<Op>, a: usize, rotation: usize) -> Option<Op>
    requires { a < order_of quotient.now }
    ensures { result ≡ cond (nat_eq (a / length quotient.now.translations) rotation) (Some (reduced_with earlier_op so_far (operation_of quotient.now a))) so_far }
{
    if !has_rotation(quotient, a, rotation) {
        return so_far;
    }
    Some(earliest(so_far, quotient.element(a)))
}

// Of the members with this rotation that with the least translation in the supercell.
fn least_member(quotient: &Quotient, members: &[usize], rotation: usize) -> Option<Op>
    requires { All (λ a. a < order_of quotient.now) members.now }
    ensures { result ≡ least_member quotient.now members.now rotation }
{
    let mut least = None;
    for a in members {
        least = with_element(quotient, least, *a, rotation);
    }
    least
}

// Adds the line of an operation, if there is one.
fn push_op(alloc: Global, text: &mut Text, op: Option<Op>) -> Result<(), NoMemory>
    ensures { OnOk result (text.new ≡ text.old ++ flat_map listed_line (cons_option op [])) }
{
    match op {
        None => Ok(()),
        Some(op) => {
            let line = op_line(alloc, op)?;
            text.push(line.as_slice())
        }
    }
}

/// Adds a line for each rotation that a member of a stabiliser has, in the order of the group's list.
pub fn push_op_lines(
    alloc: Global,
    text: &mut Text,
    quotient: &Quotient,
    members: &[usize],
) -> Result<(), NoMemory>
    requires { All (λ a. a < order_of quotient.now) members.now }
    ensures { OnOk result (text.new ≡ text.old ++ op_lines quotient.now members.now) }
{
    for rotation in 0..quotient.group().len() {
        push_op(alloc, text, least_member(quotient, members, rotation))?;
    }
    Ok(())
}
