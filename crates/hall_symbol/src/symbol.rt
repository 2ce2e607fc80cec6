// Whole Hall symbols.
ghost use Rattle.std.specs.Prelude.{◌≡◌, ◌<◌, ◌≤◌, ◌+◌, ◌++◌, [], ◌∷◌, true, false, length, map, option_map, IfNone, IfSome, IfOk, OnErr, List};
ghost use Rattle.arrayvec.specs.ArrayVec.{array_vec_len};
ghost use Rattle.space_ops.specs.Op.{IsShiftWithin};
ghost use Rattle.space_ops.specs.declared.lattice.Lattice.{Lattice};
ghost use Rattle.space_ops.specs.declared.op.Op.{Op};
ghost use Rattle.space_ops.specs.Group.{AreGenerators};
ghost use Rattle.hall_symbol.specs.Grammar.{IsHallSymbol};
ghost use Rattle.hall_symbol.specs.Operations as operations;
ghost use Rattle.hall_symbol.specs.ShiftReading as shift_reading;
ghost use Rattle.hall_symbol.specs.SymbolReading as symbol_reading;
ghost use Rattle.hall_symbol.specs.WordReading as word_reading;

use crate::generator::{Generator, generator_of};
use crate::operation::op_at_origin;
use crate::origin::{is_byte, shift_at};
use crate::part::{part_in, sign_at};
use crate::rotation::Rotation;
use crate::words::next_word;
use arrayvec::ArrayVec;
use iso_text::trimmed;
use space_ops::{Lattice, Op};
use thiserror::Error;

/// The most bytes of a symbol, without the blanks at its ends.
pub const MAX_BYTES: usize = 80;

/// The most parts of a symbol.
pub const MAX_PARTS: usize = 4;

/// The text is no Hall symbol.
#[derive(Clone, Copy, Debug, PartialEq, Eq, Error)]
#[error("bad Hall symbol")]
pub struct BadHall;

/// The lattice of a symbol and its generators, the inversion first where there is one.
#[derive(Debug, Drop)]
pub struct Generators {
    pub lattice: Lattice,
    pub ops: ArrayVec<Op, 5>,
}

#[tactic(auto, unfolding(crate::specs::SymbolReading::lattice_in))]
fn lattice_in(word: &[u8]) -> Option<Lattice>
    ensures { result ≡ symbol_reading.lattice_in word.now }
{
    match word {
        [letter] => Lattice::from_letter(*letter),
        _ => None,
    }
}

// Whether the symbol has the inversion, its lattice, and what stands behind.
#[tactic(auto, unfolding(crate::specs::SymbolReading::head_at))]
fn head_at(text: &[u8]) -> Option<(bool, Lattice, &[u8])>
    ensures value { option_map (λ h. (h.0, h.1, word_reading.words h.2.now)) result ≡ symbol_reading.head_at (word_reading.words text.now) }
    ensures shorter { IfSome result (λ h. length h.2.now ≤ length text.now) }
{
    let (word, rest) = next_word(text)?;
    let (inverted, letter) = sign_at(word);
    let lattice = lattice_in(letter)?;
    Some((inverted, lattice, rest))
}

fn inversion() -> Generator
    ensures { result ≡ operations.inversion }
{
    Generator {
        rotation: Rotation::One,
        negated: true,
        screw: [0; 3],
        letters: [0; 3],
    }
}

// The word of the next part and what stands behind it, where a part stands next.
fn next_part(text: &[u8]) -> Option<(&[u8], &[u8])>
    ensures none { IfNone result (symbol_reading.ends_parts (word_reading.words text.now) ≡ true) }
    ensures word { IfSome result (λ p. word_reading.words text.now ≡ p.0.now ∷ word_reading.words p.1.now) }
    ensures other { IfSome result (λ p. shift_reading.is_byte 40 p.0.now ≡ false) }
    ensures shorter { IfSome result (λ p. length p.0.now + length p.1.now ≤ length text.now) }
    ensures some { IfSome result (λ p. 0 < length p.0.now) }
{
    let (word, rest) = next_word(text)?;
    if is_byte(b'(', word) {
        None
    } else {
        Some((word, rest))
    }
}

#[tactic(auto, unfolding(crate::specs::SymbolReading::generator_in))]
fn generator_in(before: &[Generator], word: &[u8]) -> Option<Generator>
    requires { length word.now ≤ 80 }
    ensures value { result ≡ symbol_reading.generator_in before.now word.now }
    ensures room { IfSome result (λ g. length before.now < 4) }
{
    if before.len() < MAX_PARTS {
        let part = part_in(word)?;
        generator_of(before, part)
    } else {
        None
    }
}

// The generators of the parts, and what stands behind them.
fn parts_at(text: &[u8]) -> Option<(ArrayVec<Generator, 4>, &[u8])>
    requires { length text.now ≤ 80 }
    ensures value { option_map (λ p. (p.0.items, word_reading.words p.1.now)) result ≡ symbol_reading.parts_at [] (word_reading.words text.now) }
    ensures few { IfSome result (λ p. array_vec_len p.0 ≤ 4) }
{
    let mut generators: ArrayVec<Generator, 4> = ArrayVec::new();
    let mut rest = text;
    'parts: while let Some((word, behind)) = next_part(rest) {
        let generator = generator_in(generators.as_slice(), word)?;
        generators.push(generator);
        rest = behind;
    }
    Some((generators, rest))
}

fn first_ops(inverted: bool, origin: [i32; 3]) -> ArrayVec<Op, 5>
    requires { IsShiftWithin 12 origin }
    ensures { result.items ≡ map (operations.op_at_origin origin) (operations.inversion_of inverted) }
{
    let mut ops = ArrayVec::new();
    if inverted {
        ops.push(op_at_origin(origin, inversion()));
    }
    ops
}

// The operations of the generators, those of the inversion first.
fn ops_at(inverted: bool, generators: &[Generator], origin: [i32; 3]) -> ArrayVec<Op, 5>
    requires few { length generators.now ≤ 4 }
    requires origin { IsShiftWithin 12 origin }
    ensures { result.items ≡ map (operations.op_at_origin origin) (operations.inversion_of inverted ++ generators.now) }
{
    let mut ops = first_ops(inverted, origin);
    'generators: for generator in generators {
        ops.push(op_at_origin(origin, *generator));
    }
    ops
}

#[tactic(auto, unfolding(crate::specs::SymbolReading::symbol_at))]
fn symbol_at(text: &[u8]) -> Option<Generators>
    requires { length text.now ≤ 80 }
    ensures { option_map (λ g. (g.lattice, g.ops.items)) result ≡ symbol_reading.symbol_at (word_reading.words text.now) }
{
    let (inverted, lattice, rest) = head_at(text)?;
    let (generators, rest) = parts_at(rest)?;
    let origin = shift_at(rest)?;
    if generators.is_empty() {
        return None;
    }
    let ops = ops_at(inverted, generators.as_slice(), origin);
    Some(Generators { lattice, ops })
}

#[tactic(auto, unfolding(crate::specs::SymbolReading::symbol_of))]
fn symbol_of(text: &[u8]) -> Option<Generators>
    ensures { option_map (λ g. (g.lattice, g.ops.items)) result ≡ symbol_reading.symbol_of text.now }
{
    let text = trimmed(text);
    if text.len() <= MAX_BYTES {
        symbol_at(text)
    } else {
        None
    }
}

/// The lattice and the generators of a Hall symbol: the inversion first where there is one, then the
/// parts in order, each with the origin shift applied, {R|t} becoming {R | t + v - R v}, translations
/// from 0 to 11 twelfths. It takes no memory. Refused with `BadHall`: every text that is no symbol.
pub fn read(text: &[u8]) -> Result<Generators, BadHall>
    ensures ok { IfOk result (λ g. IsHallSymbol text.now g.lattice g.ops.items) }
    // A symbol has one lattice and one list of generators.
    ensures only { IfOk result (λ g. (lattice : Lattice) (ops : List Op) → IsHallSymbol text.now lattice ops
        → (g.lattice ≡ lattice) × (g.ops.items ≡ ops)) }
    ensures bad { OnErr result ((lattice : Lattice) (ops : List Op) → IsHallSymbol text.now lattice ops → ⊥) }

    // They can be handed to `Group::close`.
    ensures fit { IfOk result (λ g. AreGenerators g.ops.items) }
{
    match symbol_of(text) {
        Some(generators) => Ok(generators),
        None => Err(BadHall),
    }
}
