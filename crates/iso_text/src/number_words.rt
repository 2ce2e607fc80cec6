// Numbers in words.
ghost use Rattle.std.specs.Prelude.{◌≡◌, ◌<◌, ◌≤◌, IfSome, IfOk, List, length, MatchOption};
ghost use Rattle.iso_text.specs.Numbers.{power_of_z, root_of, unit_of, coefficient_of, term, alone, product_of, term_of, signed_term_of, terms_of, number_of};
ghost use Rattle.iso_text.specs.SumSpellings.{SpellsTerm, SpellsNumber};
ghost use Rattle.iso_text.specs.declared.numbers.Term.{Term};

use crate::NoMemory;
use crate::cuts::{Mark, first_cut, split_at_mark};
use crate::digits::{ratio, whole};
use crate::fractions::signed_small;
use crate::numbers::{NumText, Term, Unit};
use std::alloc::Global;

/// The most terms of a number.
pub const MAX_TERMS: usize = 16;

fn power_of_z(power: u32) -> Option<Unit>
    ensures { result ≡ power_of_z power }
{
    if power < 24 {
        Some(Unit::Z(power as u8))
    } else {
        None
    }
}

fn root(text: &[u8]) -> Option<Unit>
    ensures { result ≡ root_of text.now }
{
    match text {
        [b'2'] => Some(Unit::R2),
        [b'3'] => Some(Unit::R3),
        [b'6'] => Some(Unit::R6),
        _ => None,
    }
}

fn unit(text: &[u8]) -> Option<Unit>
    ensures { result ≡ unit_of text.now }
{
    match text {
        [b'z', power @ ..] => power_of_z(whole(power, 2)?),
        [b'r', of @ ..] => root(of),
        [b'i'] => Some(Unit::I),
        _ => None,
    }
}

fn coefficient(text: &[u8]) -> Option<(u32, u8)>
    ensures value { result ≡ coefficient_of text.now }
    ensures small { IfSome result (λ r. r.0 ≤ 10000) }
{
    let (num, den) = ratio(text, 5)?;
    if num <= 10_000 {
        Some((num, den))
    } else {
        None
    }
}

fn with_sign(negative: bool, coefficient: (u32, u8), unit: Unit) -> Term
    requires { coefficient.0 ≤ 10000 }
    ensures { result ≡ term negative coefficient unit }
{
    let num = signed_small(negative, coefficient.0);
    Term {
        num,
        den: coefficient.1,
        unit,
    }
}

// A unit or a coefficient alone.
fn alone(negative: bool, unit: Option<Unit>, text: &[u8]) -> Option<Term>
    ensures { result ≡ alone negative unit text.now }
{
    match unit {
        Some(unit) => Some(with_sign(negative, (1, 1), unit)),
        None => Some(with_sign(negative, coefficient(text)?, Unit::One)),
    }
}

// What stands before a `*`, and the rest from there on.
fn product(negative: bool, text: &[u8], rest: &[u8]) -> Option<Term>
    ensures { result ≡ product_of negative text.now rest.now }
{
    match rest {
        [] => alone(negative, unit(text), text),
        [_, behind @ ..] => {
            let coefficient = coefficient(text)?;
            let unit = unit(behind)?;
            Some(with_sign(negative, coefficient, unit))
        }
    }
}

fn term(negative: bool, text: &[u8]) -> Option<Term>
    ensures value { result ≡ term_of negative text.now }
    ensures spelled { MatchOption result ((t : Term) → SpellsTerm negative text.now t → ⊥) (λ t. SpellsTerm negative text.now t) }
{
    let (front, back) = split_at_mark(text, Mark::Byte(b'*'));
    product(negative, front, back)
}

fn signed_term(text: &[u8]) -> Option<Term>
    ensures { result ≡ signed_term_of text.now }
{
    match text {
        [] => None,
        [b'-', behind @ ..] => term(true, behind),
        [b'+', behind @ ..] => term(false, behind),
        _ => term(false, text),
    }
}

fn parse_number(alloc: Global, text: &[u8]) -> Result<Option<NumText>, NoMemory>
    ensures { IfOk result (λ number. number ≡ number_of text.now) }
{
    let mut terms = Vec::new(alloc);
    let mut rest = text;
    while !rest.is_empty() {
        if terms.len() == MAX_TERMS {
            return Ok(None);
        }
        let (part, behind) = first_cut(rest);
        match signed_term(part) {
            None => return Ok(None),
            Some(term) => match terms.push(term) {
                Ok(()) => {}
                Err(_) => return Err(NoMemory),
            },
        }
        rest = behind;
    }
    if terms.is_empty() {
        return Ok(None);
    }
    Ok(Some(NumText::from_vec(terms)))
}

/// The number that a text is: 1 to 16 terms, each but the first with a sign before it.
pub fn number(alloc: Global, text: &[u8]) -> Result<Option<NumText>, NoMemory>
    ensures value { IfOk result (λ number. number ≡ number_of text.now) }
    ensures spelled { IfOk result (λ number. MatchOption number ((ts : List Term) → SpellsNumber text.now ts → ⊥) (λ ts. SpellsNumber text.now ts)) }
{
    parse_number(alloc, text)
}
