//! Reads rows from standard input and prints each with its answer, which `stdout` holds as it was
//! worked out beforehand. A row is the words of one case between bars:
//!
//! - `symbol | TEXT`: the lattice and the generators of a Hall symbol, or `bad`
//! - `fronts | TEXT`: the lengths of the fronts of the text that are Hall symbols
//! - `group | SYMBOL`: the operations of its group, one a line, or why there is none
//! - `lattice | SYMBOL | T`: whether T, in twelfths, is a translation of its lattice
//! - `vector | K`: whether three fractions are a wave vector
//! - `star | SYMBOL | K`: the numbers of the arms and of the rotations of the little group
//! - `arms | SYMBOL | K`: the little group, and each arm with the operation that gives it
//! - `power | SYMBOL | K | T`: the power of exp(2 pi i / 24) that is exp(-2 pi i k.t)
//! - `cell | SYMBOL | D; D`: the supercell of wave vectors with these denominators
//! - `order | SYMBOL | D; D`: the order of the quotient by that supercell
//! - `quotient | SYMBOL | D; D`: also the number of its translations, and its generators
//! - `translations | SYMBOL | D; D`: the translations inside the supercell
//! - `demo | NUMBER`: the lines and bytes of a demo file, and its bytes as digits to the base 31,
//!   modulo 2^32
//! - `file | NUMBER`: a demo file as it is
//!
//! In a row `\n`, `\r`, `\t` and `\v` stand for the bytes of which they are the names in C.
#![tactic(auto)]

mod cells;
mod demos;
mod groups;
mod row;
mod stars;
mod symbols;
mod words;

use std::io;
use std::io::{ErrorKind, Write};

fn main(rt: HostRuntime) -> io::Result<()> {
    let alloc = rt.alloc();
    let mut out = rt.stdout();
    for line in rt.lines(alloc) {
        let Ok(text) = row::answer(alloc, line?.as_str()) else {
            return Err(io::Error::from(ErrorKind::OutOfMemory));
        };
        out.write_all(text.as_slice())?;
    }
    Ok(())
}
