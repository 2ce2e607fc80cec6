//! Reads rows from standard input and prints each with its answers, which `stdout` holds as another
//! exact program worked them out. A row is a field and one or two of its numbers:
//!
//! - `K24 A B C D N | A B C D N`: (A + B r2 + C r3 + D r6) / N, where r2 is the square root of 2
//! - `Z24 A0 .. A7 N | A0 .. A7 N`: (A0 + A1 z + .. + A7 z^7) / N, where z is exp(2 pi i / 24)
//!
//! Of one number x the text is printed; of two, x and y, also x + y, x - y, x y and 1 / x, and over
//! Z24 the conjugate of x and its real and imaginary part.
#![tactic(auto)]

mod answers;
mod numbers;
mod row;

use std::io;
use std::io::{ErrorKind, Write};

fn main(rt: HostRuntime) -> io::Result<()> {
    let alloc = rt.alloc();
    let mut out = rt.stdout();
    for line in rt.lines(alloc) {
        let Ok(text) = row::answer(alloc, line?.as_str()) else {
            return Err(io::Error::from(ErrorKind::OutOfMemory));
        };
        out.write_all(text.as_slice())?;
    }
    Ok(())
}
