//! Reads cases from standard input and prints what the reader of files answers to each, which
//! `stdout` holds as it was worked out beforehand. A case is a head and the lines of its file:
//!
//! - `%% file`: all that the file says, or `bad` and the number of its first bad line
//! - `%% line`: `read`, or `bad` and the number
//! - `%% words W W ..`: for each word what the file says with the word for each `?`; words are apart
//!   by one blank, so that two blanks stand round an empty one
//! - `%% bytes`: for each byte in turn the number of the first bad line with that byte for each `?`,
//!   0 where the file is read
//! - `%% cuts`: the same numbers of the file without its last 0, 1, 2 and more bytes
//!
//! In a line `\r`, `\t` and `\n` stand for the bytes of which they are the names in C, and `\xff` for
//! the byte of these two digits; a `\` at its end takes its line end away. A line `%N LINE` stands
//! for that line N times.
#![tactic(auto)]

mod case;
mod document;
mod numbers;
mod template;

use std::io;
use std::io::{ErrorKind, Read, Write};

fn main(rt: HostRuntime) -> io::Result<()> {
    let alloc = rt.alloc();
    let mut cases = String::new(alloc);
    rt.stdin().read_to_string(&mut cases)?;
    let mut out = rt.stdout();
    for case in cases.split("%% ").skip(1) {
        let Ok(text) = case::answer(alloc, case) else {
            return Err(io::Error::from(ErrorKind::OutOfMemory));
        };
        out.write_all(text.as_slice())?;
    }
    Ok(())
}
