//! Reads cases from standard input and prints what the program answers to each, which `stdout` holds
//! as it was worked out beforehand.
//!
//! A case is a line `%% WORDS` and the lines of its file. `''` among the words is an empty one, and
//! two blanks are as one, so that `%%  | ..` has no words. `%% WORDS | PIECE CALL | PIECE CALL | ..`
//! gives the source, the sink of the report and that of the refusals in pieces of so many bytes, of
//! which that call fails, none where it is 0. A `\` at the end of the last line takes its line end
//! away. The answer is the status, what was written, and behind `-- err` what was said.
#![tactic(auto)]

mod case;

use std::io;
use std::io::{ErrorKind, Read, Write};

fn main(rt: HostRuntime) -> io::Result<()> {
    let alloc = rt.alloc();
    let mut cases = String::new(alloc);
    rt.stdin().read_to_string(&mut cases)?;
    let mut out = rt.stdout();
    for case in cases.split("%% ").skip(1) {
        let Ok(text) = case::answer(alloc, case) else {
            return Err(io::Error::from(ErrorKind::OutOfMemory));
        };
        out.write_all(text.as_slice())?;
    }
    Ok(())
}
