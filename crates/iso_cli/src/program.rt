// What the program does with its standard streams.
ghost use Rattle.std.specs.Prelude.{◌≡◌, ◌⊎◌, IfOk, IsNone, map, string_bytes};
ghost use Rattle.iso_cli.specs.JobOf.{command_words, job_of, texts_of};

use crate::{Status, StdErr, StdOut, StdSource, isodist};
use iso_watch::{Tally, Watch};
use std::alloc::{AllocError, Global};
use std::io::{Read, Write};

// These arguments as words.
fn as_words(alloc: Global, arguments: &[String]) -> Result<Vec<&str>, AllocError>
    ensures { IfOk result (λ words. texts_of words.items ≡ map string_bytes arguments.now) }
{
    let mut words = Vec::new(alloc);
    for argument in arguments {
        words.push(argument.as_str())?;
    }
    Ok(words)
}

// The program's words, without its name.
fn words_of(alloc: Global, arguments: &[String]) -> Result<Vec<&str>, AllocError>
    ensures { IfOk result (λ words. texts_of words.items ≡ command_words arguments.now) }
{
    match arguments {
        [] => Ok(Vec::new(alloc)),
        [_, words @ ..] => as_words(alloc, words),
    }
}

/// The status of the program over its arguments, the first of which is its name, and the standard
/// streams. Its one watcher is a tally. Want of memory for the words or the tally is status 5 with
/// nothing said.
pub fn main_status<R: Read + Drop, W: Write + Drop, V: Write + Drop>(
    alloc: Global,
    arguments: &[String],
    input: R,
    output: W,
    errors: V,
) -> Status
    // Words that name no job are usage, whatever the streams do, and no other words are.
    ensures usage { IsNone (job_of (command_words arguments.now)) → (result ≡ Status.Usage) ⊎ (result ≡ Status.NoMemory) }
    ensures usage_only { result ≡ Status.Usage → IsNone (job_of (command_words arguments.now)) }
{
    let Ok(words) = words_of(alloc, arguments) else {
        return Status::NoMemory;
    };
    let mut source = StdSource::new(input);
    let mut out = StdOut::new(output);
    let mut err = StdErr::new(errors);
    let mut watchers: Vec<Box<dyn Watch>> = Vec::new(alloc);
    let Ok(tally) = Box::new(alloc, Tally::new()) else {
        return Status::NoMemory;
    };
    if watchers.push(tally).is_err() {
        return Status::NoMemory;
    }
    isodist(
        alloc,
        words.as_slice(),
        &mut source,
        &mut out,
        &mut err,
        watchers,
    )
}
