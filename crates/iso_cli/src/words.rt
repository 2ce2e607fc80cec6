// The job of the words.
ghost use Rattle.std.specs.Prelude.{◌≡◌, IfOk, IfSome, List};
ghost use Rattle.clap.specs.Faults.{fault_of};
ghost use Rattle.clap.specs.Kinds.{HasKind};
ghost use Rattle.iso_report.specs.Jobs.{HasNumber};
ghost use Rattle.iso_cli.specs.Options.{Text};
ghost use Rattle.iso_cli.specs.Commands.{Texts, demo_job, job_by, job_named, modes_job};
ghost use Rattle.iso_cli.specs.Values.{IsValues};
ghost use Rattle.iso_cli.specs.CommandLine.{program, texts_in};
ghost use Rattle.iso_cli.specs.JobOf.{IsMeaning, job_of, texts_of};

use crate::command_line::find_matches;
use crate::values::{Values, read_values, text};
use clap::error::ErrorKind;
use clap::{ArgMatches, Error};
use extra_modes::Nature;
use iso_report::Job;
use iso_text::{Name, NoMemory};
use std::alloc::Global;

// How many demo files there are.
const DEMO_FILES: u64 = 64;

// The job of `modes`; an irrep wants a direction beside it.
fn modes_job(irrep: Option<Name>, direction: Option<u64>) -> Option<Job>
    ensures job { result ≡ modes_job irrep direction }
    ensures number { IfSome result HasNumber }
{
    match (irrep, direction) {
        (irrep, Some(n)) => Some(Job::Modes {
            direction: Some((irrep, n)),
        }),
        (None, None) => Some(Job::Modes { direction: None }),
        (Some(_), None) => None,
    }
}

// The job of `demo`.
fn demo_job(number: u64) -> Option<Job>
    ensures job { result ≡ demo_job number }
    ensures number { IfSome result HasNumber }
{
    if number < DEMO_FILES {
        Some(Job::Demo {
            number: number as u8,
        })
    } else {
        None
    }
}

// The job of occupations or axial vectors.
fn extra_job(nature: Nature, amps: bool) -> Job
    ensures job { result ≡ Job.Extra nature amps }
    ensures number { HasNumber result }
{
    Job::Extra { nature, amps }
}

// The job of a command with what its options give.
fn job_named(command: &str, values: Values) -> Option<Job>
    ensures job { (given : Texts) → IsValues given values → result ≡ job_named given command.now }
    ensures number { IfSome result HasNumber }
{
    let Values {
        irrep,
        direction,
        after,
        count,
        number,
        tally,
        other,
    } = values;
    let after = after.unwrap_or(0);
    match command {
        "check" => Some(Job::Check),
        "list" => Some(Job::List {
            irrep,
            after,
            count,
            tally,
        }),
        "modes" => modes_job(irrep, direction),
        "amps" => Some(Job::Amps),
        "demo" => demo_job(number?),
        "couple" => Some(Job::Couple {
            irrep,
            other: other?,
            after,
            count,
        }),
        "link" => Some(Job::Link {
            irrep,
            other: other?,
        }),
        "occ" => Some(extra_job(Nature::Occupation, false)),
        "axial" => Some(extra_job(Nature::Axial, false)),
        "occ-amps" => Some(extra_job(Nature::Occupation, true)),
        "axial-amps" => Some(extra_job(Nature::Axial, true)),
        "apart" => Some(Job::Apart),
        _ => None,
    }
}

// The job of what `clap` found.
fn job(found: &ArgMatches<'_>) -> Option<Job>
    ensures job { result ≡ job_by (texts_in found.now) }
    ensures number { IfSome result HasNumber }
{
    let command = text(found, "command")?;
    match read_values(found, command) {
        Some(values) => job_named(command, values),
        None => None,
    }
}

// The answer where `clap` refuses the words: usage, if it was not for want of memory.
fn refused(error: &Error) -> Result<Option<Job>, NoMemory>
    ensures job { (words : List Text) → HasKind (fault_of program words) error.now → IfOk result (λ job. job ≡ job_of words) }
    ensures number { IfOk result (λ job. IfSome job HasNumber) }
{
    if error.kind() == ErrorKind::OutOfMemory {
        Err(NoMemory)
    } else {
        Ok(None)
    }
}

/// The job that the words name, or none where they are usage.
pub(crate) fn read_words(alloc: Global, words: &[&str]) -> Result<Option<Job>, NoMemory>
    ensures value { IfOk result (λ job. job ≡ job_of (texts_of words.now)) }
    ensures means { IfOk result (IsMeaning (texts_of words.now)) }
    ensures number { IfOk result (λ job. IfSome job HasNumber) }
{
    match find_matches(alloc, words) {
        Ok(found) => Ok(job(&found)),
        Err(error) => refused(&error),
    }
}
