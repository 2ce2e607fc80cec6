// The top call.
ghost use Rattle.std.specs.Prelude.{◌≡◌, ◌≢◌, ◌+◌, ◌<◌, ◌≤◌, ◌⊎◌, [], Some, IfNone, IfSome, IsNone, IsSome, List, ℕ, length, map};
ghost use Rattle.iso_text.specs.Counts.{HasRisen, raised};
ghost use Rattle.iso_text.specs.Streams.{IsRestOf};
ghost use Rattle.iso_report.specs.Endings.{change};
ghost use Rattle.iso_report.specs.Outcome.{HasOutcome, report, refused};
ghost use Rattle.report_steps.specs.Report.{line_of};
ghost use Rattle.iso_report.specs.Jobs.{HasNumber, generated};
ghost use Rattle.iso_cli.specs.Answers.{Answers, AnswersUsage, IsNarrow, IsNotWide, Says, SaysRefusal};
ghost use Rattle.iso_cli.specs.Reading.{reading_job_of, taken_by};
ghost use Rattle.iso_cli.specs.JobOf.{job_of, texts_of};

use crate::Status;
use crate::usage::usage_line;
use crate::words::read_words;
use iso_report::{Job, Refusal, RunError, law_of_outcomes, refusal_line, run};
use iso_text::{MAX_BYTES, Sink, Source, TakeError, put_all, take_all};
use iso_watch::Watch;
use std::alloc::Global;

const READ_FAILED: &str = "isodist: read failed\n";

const WRITE_FAILED: &str = "isodist: write failed\n";

const OUT_OF_MEMORY: &str = "isodist: out of memory\n";

const TOO_LONG: &str = "isodist: refused: file is longer than 1048576 bytes\n";

// Writes a line on err, and gives the status. A fault there changes no status.
fn say<E: Sink>(err: &mut E, line: &[u8], status: Status) -> Status
    ensures status { result ≡ status }
    ensures says { Says line.now (change (E.written err.old) (E.written err.new) (E.faults err.old) (E.faults err.new)) }
{
    let _ = put_all(err, line);
    status
}

// Writes the line of a refusal on err.
fn refuse<E: Sink>(alloc: Global, refusal: &Refusal, err: &mut E) -> Status
    ensures { SaysRefusal refusal.now result (change (E.written err.old) (E.written err.new) (E.faults err.old) (E.faults err.new)) }
{
    match refusal_line(alloc, refusal) {
        Ok(line) => say(err, line.as_slice(), Status::Refused),
        Err(_) => say(err, OUT_OF_MEMORY.as_bytes(), Status::NoMemory),
    }
}

// Answers a job over the bytes that it takes.
fn answer<O: Sink, E: Sink>(
    alloc: Global,
    job: Job,
    bytes: &[u8],
    out: &mut O,
    err: &mut E,
    watchers: &mut Vec<Box<dyn Watch>>,
) -> Status
    requires number { HasNumber job }
    requires few { length bytes.now ≤ MAX_BYTES }
    ensures answers { Answers job (map (λ w. watcher w) watchers.old.items) bytes.now result
        (change (O.written out.old) (O.written out.new) (O.faults out.old) (O.faults out.new))
        (change (E.written err.old) (E.written err.new) (E.faults err.old) (E.faults err.new)) }
    ensures refused { result ≡ Status.Refused → (r : Refusal) × Says (line_of r) (change (E.written err.old) (E.written err.new) (E.faults err.old) (E.faults err.new)) }
    ensures refused_out { result ≡ Status.Refused → out.new ≡ out.old }
    ensures write_fault { result ≡ Status.WriteFault → HasRisen (O.faults out.old) (O.faults out.new) }
    ensures no_read_fault { result ≢ Status.ReadFault }
    ensures no_usage { result ≢ Status.Usage }
{
    match run(alloc, &job, bytes, watchers, out) {
        Ok(()) => Status::Done,
        Err(RunError::Refused(refusal)) => refuse(alloc, &refusal, err),
        Err(RunError::WriteFault) => say(err, WRITE_FAILED.as_bytes(), Status::WriteFault),
        Err(RunError::NoMemory) => say(err, OUT_OF_MEMORY.as_bytes(), Status::NoMemory),
    }
}

// Answers a job over what is left of the source.
fn answer_source<S: Source, O: Sink, E: Sink>(
    alloc: Global,
    job: Job,
    source: &mut S,
    out: &mut O,
    err: &mut E,
    watchers: &mut Vec<Box<dyn Watch>>,
) -> Status
    requires number { HasNumber job }
    ensures answers { IfSome (S.left source.old) (λ bytes. Answers job (map (λ w. watcher w) watchers.old.items) bytes result
        (change (O.written out.old) (O.written out.new) (O.faults out.old) (O.faults out.new))
        (change (E.written err.old) (E.written err.new) (E.faults err.old) (E.faults err.new))) }
    ensures refused_out { result ≡ Status.Refused → out.new ≡ out.old }
    ensures read_fault_out { result ≡ Status.ReadFault → out.new ≡ out.old }
    ensures read_fault { result ≡ Status.ReadFault → HasRisen (S.faults source.old) (S.faults source.new) }
    ensures write_fault { result ≡ Status.WriteFault → HasRisen (O.faults out.old) (O.faults out.new) }
    ensures no_usage { result ≢ Status.Usage }
    ensures drained { result ≡ Status.Done → IfSome (S.left source.old) (λ _. S.left source.new ≡ Some []) }
    ensures refused { result ≡ Status.Refused → IfSome (S.left source.old) (λ bytes. (MAX_BYTES < length bytes) ⊎ (S.left source.new ≡ Some [])) }
    ensures too_long { result ≡ Status.Refused → (S.taken source.new ≡ raised (MAX_BYTES + 1) (S.taken source.old)) ⊎ ((r : Refusal) × Says (line_of r) (change (E.written err.old) (E.written err.new) (E.faults err.old) (E.faults err.new))) }
    ensures taken { S.taken source.new ≤ S.taken source.old + (MAX_BYTES + 1) }
    ensures rest { IsRestOf (S.left source.old) (S.left source.new) }
{
    match take_all(alloc, source) {
        Ok(bytes) => answer(alloc, job, &bytes, out, err, watchers),
        Err(TakeError::ReadFault) => say(err, READ_FAILED.as_bytes(), Status::ReadFault),
        Err(TakeError::TooLong) => say(err, TOO_LONG.as_bytes(), Status::Refused),
        Err(TakeError::NoMemory) => say(err, OUT_OF_MEMORY.as_bytes(), Status::NoMemory),
    }
}

// Answers a job: with the source left unread, where it is about a generated file.
fn answer_job<S: Source, O: Sink, E: Sink>(
    alloc: Global,
    job: Job,
    source: &mut S,
    out: &mut O,
    err: &mut E,
    watchers: &mut Vec<Box<dyn Watch>>,
) -> Status
    requires number { HasNumber job }
    ensures answers { IfSome (taken_by job (S.left source.old)) (λ bytes. Answers job (map (λ w. watcher w) watchers.old.items) bytes result
        (change (O.written out.old) (O.written out.new) (O.faults out.old) (O.faults out.new))
        (change (E.written err.old) (E.written err.new) (E.faults err.old) (E.faults err.new))) }
    ensures unread { IsSome (generated job) → source.new ≡ source.old }
    ensures no_read_fault { IsSome (generated job) → result ≢ Status.ReadFault }
    ensures refused_out { result ≡ Status.Refused → out.new ≡ out.old }
    ensures read_fault_out { result ≡ Status.ReadFault → out.new ≡ out.old }
    ensures read_fault { result ≡ Status.ReadFault → HasRisen (S.faults source.old) (S.faults source.new) }
    ensures write_fault { result ≡ Status.WriteFault → HasRisen (O.faults out.old) (O.faults out.new) }
    ensures no_usage { result ≢ Status.Usage }
    ensures drained { result ≡ Status.Done → IfNone (generated job) (IfSome (S.left source.old) (λ _. S.left source.new ≡ Some [])) }
    ensures refused { result ≡ Status.Refused → IfNone (generated job) (IfSome (S.left source.old) (λ bytes. (MAX_BYTES < length bytes) ⊎ (S.left source.new ≡ Some []))) }
    ensures too_long { result ≡ Status.Refused → (S.taken source.new ≡ raised (MAX_BYTES + 1) (S.taken source.old)) ⊎ ((r : Refusal) × Says (line_of r) (change (E.written err.old) (E.written err.new) (E.faults err.old) (E.faults err.new))) }
    ensures taken { S.taken source.new ≤ S.taken source.old + (MAX_BYTES + 1) }
    ensures rest { IsRestOf (S.left source.old) (S.left source.new) }
{
    match job.generated() {
        Some(_) => answer(alloc, job, b"", out, err, watchers),
        None => answer_source(alloc, job, source, out, err, watchers),
    }
}

// Answers the words over the source, with the watchers lent.
fn answer_words<'a, S: Source, O: Sink, E: Sink>(
    alloc: Global,
    words: &'a [&'a str],
    source: &mut S,
    out: &mut O,
    err: &mut E,
    watchers: &mut Vec<Box<dyn Watch>>,
) -> Status
    // Words that name no job are usage.
    ensures usage { IsNone (job_of (texts_of words.now)) → AnswersUsage result
        (change (O.written out.old) (O.written out.new) (O.faults out.old) (O.faults out.new))
        (change (E.written err.old) (E.written err.new) (E.faults err.old) (E.faults err.new)) }
    ensures usage_only { result ≡ Status.Usage → IsNone (job_of (texts_of words.now)) }

    // Without a job that is about the file of the source, the source is left unread.
    ensures unread { IsNone (reading_job_of (texts_of words.now)) → source.new ≡ source.old }
    ensures no_read_fault { IsNone (reading_job_of (texts_of words.now)) → result ≢ Status.ReadFault }
    ensures unwritten { IsNone (job_of (texts_of words.now)) → out.new ≡ out.old }

    // A job is answered as the definitions say of the watchers and of all the bytes that it takes.
    ensures job { IfSome (job_of (texts_of words.now)) (λ job. IfSome (taken_by job (S.left source.old)) (λ bytes. Answers job (map (λ w. watcher w) watchers.old.items) bytes result
        (change (O.written out.old) (O.written out.new) (O.faults out.old) (O.faults out.new))
        (change (E.written err.old) (E.written err.new) (E.faults err.old) (E.faults err.new)))) }

    // Where the definitions give a report of few enough bytes, and no number passes its bound, these are
    // not refused; where they refuse the bytes, besides such a number, no report is written, whole or in
    // part.
    ensures complete { IfSome (job_of (texts_of words.now)) (λ job. IfSome (taken_by job (S.left source.old)) (λ bytes.
        length bytes ≤ MAX_BYTES → IsNarrow job (map (λ w. watcher w) watchers.old.items) bytes → (r : List ℕ) → HasOutcome job (map (λ w. watcher w) watchers.old.items) bytes (report r) → result ≢ Status.Refused)) }
    ensures sound { IfSome (job_of (texts_of words.now)) (λ job. IfSome (taken_by job (S.left source.old)) (λ bytes.
        (r : Refusal) → IsNotWide r → HasOutcome job (map (λ w. watcher w) watchers.old.items) bytes (refused r) → (result ≢ Status.Done) × (result ≢ Status.WriteFault))) }

    // Over all streams: out is as it was after a refusal and a read fault, and each fault has its count.
    ensures refused_out { result ≡ Status.Refused → out.new ≡ out.old }
    ensures read_fault_out { result ≡ Status.ReadFault → out.new ≡ out.old }
    ensures read_fault { result ≡ Status.ReadFault → HasRisen (S.faults source.old) (S.faults source.new) }
    ensures write_fault { result ≡ Status.WriteFault → HasRisen (O.faults out.old) (O.faults out.new) }

    // What a job about the file of the source has read: all that was left, but of a file that is too long.
    ensures drained { result ≡ Status.Done → IfSome (reading_job_of (texts_of words.now)) (λ _. IfSome (S.left source.old) (λ _. S.left source.new ≡ Some [])) }
    ensures refused { result ≡ Status.Refused → IfSome (reading_job_of (texts_of words.now)) (λ _. IfSome (S.left source.old) (λ bytes. (MAX_BYTES < length bytes) ⊎ (S.left source.new ≡ Some []))) }
    ensures too_long { result ≡ Status.Refused → (S.taken source.new ≡ raised (MAX_BYTES + 1) (S.taken source.old)) ⊎ ((r : Refusal) × Says (line_of r) (change (E.written err.old) (E.written err.new) (E.faults err.old) (E.faults err.new))) }
    ensures taken { S.taken source.new ≤ S.taken source.old + (MAX_BYTES + 1) }
    ensures rest { IsRestOf (S.left source.old) (S.left source.new) }
{
    match read_words(alloc, words) {
        Ok(Some(job)) => {
            law_of_outcomes();
            answer_job(alloc, job, source, out, err, watchers)
        }
        Ok(None) => say(err, usage_line().as_bytes(), Status::Usage),
        Err(_) => say(err, OUT_OF_MEMORY.as_bytes(), Status::NoMemory),
    }
}

/// Answers the words over the source: the report of the definitions on out, or one line on err.
/// `words` are without the program's name. `list` tells each watcher of each direction of its page, and
/// prints their lines where a tally is wanted; the watchers are dropped.
///
/// Where a read or a write failed, the status may say so; a fault on err changes no status.
pub fn isodist<'a, S: Source, O: Sink, E: Sink>(
    alloc: Global,
    words: &'a [&'a str],
    source: &mut S,
    out: &mut O,
    err: &mut E,
    mut watchers: Vec<Box<dyn Watch>>,
) -> Status
    // Words that name no job are usage.
    ensures usage { IsNone (job_of (texts_of words.now)) → AnswersUsage result
        (change (O.written out.old) (O.written out.new) (O.faults out.old) (O.faults out.new))
        (change (E.written err.old) (E.written err.new) (E.faults err.old) (E.faults err.new)) }
    ensures usage_only { result ≡ Status.Usage → IsNone (job_of (texts_of words.now)) }

    // Without a job that is about the file of the source, the source is left unread.
    ensures unread { IsNone (reading_job_of (texts_of words.now)) → source.new ≡ source.old }
    ensures no_read_fault { IsNone (reading_job_of (texts_of words.now)) → result ≢ Status.ReadFault }
    ensures unwritten { IsNone (job_of (texts_of words.now)) → out.new ≡ out.old }

    // A job is answered as the definitions say of the watchers and of all the bytes that it takes.
    ensures job { IfSome (job_of (texts_of words.now)) (λ job. IfSome (taken_by job (S.left source.old)) (λ bytes. Answers job (map (λ w. watcher w) watchers.items) bytes result
        (change (O.written out.old) (O.written out.new) (O.faults out.old) (O.faults out.new))
        (change (E.written err.old) (E.written err.new) (E.faults err.old) (E.faults err.new)))) }

    // Where the definitions give a report of few enough bytes, and no number passes its bound, these are
    // not refused; where they refuse the bytes, besides such a number, no report is written, whole or in
    // part.
    ensures complete { IfSome (job_of (texts_of words.now)) (λ job. IfSome (taken_by job (S.left source.old)) (λ bytes.
        length bytes ≤ MAX_BYTES → IsNarrow job (map (λ w. watcher w) watchers.items) bytes → (r : List ℕ) → HasOutcome job (map (λ w. watcher w) watchers.items) bytes (report r) → result ≢ Status.Refused)) }
    ensures sound { IfSome (job_of (texts_of words.now)) (λ job. IfSome (taken_by job (S.left source.old)) (λ bytes.
        (r : Refusal) → IsNotWide r → HasOutcome job (map (λ w. watcher w) watchers.items) bytes (refused r) → (result ≢ Status.Done) × (result ≢ Status.WriteFault))) }

    // Over all streams: out is as it was after a refusal and a read fault, and each fault has its count.
    ensures refused_out { result ≡ Status.Refused → out.new ≡ out.old }
    ensures read_fault_out { result ≡ Status.ReadFault → out.new ≡ out.old }
    ensures read_fault { result ≡ Status.ReadFault → HasRisen (S.faults source.old) (S.faults source.new) }
    ensures write_fault { result ≡ Status.WriteFault → HasRisen (O.faults out.old) (O.faults out.new) }

    // What a job about the file of the source has read: all that was left, but of a file that is too long.
    ensures drained { result ≡ Status.Done → IfSome (reading_job_of (texts_of words.now)) (λ _. IfSome (S.left source.old) (λ _. S.left source.new ≡ Some [])) }
    ensures refused { result ≡ Status.Refused → IfSome (reading_job_of (texts_of words.now)) (λ _. IfSome (S.left source.old) (λ bytes. (MAX_BYTES < length bytes) ⊎ (S.left source.new ≡ Some []))) }
    ensures too_long { result ≡ Status.Refused → (S.taken source.new ≡ raised (MAX_BYTES + 1) (S.taken source.old)) ⊎ ((r : Refusal) × Says (line_of r) (change (E.written err.old) (E.written err.new) (E.faults err.old) (E.faults err.new))) }
    ensures taken { S.taken source.new ≤ S.taken source.old + (MAX_BYTES + 1) }
    ensures rest { IsRestOf (S.left source.old) (S.left source.new) }
{
    answer_words(alloc, words, source, out, err, &mut watchers)
}
