// A job over the bytes of a source.
ghost use Rattle.std.specs.Prelude.{◌≡◌, ◌<◌, ◌≤◌, [], ℕ, List, length, map, IsErrOf};
ghost use Rattle.iso_report.specs.Endings.{Ends, change, left};
ghost use Rattle.iso_report.specs.Jobs.{HasNumber};
ghost use Rattle.iso_text.specs.Ranges.{IsInRange};
ghost use Rattle.report_steps.specs.HeldFiles.{AreStarsHeld, AreCellsHeld, AreRepsHeld, AreInducedHeld};
ghost use Rattle.iso_report.specs.Outcome.{IsFound, AfterText, AfterParent, AfterPhases, AfterOrder, AfterReps, IsFoundIn, IsOutcome};
ghost use Rattle.demo_files.specs.Demo.{IsDemoFile};

use crate::found::{
    found_along, found_amplitudes, found_apart, found_checked, found_couple, found_demo,
    found_extra, found_extra_amps, found_link, found_listing, found_modes,
};
use crate::job::Job;
use crate::run_error::RunError;
use demo_files::{demo_file, law_of_demo_files};
use extra_modes::Nature;
use iso_text::{Document, MAX_BYTES, Name, Sink};
use iso_watch::Watch;
use report_steps::{
    Celled, InducedFile, Parented, Refusal, Represented, Starred, Step, divide, induced_of,
    parent_of, read_file, reps_of, stars_of,
};
use std::alloc::Global;

// The modes of all orbits, or those that a direction allows.
fn after_modes<O: Sink>(
    alloc: Global,
    direction: Option<(Option<Name>, u64)>,
    file: InducedFile,
    out: &mut O,
) -> Result<(), RunError>
    requires held { AreInducedHeld file }
    requires ranged { IsInRange file.divided.file }
    ensures answer { Ends (IsFound (Job.Modes direction) [] [] file.divided) (left (change (O.written out.old) (O.written out.new) (O.faults out.old) (O.faults out.new)) [] []) result }
    ensures untouched { (r : Refusal) → IsErrOf result (RunError.Refused r) → out.new ≡ out.old }
    ensures faults { O.faults out.old ≤ O.faults out.new }
{
    match direction {
        None => found_modes(alloc, file, out),
        Some((wanted, number)) => found_along(alloc, file, wanted, number, out),
    }
}

// The modes of occupations or axial vectors, or their amplitudes.
fn after_extra<O: Sink>(
    alloc: Global,
    nature: Nature,
    amps: bool,
    file: InducedFile,
    out: &mut O,
) -> Result<(), RunError>
    requires held { AreInducedHeld file }
    requires ranged { IsInRange file.divided.file }
    ensures answer { Ends (IsFound (Job.Extra nature amps) [] [] file.divided) (left (change (O.written out.old) (O.written out.new) (O.faults out.old) (O.faults out.new)) [] []) result }
    ensures untouched { (r : Refusal) → IsErrOf result (RunError.Refused r) → out.new ≡ out.old }
    ensures faults { O.faults out.old ≤ O.faults out.new }
{
    if amps {
        found_extra_amps(alloc, file, nature, out)
    } else {
        found_extra(alloc, file, nature, out)
    }
}

// What is found behind the representations that the small ones induce.
fn after_induced<O: Sink>(
    alloc: Global,
    job: &Job,
    file: InducedFile,
    watchers: &mut [Box<dyn Watch>],
    out: &mut O,
) -> Result<(), RunError>
    requires held { AreInducedHeld file }
    requires ranged { IsInRange file.divided.file }
    ensures answer { Ends (IsFound job.now (map (λ w. watcher w) watchers.old) (map (λ w. watcher w) watchers.new) file.divided) (left (change (O.written out.old) (O.written out.new) (O.faults out.old) (O.faults out.new)) (map (λ w. watcher w) watchers.old) (map (λ w. watcher w) watchers.new)) result }
    ensures untouched { (r : Refusal) → IsErrOf result (RunError.Refused r) → out.new ≡ out.old }
    ensures faults { O.faults out.old ≤ O.faults out.new }
{
    match job {
        Job::Check => found_checked(alloc, file, out),
        Job::List {
            irrep,
            after,
            count,
            tally,
        } => found_listing(alloc, file, *irrep, *after, *count, *tally, watchers, out),
        Job::Modes { direction } => after_modes(alloc, *direction, file, out),
        Job::Amps => found_amplitudes(alloc, file, out),
        Job::Couple {
            irrep,
            other,
            after,
            count,
        } => found_couple(alloc, file, *irrep, *other, *after, *count, out),
        Job::Link { irrep, other } => found_link(alloc, file, *irrep, *other, out),
        Job::Extra { nature, amps } => after_extra(alloc, *nature, *amps, file, out),
        Job::Apart => found_apart(alloc, file, out),
        Job::Demo { number } => found_demo(alloc, file, *number, out),
    }
}

// What is found behind the small representations.
fn after_reps<O: Sink>(
    alloc: Global,
    job: &Job,
    represented: Represented,
    watchers: &mut [Box<dyn Watch>],
    out: &mut O,
) -> Result<(), RunError>
    requires held { AreRepsHeld represented }
    requires ranged { IsInRange represented.divided.file }
    ensures answer { Ends (AfterReps (IsFound job.now (map (λ w. watcher w) watchers.old) (map (λ w. watcher w) watchers.new)) represented.divided) (left (change (O.written out.old) (O.written out.new) (O.faults out.old) (O.faults out.new)) (map (λ w. watcher w) watchers.old) (map (λ w. watcher w) watchers.new)) result }
    ensures untouched { (r : Refusal) → IsErrOf result (RunError.Refused r) → out.new ≡ out.old }
    ensures faults { O.faults out.old ≤ O.faults out.new }
{
    match induced_of(alloc, represented) {
        Ok(Step::Passed(file)) => after_induced(alloc, job, file, watchers, out),
        Ok(Step::Refused(refusal)) => Err(RunError::Refused(refusal)),
        Err(_) => Err(RunError::NoMemory),
    }
}

// What is found behind the quotient.
fn after_order<O: Sink>(
    alloc: Global,
    job: &Job,
    celled: Celled,
    watchers: &mut [Box<dyn Watch>],
    out: &mut O,
) -> Result<(), RunError>
    requires held { AreCellsHeld celled }
    requires ranged { IsInRange celled.divided.file }
    ensures answer { Ends (AfterOrder (IsFound job.now (map (λ w. watcher w) watchers.old) (map (λ w. watcher w) watchers.new)) celled.divided) (left (change (O.written out.old) (O.written out.new) (O.faults out.old) (O.faults out.new)) (map (λ w. watcher w) watchers.old) (map (λ w. watcher w) watchers.new)) result }
    ensures untouched { (r : Refusal) → IsErrOf result (RunError.Refused r) → out.new ≡ out.old }
    ensures faults { O.faults out.old ≤ O.faults out.new }
{
    match reps_of(alloc, celled) {
        Ok(Step::Passed(represented)) => after_reps(alloc, job, represented, watchers, out),
        Ok(Step::Refused(refusal)) => Err(RunError::Refused(refusal)),
        Err(_) => Err(RunError::NoMemory),
    }
}

// What is found behind the wave vectors.
fn after_phases<O: Sink>(
    alloc: Global,
    job: &Job,
    starred: Starred,
    watchers: &mut [Box<dyn Watch>],
    out: &mut O,
) -> Result<(), RunError>
    requires held { AreStarsHeld starred }
    requires ranged { IsInRange starred.parented.file }
    ensures answer { Ends (AfterPhases (IsFound job.now (map (λ w. watcher w) watchers.old) (map (λ w. watcher w) watchers.new)) starred.parented) (left (change (O.written out.old) (O.written out.new) (O.faults out.old) (O.faults out.new)) (map (λ w. watcher w) watchers.old) (map (λ w. watcher w) watchers.new)) result }
    ensures untouched { (r : Refusal) → IsErrOf result (RunError.Refused r) → out.new ≡ out.old }
    ensures faults { O.faults out.old ≤ O.faults out.new }
{
    match divide(alloc, starred) {
        Ok(Step::Passed(celled)) => after_order(alloc, job, celled, watchers, out),
        Ok(Step::Refused(refusal)) => Err(RunError::Refused(refusal)),
        Err(_) => Err(RunError::NoMemory),
    }
}

// What is found behind the parent group.
fn after_parent<O: Sink>(
    alloc: Global,
    job: &Job,
    parented: Parented,
    watchers: &mut [Box<dyn Watch>],
    out: &mut O,
) -> Result<(), RunError>
    requires held { IsInRange parented.file }
    ensures answer { Ends (AfterParent (IsFound job.now (map (λ w. watcher w) watchers.old) (map (λ w. watcher w) watchers.new)) parented) (left (change (O.written out.old) (O.written out.new) (O.faults out.old) (O.faults out.new)) (map (λ w. watcher w) watchers.old) (map (λ w. watcher w) watchers.new)) result }
    ensures untouched { (r : Refusal) → IsErrOf result (RunError.Refused r) → out.new ≡ out.old }
    ensures faults { O.faults out.old ≤ O.faults out.new }
{
    match stars_of(alloc, parented) {
        Ok(Step::Passed(starred)) => after_phases(alloc, job, starred, watchers, out),
        Ok(Step::Refused(refusal)) => Err(RunError::Refused(refusal)),
        Err(_) => Err(RunError::NoMemory),
    }
}

// What is found behind the text.
fn after_text<O: Sink>(
    alloc: Global,
    job: &Job,
    document: Document,
    watchers: &mut [Box<dyn Watch>],
    out: &mut O,
) -> Result<(), RunError>
    requires held { IsInRange document }
    ensures answer { Ends (AfterText (IsFound job.now (map (λ w. watcher w) watchers.old) (map (λ w. watcher w) watchers.new)) document) (left (change (O.written out.old) (O.written out.new) (O.faults out.old) (O.faults out.new)) (map (λ w. watcher w) watchers.old) (map (λ w. watcher w) watchers.new)) result }
    ensures untouched { (r : Refusal) → IsErrOf result (RunError.Refused r) → out.new ≡ out.old }
    ensures faults { O.faults out.old ≤ O.faults out.new }
{
    match parent_of(alloc, document) {
        Ok(Step::Passed(parented)) => after_parent(alloc, job, parented, watchers, out),
        Ok(Step::Refused(refusal)) => Err(RunError::Refused(refusal)),
        Err(_) => Err(RunError::NoMemory),
    }
}

// What is found in the bytes of a file.
fn run_over<O: Sink>(
    alloc: Global,
    job: &Job,
    bytes: &[u8],
    watchers: &mut [Box<dyn Watch>],
    out: &mut O,
) -> Result<(), RunError>
    requires few { length bytes.now ≤ MAX_BYTES }
    ensures answer { Ends (IsFoundIn (IsFound job.now (map (λ w. watcher w) watchers.old) (map (λ w. watcher w) watchers.new)) bytes.now) (left (change (O.written out.old) (O.written out.new) (O.faults out.old) (O.faults out.new)) (map (λ w. watcher w) watchers.old) (map (λ w. watcher w) watchers.new)) result }
    ensures untouched { (r : Refusal) → IsErrOf result (RunError.Refused r) → out.new ≡ out.old }
    ensures faults { O.faults out.old ≤ O.faults out.new }
{
    match read_file(alloc, bytes) {
        Ok(Step::Passed(document)) => after_text(alloc, job, document, watchers, out),
        Ok(Step::Refused(refusal)) => Err(RunError::Refused(refusal)),
        Err(_) => Err(RunError::NoMemory),
    }
}

// What is found in the generated file of a number.
fn run_generated<O: Sink>(
    alloc: Global,
    job: &Job,
    number: u8,
    watchers: &mut [Box<dyn Watch>],
    out: &mut O,
) -> Result<(), RunError>
    requires number { number < 64 }
    ensures answer { Ends (λ f. (bytes : List ℕ) × IsDemoFile number bytes × IsFoundIn (IsFound job.now (map (λ w. watcher w) watchers.old) (map (λ w. watcher w) watchers.new)) bytes f) (left (change (O.written out.old) (O.written out.new) (O.faults out.old) (O.faults out.new)) (map (λ w. watcher w) watchers.old) (map (λ w. watcher w) watchers.new)) result }
    ensures untouched { (r : Refusal) → IsErrOf result (RunError.Refused r) → out.new ≡ out.old }
    ensures faults { O.faults out.old ≤ O.faults out.new }
{
    law_of_demo_files();
    match demo_file(alloc, number) {
        Ok(text) => run_over(alloc, job, text.as_slice(), watchers, out),
        Err(_) => Err(RunError::NoMemory),
    }
}

// The report of a job on out, or why not, with the watchers lent as a slice.
fn run_with<O: Sink>(
    alloc: Global,
    job: &Job,
    bytes: &[u8],
    watchers: &mut [Box<dyn Watch>],
    out: &mut O,
) -> Result<(), RunError>
    requires number { HasNumber job.now }
    requires few { length bytes.now ≤ MAX_BYTES }
    ensures answer { Ends (IsOutcome job.now (map (λ w. watcher w) watchers.old) (map (λ w. watcher w) watchers.new) bytes.now) (left (change (O.written out.old) (O.written out.new) (O.faults out.old) (O.faults out.new)) (map (λ w. watcher w) watchers.old) (map (λ w. watcher w) watchers.new)) result }
    ensures untouched { (r : Refusal) → IsErrOf result (RunError.Refused r) → out.new ≡ out.old }
    ensures faults { O.faults out.old ≤ O.faults out.new }
{
    match job.generated() {
        Some(number) => run_generated(alloc, job, number, watchers, out),
        None => run_over(alloc, job, bytes, watchers, out),
    }
}

/// Writes the report of a job on out, or says why not: over the bytes of a source, or over those of
/// the generated file that the job is about, whatever the source has. Condition: a number of a generated
/// file below 64, and at most `MAX_BYTES` bytes.
///
/// `list` tells each watcher of each direction of its page, which ends after the first direction after
/// which one of them has enough; no other job tells any. After a refusal out and the watchers are as they
/// were. After a failed write out has a prefix of the report, and counted a fault. After want of memory
/// nothing is written and no watcher told, or the watchers are told of the whole page and out has a prefix
/// of the report.
pub fn run<O: Sink>(
    alloc: Global,
    job: &Job,
    bytes: &[u8],
    watchers: &mut Vec<Box<dyn Watch>>,
    out: &mut O,
) -> Result<(), RunError>
    requires number { HasNumber job.now }
    requires few { length bytes.now ≤ MAX_BYTES }
    ensures answer { Ends (IsOutcome job.now (map (λ w. watcher w) watchers.old.items) (map (λ w. watcher w) watchers.new.items) bytes.now) (left (change (O.written out.old) (O.written out.new) (O.faults out.old) (O.faults out.new)) (map (λ w. watcher w) watchers.old.items) (map (λ w. watcher w) watchers.new.items)) result }
    ensures untouched { (r : Refusal) → IsErrOf result (RunError.Refused r) → out.new ≡ out.old }
    ensures faults { O.faults out.old ≤ O.faults out.new }
{
    run_with(alloc, job, bytes, watchers, out)
}
