// What is found for a file's bytes, written where it is found.
ghost use Rattle.std.specs.Prelude.{◌≡◌, ◌≤◌, [], map, IsErrOf};
ghost use Rattle.std.specs.List.{concat};
ghost use Rattle.iso_text.specs.Ranges.{IsInRange};
ghost use Rattle.iso_report.specs.Endings.{Ends, IsPut, change, left};
ghost use Rattle.iso_report.specs.Outcome.{IsChecked};
ghost use Rattle.report_steps.specs.HeldFiles.{AreInducedHeld};
ghost use Rattle.list_report.specs.Telling.{IsListTold};
ghost use Rattle.mode_report.specs.DirectionFound.{IsFoundAlong};
ghost use Rattle.mode_report.specs.ModesFound.{AreModesFound};
ghost use Rattle.amp_report.specs.AmpsFound.{AreAmpsFound};
ghost use Rattle.couple_report.specs.CoupleFound.{IsCoupleFound};
ghost use Rattle.couple_report.specs.LinkFound.{IsLinkFound};
ghost use Rattle.extra_report.specs.ExtraFound.{AreExtraFound};
ghost use Rattle.extra_report.specs.ExtraAmpsFound.{AreExtraAmpsFound};
ghost use Rattle.apart_report.specs.ApartFound.{AreApartFound};
ghost use Rattle.demo_report.specs.DemoFound.{IsDemoFound};

use crate::check::{CheckReport, law_of_check_pieces};
use crate::run_error::RunError;
use amp_report::{amps_found, law_of_amps_pieces};
use apart_report::{apart_found, law_of_apart_pieces};
use couple_report::{couple_found, law_of_couple_pieces, law_of_link_pieces, link_found};
use demo_report::{demo_found, law_of_demo_pieces};
use extra_modes::Nature;
use extra_report::{
    ExtraReport, extra_amps_found, extra_found, law_of_extra_amps_pieces, law_of_extra_pieces,
};
use iso_text::{Name, Sink};
use iso_watch::Watch;
use list_report::{law_of_told_pieces, list_told};
use mode_report::{
    AlongReport, ModesReport, law_of_along_pieces, law_of_modes_pieces, modes_along, modes_found,
};
use report_buffer::{Report, ReportError, write_report};
use report_steps::{InducedFile, Refusal, Step};
use std::alloc::Global;

// Writes a report.
fn written<R: Report, O: Sink>(alloc: Global, report: &R, out: &mut O) -> Result<(), RunError>
    requires { R.fits report.now }
    ensures answer { IsPut (concat (R.pieces report.now)) (change (O.written out.old) (O.written out.new) (O.faults out.old) (O.faults out.new)) result }
    ensures untouched { (r : Refusal) → IsErrOf result (RunError.Refused r) → out.new ≡ out.old }
    ensures faults { O.faults out.old ≤ O.faults out.new }
{
    match write_report(alloc, report, out) {
        Ok(()) => Ok(()),
        Err(ReportError::WriteFault) => Err(RunError::WriteFault),
        Err(ReportError::NoMemory) => Err(RunError::NoMemory),
    }
}

/// Writes the parent group, its quotient and the irreps.
pub fn found_checked<O: Sink>(alloc: Global, file: InducedFile, out: &mut O) -> Result<(), RunError>
    requires { AreInducedHeld file }
    ensures answer { Ends (IsChecked file.divided) (left (change (O.written out.old) (O.written out.new) (O.faults out.old) (O.faults out.new)) [] []) result }
    ensures untouched { (r : Refusal) → IsErrOf result (RunError.Refused r) → out.new ≡ out.old }
    ensures faults { O.faults out.old ≤ O.faults out.new }
{
    law_of_check_pieces();
    written(alloc, &CheckReport { file }, out)
}

/// Writes the listing of the irrep of a name, or of the first of the file where none is named, with the
/// page that the watchers are told of, and their lines where a tally is wanted; or says why there is none.
pub fn found_listing<O: Sink>(
    alloc: Global,
    file: InducedFile,
    wanted: Option<Name>,
    after: u64,
    count: Option<u64>,
    tally: bool,
    watchers: &mut [Box<dyn Watch>],
    out: &mut O,
) -> Result<(), RunError>
    requires { AreInducedHeld file }
    ensures answer { Ends (IsListTold wanted after count tally (map (λ w. watcher w) watchers.old) (map (λ w. watcher w) watchers.new) file.divided) (left (change (O.written out.old) (O.written out.new) (O.faults out.old) (O.faults out.new)) (map (λ w. watcher w) watchers.old) (map (λ w. watcher w) watchers.new)) result }
    ensures untouched { (r : Refusal) → IsErrOf result (RunError.Refused r) → out.new ≡ out.old }
    ensures faults { O.faults out.old ≤ O.faults out.new }
{
    law_of_told_pieces();
    match list_told(alloc, file, wanted, after, count, tally, watchers) {
        Ok(Step::Passed(told)) => written(alloc, &told, out),
        Ok(Step::Refused(refusal)) => Err(RunError::Refused(refusal)),
        Err(_) => Err(RunError::NoMemory),
    }
}

/// Writes the modes of the orbits of the atoms of the file, or says why there are none.
pub fn found_modes<O: Sink>(alloc: Global, file: InducedFile, out: &mut O) -> Result<(), RunError>
    requires held { AreInducedHeld file }
    requires ranged { IsInRange file.divided.file }
    ensures answer { Ends (AreModesFound file.divided) (left (change (O.written out.old) (O.written out.new) (O.faults out.old) (O.faults out.new)) [] []) result }
    ensures untouched { (r : Refusal) → IsErrOf result (RunError.Refused r) → out.new ≡ out.old }
    ensures faults { O.faults out.old ≤ O.faults out.new }
{
    law_of_modes_pieces();
    match modes_found(alloc, &file) {
        Ok(Step::Passed(modes)) => match ModesReport::new(alloc, file, modes) {
            Ok(report) => written(alloc, &report, out),
            Err(_) => Err(RunError::NoMemory),
        },
        Ok(Step::Refused(refusal)) => Err(RunError::Refused(refusal)),
        Err(_) => Err(RunError::NoMemory),
    }
}

/// Writes the modes that the direction of this number, from 1, of the irrep of a name allows, or of the
/// first of the file where none is named; or says why there are none.
pub fn found_along<O: Sink>(
    alloc: Global,
    file: InducedFile,
    wanted: Option<Name>,
    number: u64,
    out: &mut O,
) -> Result<(), RunError>
    requires held { AreInducedHeld file }
    requires ranged { IsInRange file.divided.file }
    ensures answer { Ends (IsFoundAlong wanted number file.divided) (left (change (O.written out.old) (O.written out.new) (O.faults out.old) (O.faults out.new)) [] []) result }
    ensures untouched { (r : Refusal) → IsErrOf result (RunError.Refused r) → out.new ≡ out.old }
    ensures faults { O.faults out.old ≤ O.faults out.new }
{
    law_of_along_pieces();
    match modes_along(alloc, file, wanted, number) {
        Ok(Step::Passed(along)) => match AlongReport::new(alloc, along) {
            Ok(report) => written(alloc, &report, out),
            Err(_) => Err(RunError::NoMemory),
        },
        Ok(Step::Refused(refusal)) => Err(RunError::Refused(refusal)),
        Err(_) => Err(RunError::NoMemory),
    }
}

/// Writes the amplitudes of the modes in the listed structure, or says why there are none.
pub fn found_amplitudes<O: Sink>(
    alloc: Global,
    file: InducedFile,
    out: &mut O,
) -> Result<(), RunError>
    requires held { AreInducedHeld file }
    requires ranged { IsInRange file.divided.file }
    ensures answer { Ends (AreAmpsFound file.divided) (left (change (O.written out.old) (O.written out.new) (O.faults out.old) (O.faults out.new)) [] []) result }
    ensures untouched { (r : Refusal) → IsErrOf result (RunError.Refused r) → out.new ≡ out.old }
    ensures faults { O.faults out.old ≤ O.faults out.new }
{
    law_of_amps_pieces();
    match amps_found(alloc, file) {
        Ok(Step::Passed(amplitudes)) => written(alloc, &amplitudes, out),
        Ok(Step::Refused(refusal)) => Err(RunError::Refused(refusal)),
        Err(_) => Err(RunError::NoMemory),
    }
}

/// Writes the listing of two irreps together, the first by its name or the first of the file; or says why
/// there is none.
pub fn found_couple<O: Sink>(
    alloc: Global,
    file: InducedFile,
    wanted: Option<Name>,
    other: Name,
    after: u64,
    count: Option<u64>,
    out: &mut O,
) -> Result<(), RunError>
    requires { AreInducedHeld file }
    ensures answer { Ends (IsCoupleFound wanted other after count file.divided) (left (change (O.written out.old) (O.written out.new) (O.faults out.old) (O.faults out.new)) [] []) result }
    ensures untouched { (r : Refusal) → IsErrOf result (RunError.Refused r) → out.new ≡ out.old }
    ensures faults { O.faults out.old ≤ O.faults out.new }
{
    law_of_couple_pieces();
    match couple_found(alloc, file, wanted, other, after, count) {
        Ok(Step::Passed(coupled)) => written(alloc, &coupled, out),
        Ok(Step::Refused(refusal)) => Err(RunError::Refused(refusal)),
        Err(_) => Err(RunError::NoMemory),
    }
}

/// Writes the link between two irreps, the first by its name or the first of the file; or says why none
/// was looked for.
pub fn found_link<O: Sink>(
    alloc: Global,
    file: InducedFile,
    wanted: Option<Name>,
    other: Name,
    out: &mut O,
) -> Result<(), RunError>
    requires { AreInducedHeld file }
    ensures answer { Ends (IsLinkFound wanted other file.divided) (left (change (O.written out.old) (O.written out.new) (O.faults out.old) (O.faults out.new)) [] []) result }
    ensures untouched { (r : Refusal) → IsErrOf result (RunError.Refused r) → out.new ≡ out.old }
    ensures faults { O.faults out.old ≤ O.faults out.new }
{
    law_of_link_pieces();
    match link_found(alloc, file, wanted, other) {
        Ok(Step::Passed(linked)) => written(alloc, &linked, out),
        Ok(Step::Refused(refusal)) => Err(RunError::Refused(refusal)),
        Err(_) => Err(RunError::NoMemory),
    }
}

/// Writes the occupation or axial vector modes of the orbits of the atoms of the file, or says why there
/// are none.
pub fn found_extra<O: Sink>(
    alloc: Global,
    file: InducedFile,
    nature: Nature,
    out: &mut O,
) -> Result<(), RunError>
    requires held { AreInducedHeld file }
    requires ranged { IsInRange file.divided.file }
    ensures answer { Ends (AreExtraFound nature file.divided) (left (change (O.written out.old) (O.written out.new) (O.faults out.old) (O.faults out.new)) [] []) result }
    ensures untouched { (r : Refusal) → IsErrOf result (RunError.Refused r) → out.new ≡ out.old }
    ensures faults { O.faults out.old ≤ O.faults out.new }
{
    law_of_extra_pieces();
    match extra_found(alloc, file, nature) {
        Ok(Step::Passed(extra)) => match ExtraReport::new(alloc, extra) {
            Ok(report) => written(alloc, &report, out),
            Err(_) => Err(RunError::NoMemory),
        },
        Ok(Step::Refused(refusal)) => Err(RunError::Refused(refusal)),
        Err(_) => Err(RunError::NoMemory),
    }
}

/// Writes the amplitudes of the occupations or axial vectors that the lines of the file give, or says why
/// there are none.
pub fn found_extra_amps<O: Sink>(
    alloc: Global,
    file: InducedFile,
    nature: Nature,
    out: &mut O,
) -> Result<(), RunError>
    requires held { AreInducedHeld file }
    requires ranged { IsInRange file.divided.file }
    ensures answer { Ends (AreExtraAmpsFound nature file.divided) (left (change (O.written out.old) (O.written out.new) (O.faults out.old) (O.faults out.new)) [] []) result }
    ensures untouched { (r : Refusal) → IsErrOf result (RunError.Refused r) → out.new ≡ out.old }
    ensures faults { O.faults out.old ≤ O.faults out.new }
{
    law_of_extra_amps_pieces();
    match extra_amps_found(alloc, file, nature) {
        Ok(Step::Passed(amplitudes)) => written(alloc, &amplitudes, out),
        Ok(Step::Refused(refusal)) => Err(RunError::Refused(refusal)),
        Err(_) => Err(RunError::NoMemory),
    }
}

/// Writes which irreps of the file are apart.
pub fn found_apart<O: Sink>(alloc: Global, file: InducedFile, out: &mut O) -> Result<(), RunError>
    requires { AreInducedHeld file }
    ensures answer { Ends (AreApartFound file.divided) (left (change (O.written out.old) (O.written out.new) (O.faults out.old) (O.faults out.new)) [] []) result }
    ensures untouched { (r : Refusal) → IsErrOf result (RunError.Refused r) → out.new ≡ out.old }
    ensures faults { O.faults out.old ≤ O.faults out.new }
{
    law_of_apart_pieces();
    match apart_found(alloc, file) {
        Ok(Step::Passed(pairs)) => written(alloc, &pairs, out),
        Ok(Step::Refused(refusal)) => Err(RunError::Refused(refusal)),
        Err(_) => Err(RunError::NoMemory),
    }
}

/// Writes the summary of a generated file under its number, or says why there is none.
pub fn found_demo<O: Sink>(
    alloc: Global,
    file: InducedFile,
    number: u8,
    out: &mut O,
) -> Result<(), RunError>
    requires held { AreInducedHeld file }
    requires ranged { IsInRange file.divided.file }
    ensures answer { Ends (IsDemoFound number file.divided) (left (change (O.written out.old) (O.written out.new) (O.faults out.old) (O.faults out.new)) [] []) result }
    ensures untouched { (r : Refusal) → IsErrOf result (RunError.Refused r) → out.new ≡ out.old }
    ensures faults { O.faults out.old ≤ O.faults out.new }
{
    law_of_demo_pieces();
    match demo_found(alloc, file, number) {
        Ok(Step::Passed(demo)) => written(alloc, &demo, out),
        Ok(Step::Refused(refusal)) => Err(RunError::Refused(refusal)),
        Err(_) => Err(RunError::NoMemory),
    }
}
