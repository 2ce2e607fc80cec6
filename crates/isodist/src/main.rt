//! The program `isodist`: a crystallographer's file on standard input, one report on standard output.
#![tactic(auto)]

ghost use Rattle.std.specs.Prelude.{◌≡◌, ◌<◌};
ghost use Rattle.std.specs.Process.{exit_status};
ghost use Rattle.iso_cli.specs.Status.{code_of};

use iso_cli::{Status, main_status};
use std::process::ExitCode;

fn status_of(rt: &HostRuntime) -> Status {
    let alloc = rt.alloc();
    let Ok(args) = std::env::args(rt) else {
        return Status::NoMemory;
    };
    let Ok(arguments) = args.collect::<Vec<String>>(alloc) else {
        return Status::NoMemory;
    };
    main_status(alloc, &arguments, rt.stdin(), rt.stdout(), rt.stderr())
}

// What the program ends with: the number of a status.
fn exit_code(rt: &HostRuntime) -> ExitCode
    ensures below { exit_status result < 6 }
    ensures number { (s : Status) × (exit_status result ≡ code_of s) }
{
    ExitCode::from(status_of(rt).code())
}

fn main(rt: HostRuntime) -> ExitCode {
    exit_code(&rt)
}
