// The two lengths at the limit, and a sink that fails, over sources that never do.
use iso_cli::{Status, isodist};
use iso_text::{CalmSource, MAX_BYTES, MemSink, NoMemory};
use iso_watch::Watch;
use std::alloc::Global;
use std::test::Fail;

/// Room for each report.
const ROOM: usize = 65_536;

const SHORTEST: &[u8] = b"isodist 1\nhall P 1\nend\n#";

const REPORT: &str =
    "isodist 1 check\nlattice P centrings 1 rotations 1\nop x,y,z\nsupercell 1 1 1 order 1\n";

const TOO_LONG: &str = "isodist: refused: file is longer than 1048576 bytes\n";

const WRITE_FAULT: &str = "isodist: write failed\n";

/// The size of a sink's pieces, 1 or more, and the call that fails, none where it is 0.
type Pieces = (usize, u64);

fn sink_of(alloc: Global, pieces: Pieces) -> Result<MemSink, NoMemory> {
    MemSink::new(alloc, ROOM, pieces.0.max(1), [pieces.1].to_vec(alloc)?)
}

fn are_left(written: &MemSink, said: &MemSink, out: &str, err: &str) -> bool {
    written.as_slice() == out.as_bytes() && said.as_slice() == err.as_bytes()
}

// Whether `check` over the bytes ends so, and leaves this on out and on err.
fn ends(
    alloc: Global,
    bytes: Vec<u8>,
    pieces: Pieces,
    status: Status,
    out: &str,
    err: &str,
) -> Result<bool, NoMemory> {
    let mut source = CalmSource::new(bytes, 4096);
    let mut written = sink_of(alloc, pieces)?;
    let mut said = sink_of(alloc, (4096, 0))?;
    let watchers: Vec<Box<dyn Watch>> = Vec::new(alloc);
    let ended = isodist(
        alloc,
        &["check"],
        &mut source,
        &mut written,
        &mut said,
        watchers,
    );
    Ok(ended == status && are_left(&written, &said, out, err))
}

// The shortest file, and a comment up to this length.
fn file_of(alloc: Global, length: usize) -> Result<Vec<u8>, NoMemory> {
    let mut bytes = SHORTEST.to_vec(alloc)?;
    bytes.resize(length, b'#')?;
    Ok(bytes)
}

#[test]
fn a_file_of_the_greatest_length(rt: HostRuntime) -> Result<(), Fail> {
    let bytes = file_of(rt.alloc(), MAX_BYTES)?;
    assert!(rt; ends(rt.alloc(), bytes, (4096, 0), Status::Done, REPORT, "")?);
    Ok(())
}

#[test]
fn a_file_one_byte_longer(rt: HostRuntime) -> Result<(), Fail> {
    let bytes = file_of(rt.alloc(), MAX_BYTES + 1)?;
    assert!(rt; ends(rt.alloc(), bytes, (4096, 0), Status::Refused, "", TOO_LONG)?);
    Ok(())
}

#[test]
fn a_sink_that_fails_at_its_second_write(rt: HostRuntime) -> Result<(), Fail> {
    let bytes = SHORTEST.to_vec(rt.alloc())?;
    assert!(rt;
        ends(
            rt.alloc(),
            bytes,
            (10, 2),
            Status::WriteFault,
            "isodist 1 ",
            WRITE_FAULT
        )?
    );
    Ok(())
}
