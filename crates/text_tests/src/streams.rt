// Bytes taken from sources and put into sinks, whole, in pieces, and with calls that fail.
use iso_text::{CalmSource, MAX_BYTES, MemSink, MemSource, NoMemory, TakeError, put_all, take_all};
use std::alloc::Global;
use std::test::Fail;

const BYTES: &[u8] = b"isodist 1\nhall P 1\nend\n";

// The source of the bytes in pieces, of which that call fails.
fn source(alloc: Global, piece: usize, fail: u64) -> Result<MemSource, NoMemory> {
    Ok(MemSource::new(BYTES.to_vec(alloc)?, piece.max(1), [fail].to_vec(alloc)?))
}

fn are_taken(alloc: Global, piece: usize) -> Result<bool, TakeError> {
    let mut source = match source(alloc, piece, 0) {
        Ok(source) => source,
        Err(NoMemory) => return Err(TakeError::NoMemory),
    };
    let bytes = take_all(alloc, &mut source)?;
    Ok(bytes.as_slice() == BYTES)
}

#[test]
fn taken_in_pieces_of_any_size(rt: HostRuntime) -> Result<(), Fail> {
    assert!(rt; are_taken(rt.alloc(), 1)?);
    assert!(rt; are_taken(rt.alloc(), 10)?);
    assert!(rt; are_taken(rt.alloc(), 4096)?);
    Ok(())
}

#[test]
fn taken_from_a_source_that_never_fails(rt: HostRuntime) -> Result<(), Fail> {
    let mut source = CalmSource::new(BYTES.to_vec(rt.alloc())?, 10);
    let bytes = take_all(rt.alloc(), &mut source)?;
    assert!(rt; bytes.as_slice() == BYTES);
    Ok(())
}

#[test]
fn a_read_that_fails(rt: HostRuntime) -> Result<(), Fail> {
    let mut source = source(rt.alloc(), 10, 2)?;
    let taken = take_all(rt.alloc(), &mut source);
    assert!(rt; matches!(taken, Err(TakeError::ReadFault)));
    Ok(())
}

// The answer for a source of so many bytes.
fn is_too_long(alloc: Global, length: usize) -> Result<bool, NoMemory> {
    let mut source = CalmSource::new([b'#'].repeat(alloc, length)?, 4096);
    Ok(matches!(take_all(alloc, &mut source), Err(TakeError::TooLong)))
}

#[test]
fn the_two_lengths_at_the_limit(rt: HostRuntime) -> Result<(), Fail> {
    assert!(rt; !is_too_long(rt.alloc(), MAX_BYTES)?);
    assert!(rt; is_too_long(rt.alloc(), MAX_BYTES + 1)?);
    Ok(())
}

// Whether the bytes are put into a sink of this room in pieces, of which that call fails, so that
// this front of them stands there.
fn puts(
    alloc: Global,
    room: usize,
    piece: usize,
    fail: u64,
    front: usize,
) -> Result<bool, NoMemory> {
    let mut sink = MemSink::new(alloc, room, piece.max(1), [fail].to_vec(alloc)?)?;
    let put = put_all(&mut sink, BYTES);
    Ok(
        put.is_ok() == (front == BYTES.len())
            && BYTES.starts_with(sink.as_slice())
            && sink.as_slice().len() == front,
    )
}

#[test]
fn put_whole_or_a_front(rt: HostRuntime) -> Result<(), Fail> {
    assert!(rt; puts(rt.alloc(), 100, 1, 0, BYTES.len())?);
    assert!(rt; puts(rt.alloc(), 100, 4096, 0, BYTES.len())?);
    assert!(rt; puts(rt.alloc(), 100, 10, 2, 10)?);
    assert!(rt; puts(rt.alloc(), 15, 10, 0, 15)?);
    Ok(())
}
