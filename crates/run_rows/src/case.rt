// One case: a run of the program over streams in memory, and what it left.
use iso_cli::isodist;
use iso_text::{MemSink, MemSource, NoMemory, Text};
use iso_watch::{Tally, Upto, Watch};
use std::alloc::{AllocError, Global};

/// Room for each report.
const ROOM: usize = 65_536;

// The size of a stream's pieces, and the call that fails.
fn stream_of(part: Option<&str>) -> (usize, u64) {
    let (piece, call) = part
        .unwrap_or("4096 0")
        .split_once(' ')
        .unwrap_or(("4096", "0"));
    (piece.parse().unwrap_or(4096), call.parse().unwrap_or(0))
}

fn source_of(alloc: Global, part: Option<&str>, body: &str) -> Result<MemSource, NoMemory> {
    let (piece, call) = stream_of(part);
    let fail = [call].to_vec(alloc)?;
    let bytes = body.strip_suffix("\\\n").unwrap_or(body).as_bytes();
    Ok(MemSource::new(bytes.to_vec(alloc)?, piece.max(1), fail))
}

fn sink_of(alloc: Global, part: Option<&str>) -> Result<MemSink, NoMemory> {
    let (piece, call) = stream_of(part);
    MemSink::new(alloc, ROOM, piece.max(1), [call].to_vec(alloc)?)
}

fn print(alloc: Global, head: &str, code: u8, out: &[u8], err: &[u8]) -> Result<Text, NoMemory> {
    let mut text = Text::new(alloc);
    text.push(b"%% ")?;
    text.push(head.as_bytes())?;
    text.push(b"\nstatus ")?;
    text.push_number(u64::from(code))?;
    text.push(b"\n")?;
    text.push(out)?;
    text.push(b"-- err\n")?;
    text.push(err)?;
    Ok(text)
}

// The words of a case; `''` is an empty word.
fn words_of<'a>(alloc: Global, line: &'a str) -> Result<Vec<&'a str>, AllocError> {
    let mut words = Vec::new(alloc);
    for word in line.split(' ') {
        match word {
            "" => (),
            "''" => words.push("")?,
            word => words.push(word)?,
        }
    }
    Ok(words)
}

/// What the program answers to a case. Its watchers are those of the last part, `tally` and `upto N` with
/// commas between them; by default one tally.
pub fn answer(alloc: Global, case: &str) -> Result<Text, NoMemory> {
    let (head, body) = case.split_once('\n').unwrap_or((case, ""));
    let mut parts = head.split(" | ");
    let words = words_of(alloc, parts.next().unwrap_or(""))?;
    let mut source = source_of(alloc, parts.next(), body)?;
    let mut out = sink_of(alloc, parts.next())?;
    let mut err = sink_of(alloc, parts.next())?;
    let mut watchers: Vec<Box<dyn Watch>> = Vec::new(alloc);
    for name in parts.next().unwrap_or("tally").split(',') {
        let is_added = match name.split_once(' ') {
            Some(("upto", limit)) => match Box::new(alloc, Upto::new(limit.parse().unwrap_or(0))) {
                Ok(upto) => watchers.push(upto).is_ok(),
                Err(_) => false,
            },
            _ => match Box::new(alloc, Tally::new()) {
                Ok(tally) => watchers.push(tally).is_ok(),
                Err(_) => false,
            },
        };
        if !is_added {
            return Err(NoMemory);
        }
    }
    let status = isodist(alloc, &words, &mut source, &mut out, &mut err, watchers);
    print(alloc, head, status.code(), out.as_slice(), err.as_slice())
}
