// The standard streams. They tell nothing of their bytes.
ghost use Rattle.std.specs.Prelude.{◌≡◌, None};
ghost use Rattle.iso_text.specs.Counts.{last_count};

use iso_text::{Failed, Sink, Source};
use std::io::{Read, Write};

/// Standard input. It counts its faults and the bytes that it gave.
#[derive(Drop)]
pub struct StdSource<R: Read + Drop> {
    input: R,
    faults: u64,
    taken: u64,
}

impl<R: Read + Drop> StdSource<R> {
    /// Nothing read yet.
    pub fn new(input: R) -> Self
        ensures faults { result.faults ≡ 0 }
        ensures taken { result.taken ≡ 0 }
    {
        StdSource {
            input,
            faults: 0,
            taken: 0,
        }
    }
}

impl<R: Read + Drop> Source for StdSource<R> {
    ghost left = { λ s. None };

    ghost faults = { λ s. s.faults };

    ghost taken = { λ s. s.taken };

    fn read(&mut self, buf: &mut [u8]) -> Result<usize, Failed> {
        match self.input.read(buf) {
            Ok(n) => {
                self.taken = self.taken.saturating_add(n as u64);
                Ok(n)
            }
            Err(_) => {
                self.faults = self.faults.saturating_add(1);
                Err(Failed)
            }
        }
    }
}

/// Standard output. It counts its faults, also a write that takes nothing.
#[derive(Drop)]
pub struct StdOut<W: Write + Drop> {
    output: W,
    faults: u64,
}

impl<W: Write + Drop> StdOut<W> {
    /// Nothing written yet.
    pub fn new(output: W) -> Self
        ensures faults { result.faults ≡ 0 }
    {
        StdOut { output, faults: 0 }
    }
}

impl<W: Write + Drop> Sink for StdOut<W> {
    ghost written = { λ s. None };

    ghost faults = { λ s. s.faults };

    fn write(&mut self, piece: &[u8]) -> Result<usize, Failed> {
        match self.output.write(piece) {
            Ok(n) if n > 0 || piece.is_empty() => Ok(n),
            _ => {
                self.faults = self.faults.saturating_add(1);
                Err(Failed)
            }
        }
    }
}

/// Standard error. It counts its faults, also a write that takes nothing.
#[derive(Drop)]
pub struct StdErr<W: Write + Drop> {
    output: StdOut<W>,
}

impl<W: Write + Drop> StdErr<W> {
    /// Nothing written yet.
    pub fn new(output: W) -> Self
        ensures faults { result.output.faults ≡ 0 }
    {
        StdErr {
            output: StdOut::new(output),
        }
    }
}

impl<W: Write + Drop> Sink for StdErr<W> {
    ghost written = { λ s. None };

    ghost faults = { λ s. s.output.faults };

    fn write(&mut self, piece: &[u8]) -> Result<usize, Failed> {
        self.output.write(piece)
    }
}
