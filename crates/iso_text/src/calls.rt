// The calls of a stream in memory.
ghost use Rattle.std.specs.Prelude.{◌≡◌, ◌≤◌};
ghost use Rattle.iso_text.specs.Counts.{HasRisen};
ghost use Rattle.iso_text.specs.Memory.{Calls, next_fails, after_call, after_fault};

use std::marker::Model;

/// The calls that are to fail, the number of the last call, and how many failed.
#[derive(Drop)]
pub struct CallLog {
    fail: Vec<u64>,
    call: u64,
    faults: u64,
}

impl Model for CallLog {
    ghost use Rattle.iso_text.specs.Memory.{Calls};

    ghost Value = { Calls };

    ghost view = { λ c. record { fail = c.fail.items; call = c.call; faults = c.faults } };
}

impl CallLog {
    /// No call yet. The calls of these numbers, from 1, are to fail.
    pub fn new(fail: Vec<u64>) -> Self
        ensures { result ≡ record { fail = fail.items; call = 0; faults = 0 } }
    {
        CallLog {
            fail,
            call: 0,
            faults: 0,
        }
    }

    /// Whether the next call is to fail.
    pub fn next_fails(&self) -> bool
        ensures { result ≡ next_fails self.now }
    {
        let next = self.call.saturating_add(1);
        self.fail.contains(&next)
    }

    /// Counts a call that did its work.
    pub fn count(&mut self)
        ensures { self.new ≡ after_call self.old }
    {
        self.call = self.call.saturating_add(1);
    }

    /// Counts a call that failed.
    pub fn count_fault(&mut self)
        ensures after { self.new ≡ after_fault self.old }
        ensures rises { HasRisen self.old.faults self.new.faults }
        ensures grows { self.old.faults ≤ self.new.faults }
    {
        self.call = self.call.saturating_add(1);
        self.faults = self.faults.saturating_add(1);
    }
}
