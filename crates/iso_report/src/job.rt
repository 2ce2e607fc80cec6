// What the words of the command line ask for.
ghost use Rattle.std.specs.Prelude.{◌≡◌};
ghost use Rattle.iso_report.specs.Jobs.{generated};

use extra_modes::Nature;
use iso_text::Name;

/// A command with what its options give.
#[derive(Clone, Copy, Debug, PartialEq, Eq)]
pub enum Job {
    /// The parent group, its supercell and the irreps.
    Check,
    /// The isotropy subgroups of an irrep, the first of the file where none is named, with their
    /// order parameter directions: those behind the first `after`, at most `count`, and the lines of
    /// the watchers where a tally is wanted.
    List {
        irrep: Option<Name>,
        after: u64,
        count: Option<u64>,
        tally: bool,
    },
    /// The modes of all orbits, or those that one direction of an irrep allows, by its number from
    /// 1; of the first irrep of the file where none is named.
    Modes {
        direction: Option<(Option<Name>, u64)>,
    },
    /// The amplitudes of the listed atoms.
    Amps,
    /// The isotropy subgroups of two irreps together, the first of them the first of the file where none
    /// is named: those behind the first `after`, at most `count`.
    Couple {
        irrep: Option<Name>,
        other: Name,
        after: u64,
        count: Option<u64>,
    },
    /// The link between what two irreps induce, the first of them the first of the file where none is
    /// named.
    Link {
        irrep: Option<Name>,
        other: Name,
    },
    /// The occupation or axial vector modes of all orbits, or the amplitudes of those that the lines of
    /// the file give.
    Extra {
        nature: Nature,
        amps: bool,
    },
    /// Which irreps of the file are apart, pair by pair.
    Apart,
    /// The summary of a generated file, by its number below 64.
    Demo {
        number: u8,
    },
}

impl Job {
    /// The number of the generated file that the job is about, none where it is about the file of the
    /// source.
    pub fn generated(&self) -> Option<u8>
        ensures { result ≡ generated self.now }
    {
        match self {
            Job::Check => None,
            Job::List { .. } => None,
            Job::Modes { .. } => None,
            Job::Amps => None,
            Job::Couple { .. } => None,
            Job::Link { .. } => None,
            Job::Extra { .. } => None,
            Job::Apart => None,
            Job::Demo { number } => Some(*number),
        }
    }
}
