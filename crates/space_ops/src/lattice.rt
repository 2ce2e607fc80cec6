// The lattices of the Hall symbols.
ghost use Rattle.std.specs.Prelude.{◌≡◌, ◌<◌, ℕ, length, true, false, Some};
ghost use Rattle.space_ops.specs.Lattice.{centrings_of, letter_of, lattice_of};
ghost use Rattle.space_ops.specs.Op.{vector_of};
ghost use Rattle.space_ops.specs.Words.{IsLatticeVector};

use crate::find::is_same_shift;
use crate::least_shift::{least_shift, reduced_shift};
use arrayvec::ArrayVec;

/// A lattice by its letter in a Hall symbol: primitive, one face centred, body centred,
/// rhombohedral on hexagonal axes (obverse), or all faces centred.
#[derive(Clone, Copy, Debug, PartialEq, Eq)]
pub enum Lattice {
    P,
    A,
    B,
    C,
    I,
    R,
    F,
}

impl Lattice {
    /// The centring vectors in twelfths of a cell edge, the zero vector first.
    pub fn centrings(self) -> ArrayVec<[i32; 3], 4>
        ensures { result.items ≡ centrings_of self }
    {
        let mut vectors: ArrayVec<[i32; 3], 4> = ArrayVec::new();
        vectors.push([0, 0, 0]);
        match self {
            Lattice::P => {}
            Lattice::A => vectors.push([0, 6, 6]),
            Lattice::B => vectors.push([6, 0, 6]),
            Lattice::C => vectors.push([6, 6, 0]),
            Lattice::I => vectors.push([6, 6, 6]),
            Lattice::R => {
                vectors.push([8, 4, 4]);
                vectors.push([4, 8, 8]);
            }
            Lattice::F => {
                vectors.push([0, 6, 6]);
                vectors.push([6, 0, 6]);
                vectors.push([6, 6, 0]);
            }
        }
        vectors
    }

    /// The letter in a Hall symbol.
    pub fn letter(self) -> u8
        ensures { result ≡ letter_of self }
    {
        match self {
            Lattice::P => b'P',
            Lattice::A => b'A',
            Lattice::B => b'B',
            Lattice::C => b'C',
            Lattice::I => b'I',
            Lattice::R => b'R',
            Lattice::F => b'F',
        }
    }

    /// The lattice with this letter. `None` for each byte that is none of P, A, B, C, I, R, F.
    pub fn from_letter(letter: u8) -> Option<Lattice>
        ensures { result ≡ lattice_of letter }
    {
        match letter {
            b'P' => Some(Lattice::P),
            b'A' => Some(Lattice::A),
            b'B' => Some(Lattice::B),
            b'C' => Some(Lattice::C),
            b'I' => Some(Lattice::I),
            b'R' => Some(Lattice::R),
            b'F' => Some(Lattice::F),
            _ => None,
        }
    }

    /// Whether a translation in twelfths is one of the lattice: a centring vector and whole cell edges.
    pub fn contains(self, shift: [i32; 3]) -> bool
        ensures yes { result ≡ true → IsLatticeVector self (vector_of shift) }
        ensures no { result ≡ false → IsLatticeVector self (vector_of shift) → ⊥ }
    {
        is_same_shift(least_shift(reduced_shift(shift), self), [0, 0, 0])
    }
}

/// A lattice is that of its letter, and a letter is that of the lattice that it names.
pub fn law_of_letters()
    ensures back { (lattice : Lattice) → lattice_of (letter_of lattice) ≡ Some lattice }
    ensures only { (letter : ℕ) (lattice : Lattice) → lattice_of letter ≡ Some lattice → letter ≡ letter_of lattice }
{}
