// Fractions in lowest terms.
ghost use Rattle.std.specs.Prelude.{◌≡◌, ℕ, ℤ, pos, ◌*ℤ◌, ◌<◌, MatchOption};
ghost use Rattle.space_ops.specs.Op.{IsWithin};
ghost use Rattle.iso_text.specs.Fractions.{IsLowest};

use iso_text::Frac;

fn product(n: i32, m: u8) -> i32
    requires { IsWithin 100000 n }
    ensures value { result ≡ n *ℤ pos m }
    ensures within { IsWithin 25600000 result }
{
    n * i32::from(m)
}

/// The x with x d = n.
fn quotient(n: i32, d: u8) -> Option<i32>
    requires near { IsWithin 25600000 n }
    requires positive { 0 < d }
    ensures { MatchOption result ((x : ℤ) → x *ℤ pos d ≡ n → ⊥) (λ x. x *ℤ pos d ≡ n) }
{
    let divisor = i32::from(d);
    if n % divisor == 0 {
        Some(n / divisor)
    } else {
        None
    }
}

/// n / d in lowest terms.
pub fn lowest(n: i32, d: u8) -> Frac
    requires near { IsWithin 100000 n }
    requires positive { 0 < d }
    ensures { IsLowest n d result }
{
    for den in 1..d {
        if let Some(num) = quotient(product(n, den), d) {
            return Frac { num, den };
        }
    }
    Frac { num: n, den: d }
}
