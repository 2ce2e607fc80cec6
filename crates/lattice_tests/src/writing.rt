// Rows of tables as field values.
ghost use Rattle.std.specs.Prelude.{◌≡◌, ◌<◌, ◌≤◌, ◌+◌, ℕ, pos, length, get_or};
ghost use Rattle.cyclo24.specs.Numerals.{of_whole};
ghost use Rattle.lin_alg.specs.Rows.{vector};

use cyclo24::Field;

// An entry of a table.
fn entry<F: Field>(n: &i8) -> F
    ensures { F.value result ≡ of_whole F.field.laws n.now }
{
    F::small(*n)
}

// Writes the entries of a table from a place on.
pub fn write_row<F: Field>(entries: &[i8], start: usize, into: &mut [F])
    requires { start + length into.old ≤ length entries.now }
    ensures { (j : ℕ) → j < length into.old → vector F.field.laws F.value into.new j ≡ of_whole F.field.laws (get_or entries.now (start + j) (pos 0)) }
{
    for j in 0..into.len() {
        into[j] = entry(&entries[start + j]);
    }
}
