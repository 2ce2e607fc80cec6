// Averages of matrices over a group, and the first that isn't zero.
ghost use Rattle.std.specs.Prelude.{◌≡◌, ◌<◌, ◌≤◌, ◌*◌, ◌⊎◌, ℕ, true, false, IfOk, OnOk, OnErr, length};
ghost use Rattle.lin_alg.specs.Rows.{vector};
ghost use Rattle.lin_alg.specs.Matrix.{entry, IsWideTerm};
ghost use Rattle.couple.specs.Links.{IsPair, IsZero, average, IsLink};
ghost use Rattle.couple.specs.Wide.{IsWideAverage, IsWideAverages};
ghost use Rattle.couple.specs.Listed.{lifted};
ghost use Rattle.couple.specs.AddedRows.{IsRowAdded, IsElementAdded};

use crate::pairs::Pairs;
use cyclo24::{Field, Wide};
use lin_alg::{Matrix, add_product};

// Adds x times a row to row a of the sums. A factor 0 costs no more than its test.
fn add_row<F: Field>(sums: &mut Matrix<F>, a: usize, x: F, row: &[F]) -> Result<(), Wide>
    requires place { a < sums.old.rows }
    requires width { length row.now ≡ sums.old.cols }
    ensures rows { sums.new.rows ≡ sums.old.rows }
    ensures cols { sums.new.cols ≡ sums.old.cols }
    ensures exact { OnOk result (IsRowAdded F.field.laws a (F.value x) (vector F.field.laws F.value row.now) sums.old.cols (entry F.field.laws F.value sums.old) (entry F.field.laws F.value sums.new)) }
    ensures wide { OnErr result ((l : ℕ) × (l < sums.old.cols) × IsWideTerm F.field (entry F.field.laws F.value sums.old a l) (F.value x) (vector F.field.laws F.value row.now l)) }
{
    if x.is_zero() {
        return Ok(());
    }
    for l in 0..row.len() {
        let sum = add_product(sums.get(a, l), x, row[l])?;
        sums.set(a, l, sum);
    }
    Ok(())
}

// Writes row j of R(q).
fn fill_right<F: Field, P: Pairs<F>>(pairs: &P, q: usize, j: usize, row: &mut [F])
    requires holds { P.holds pairs.now }
    requires element { q < (lifted F.field.laws (P.pair pairs.now)).group.order }
    requires place { j < (lifted F.field.laws (P.pair pairs.now)).cols }
    requires width { length row.old ≡ (lifted F.field.laws (P.pair pairs.now)).cols }
    ensures { (b : ℕ) → b < (lifted F.field.laws (P.pair pairs.now)).cols → vector F.field.laws F.value row.new b ≡ (lifted F.field.laws (P.pair pairs.now)).right q j b }
{
    for b in 0..row.len() {
        row[b] = pairs.right(q, j, b);
    }
}

// Adds L(q) e R(q^-1) to the sums, where e has a 1 at (i, j) alone. The lent row is only room.
fn add_element<F: Field, P: Pairs<F>>(
    pairs: &P,
    q: usize,
    i: usize,
    j: usize,
    sums: &mut Matrix<F>,
    row: &mut [F],
) -> Result<(), Wide>
    requires holds { P.holds pairs.now }
    requires element { q < (lifted F.field.laws (P.pair pairs.now)).group.order }
    requires row { i < (lifted F.field.laws (P.pair pairs.now)).rows }
    requires column { j < (lifted F.field.laws (P.pair pairs.now)).cols }
    requires rows { sums.old.rows ≡ (lifted F.field.laws (P.pair pairs.now)).rows }
    requires cols { sums.old.cols ≡ (lifted F.field.laws (P.pair pairs.now)).cols }
    requires width { length row.old ≡ (lifted F.field.laws (P.pair pairs.now)).cols }
    ensures rows { sums.new.rows ≡ sums.old.rows }
    ensures cols { sums.new.cols ≡ sums.old.cols }
    ensures exact { OnOk result (IsElementAdded F.field.laws (lifted F.field.laws (P.pair pairs.now)) q i j (lifted F.field.laws (P.pair pairs.now)).rows (entry F.field.laws F.value sums.old) (entry F.field.laws F.value sums.new)) }
    ensures wide { OnErr result ((a : ℕ) × (a < (lifted F.field.laws (P.pair pairs.now)).rows) × (b : ℕ) × (b < (lifted F.field.laws (P.pair pairs.now)).cols) × IsWideTerm F.field (entry F.field.laws F.value sums.old a b) ((lifted F.field.laws (P.pair pairs.now)).left q a i) ((lifted F.field.laws (P.pair pairs.now)).right ((lifted F.field.laws (P.pair pairs.now)).group.inverse q) j b)) }
{
    let back = pairs.inverse(q);
    fill_right(pairs, back, j, row);
    for a in 0..pairs.rows() {
        add_row(sums, a, pairs.left(q, a, i), row)?;
    }
    Ok(())
}

// Makes sums of zeros the average (i, j). The lent row is only room.
fn add_average<F: Field, P: Pairs<F>>(
    pairs: &P,
    i: usize,
    j: usize,
    sums: &mut Matrix<F>,
    row: &mut [F],
) -> Result<(), Wide>
    requires holds { P.holds pairs.now }
    requires row { i < (lifted F.field.laws (P.pair pairs.now)).rows }
    requires column { j < (lifted F.field.laws (P.pair pairs.now)).cols }
    requires rows { sums.old.rows ≡ (lifted F.field.laws (P.pair pairs.now)).rows }
    requires cols { sums.old.cols ≡ (lifted F.field.laws (P.pair pairs.now)).cols }
    requires width { length row.old ≡ (lifted F.field.laws (P.pair pairs.now)).cols }
    requires zero { IsZero F.field.laws (lifted F.field.laws (P.pair pairs.now)) (entry F.field.laws F.value sums.old) }
    ensures rows { sums.new.rows ≡ sums.old.rows }
    ensures cols { sums.new.cols ≡ sums.old.cols }
    ensures exact { OnOk result ((a b : ℕ) → a < (lifted F.field.laws (P.pair pairs.now)).rows → b < (lifted F.field.laws (P.pair pairs.now)).cols → entry F.field.laws F.value sums.new a b ≡ average F.field.laws (lifted F.field.laws (P.pair pairs.now)) i j a b) }
    ensures wide { OnErr result (IsWideAverage F.field (lifted F.field.laws (P.pair pairs.now)) i j) }
{
    for q in 0..pairs.order() {
        add_element(pairs, q, i, j, sums, row)?;
    }
    Ok(())
}

// Whether each entry is 0.
fn is_zero<F: Field>(sums: &Matrix<F>) -> bool
    ensures zero { result ≡ true → (a b : ℕ) → a < sums.now.rows → b < sums.now.cols → entry F.field.laws F.value sums.now a b ≡ F.field.laws.nought }
    ensures other { ((a b : ℕ) → a < sums.now.rows → b < sums.now.cols → entry F.field.laws F.value sums.now a b ≡ F.field.laws.nought) → result ≡ true }
{
    let cols = sums.cols();
    for p in 0..sums.rows() * cols {
        if !sums.get(p / cols, p % cols).is_zero() {
            return false;
        }
    }
    true
}

// Makes sums of zeros the first average that isn't zero, if there is one. The lent row is only room.
// Where all are zero whose row is one of the first, all others are.
pub(crate) fn first_average<F: Field, P: Pairs<F>>(
    pairs: &P,
    sums: &mut Matrix<F>,
    row: &mut [F],
) -> Result<bool, Wide>
    requires holds { P.holds pairs.now }
    requires lawful { IsPair F.field.laws (lifted F.field.laws (P.pair pairs.now)) }
    requires rows { sums.old.rows ≡ (lifted F.field.laws (P.pair pairs.now)).rows }
    requires cols { sums.old.cols ≡ (lifted F.field.laws (P.pair pairs.now)).cols }
    requires width { length row.old ≡ (lifted F.field.laws (P.pair pairs.now)).cols }
    requires zero { IsZero F.field.laws (lifted F.field.laws (P.pair pairs.now)) (entry F.field.laws F.value sums.old) }
    ensures rows { sums.new.rows ≡ sums.old.rows }
    ensures cols { sums.new.cols ≡ sums.old.cols }
    ensures found { IfOk result (λ found. found ≡ true → IsLink F.field.laws (lifted F.field.laws (P.pair pairs.now)) (entry F.field.laws F.value sums.new)) }
    ensures none { IfOk result (λ found. found ≡ false → (i j : ℕ) → i < (lifted F.field.laws (P.pair pairs.now)).rows → j < (lifted F.field.laws (P.pair pairs.now)).cols → IsZero F.field.laws (lifted F.field.laws (P.pair pairs.now)) (average F.field.laws (lifted F.field.laws (P.pair pairs.now)) i j)) }
    ensures wide { OnErr result (IsWideAverages F.field (lifted F.field.laws (P.pair pairs.now))) }
{
    let _rows = pairs.rows();
    let cols = pairs.cols();
    for p in 0..pairs.first() * cols {
        add_average(pairs, p / cols, p % cols, sums, row)?;
        if !is_zero(sums) {
            return Ok(true);
        }
    }
    Ok(false)
}
