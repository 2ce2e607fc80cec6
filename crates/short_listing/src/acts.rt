// An action whose matrices are held in short values.
ghost use Rattle.std.specs.Prelude.{◌≡◌, ◌<◌, ◌≤◌, ◌*◌, ◌/◌, ◌%◌, ℕ, IfOk, OnOk, length};
ghost use Rattle.cyclo24.specs.ExactK24.{k24_laws};
ghost use Rattle.cyclo24.specs.K24.{exact24};
ghost use Rattle.lin_alg.specs.Matrix.{entry};
ghost use Rattle.lin_alg.specs.Rows.{vector};
ghost use Rattle.short_listing.specs.Carried.{IsTableOf};

use cyclo24::{Field, K24, Short, Wide};
use lin_alg::{Acts, LinError, Matrix};
use std::alloc::Global;

/// The same action over short values, its matrices held: row i of the matrix of q is row q dim + i of
/// the table.
#[derive(Drop)]
pub(crate) struct ShortActs<'a, S: Short, G: Acts<K24>> {
    acts: &'a G,
    rows: Matrix<S>,
    pub ghost held: { IsTableOf k24_laws S.exact (G.action acts.now) rows },
}

impl<'a, S: Short, G: Acts<K24>> ShortActs<'a, S, G> {
    /// The action of at most 24 dimensions and 16,384 elements over short values. It says nothing of
    /// where an entry isn't held or giving a row is wide.
    pub(crate) fn new(alloc: Global, acts: &'a G) -> Result<ShortActs<'a, S, G>, LinError>
        requires dim { (G.action acts.now).dim ≤ 24 }
        requires order { (G.action acts.now).group.order ≤ 16384 }
        ensures { IfOk result (λ s. s.acts.now ≡ acts.now) }
    {
        let rows = table_of::<S, G>(alloc, acts)?;
        Ok(ShortActs { acts, rows })
    }
}

// The matrices in short values, one below the other.
fn table_of<S: Short, G: Acts<K24>>(alloc: Global, acts: &G) -> Result<Matrix<S>, LinError>
    requires dim { (G.action acts.now).dim ≤ 24 }
    requires order { (G.action acts.now).group.order ≤ 16384 }
    ensures { IfOk result (λ m. IsTableOf k24_laws S.exact (G.action acts.now) m) }
{
    let d = acts.dim();
    let mut table = Matrix::new(alloc, acts.order() * d, d)?;
    let mut buffer = [K24::zero(); 24];
    fill(&mut table, acts, &mut buffer[..d])?;
    Ok(table)
}

// Writes all rows of the table. The lent row is only room.
fn fill<S: Short, G: Acts<K24>>(
    table: &mut Matrix<S>,
    acts: &G,
    row: &mut [K24],
) -> Result<(), Wide>
    requires rows { table.old.rows ≡ (G.action acts.now).group.order * (G.action acts.now).dim }
    requires cols { table.old.cols ≡ (G.action acts.now).dim }
    requires room { length row.old ≡ (G.action acts.now).dim }
    ensures { OnOk result (IsTableOf k24_laws S.exact (G.action acts.now) table.new) }
{
    let d = acts.dim();
    let _order = acts.order();
    for k in 0..table.rows() {
        acts.row(k / d, k % d, row)?;
        write_row(table, k, row)?;
    }
    Ok(())
}

// Writes row k of the table in short values, unless an entry isn't held.
fn write_row<S: Short>(table: &mut Matrix<S>, k: usize, row: &[K24]) -> Result<(), Wide>
    requires place { k < table.old.rows }
    requires width { table.old.cols ≡ length row.now }
    ensures rows { table.new.rows ≡ table.old.rows }
    ensures cols { table.new.cols ≡ table.old.cols }
    ensures row { OnOk result ((j : ℕ) → j < length row.now → entry k24_laws S.exact table.new k j ≡ vector k24_laws exact24 row.now j) }
    ensures others { (l j : ℕ) → (l ≡ k → ⊥) → entry k24_laws S.exact table.new l j ≡ entry k24_laws S.exact table.old l j }
{
    for j in 0..row.len() {
        match S::from_k24(row[j]) {
            Some(short) => table.set(k, j, short),
            None => return Err(Wide),
        }
    }
    Ok(())
}

// Copies row k of the table.
fn copy_row<F: Field>(table: &Matrix<F>, k: usize, into: &mut [F])
    requires place { k < table.now.rows }
    requires room { length into.old ≡ table.now.cols }
    ensures { (j : ℕ) → j < table.now.cols → vector F.field.laws F.value into.new j ≡ entry F.field.laws F.value table.now k j }
{
    for j in 0..into.len() {
        into[j] = table.get(k, j);
    }
}

impl<'a, S: Short, G: Acts<K24>> Acts<S> for ShortActs<'a, S, G> {
    ghost use Rattle.short_listing.specs.CarriedLaws.{action_carried};

    ghost action = { λ s. G.action s.acts.now };

    ghost wide = { λ _. ⊥ };

    fn order(&self) -> usize {
        self.acts.order()
    }

    fn dim(&self) -> usize {
        self.acts.dim()
    }

    fn product(&self, a: usize, b: usize) -> usize {
        self.acts.product(a, b)
    }

    fn inverse(&self, a: usize) -> usize {
        self.acts.inverse(a)
    }

    fn generators(&self) -> usize {
        self.acts.generators()
    }

    fn generator(&self, i: usize) -> usize {
        self.acts.generator(i)
    }

    fn row(&self, q: usize, i: usize, into: &mut [S]) -> Result<(), Wide> {
        let _rows = self.rows.rows();
        let d = self.rows.cols();
        copy_row(&self.rows, q * d + i, into);
        Ok(())
    }

    ghost lawful = { λ s. action_carried S.Field.field S.Field.value S.exact S.is_short (G.action s.acts.now) (G.lawful s.acts.now) };
}
