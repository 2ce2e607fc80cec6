// The one reduced echelon form of a span.
ghost use Rattle.std.specs.Prelude.{◌≡◌, ◌↔◌, ◌<◌, ◌≤◌, ◌+◌, ◌∷◌, [], ℕ, List, true, false, Ok, Err, IfOk, OnOk, OnErr, length, map, slice_index_or, vec_len, vec_capacity};
ghost use Rattle.cyclo24.specs.ExactField.{Value};
ghost use Rattle.lin_alg.specs.Spans.{row_vectors, less, IsInSpan, AreSame};
ghost use Rattle.lin_alg.specs.Reduced.{IsClear};
ghost use Rattle.lin_alg.specs.Rows.{vector, exact_rows, HaveLength};
ghost use Rattle.lin_alg.specs.Equations.{dot};
ghost use Rattle.lin_alg.specs.Insertion.{IsWideReduce, IsWideInsert};
ghost use Rattle.lin_alg.specs.Echelon.{IsEchelon, IsSpanned, IsSolution};
ghost use Rattle.lin_alg.specs.declared.errors.LinError.TheVariants as lin_error;
ghost use Rattle.lin_alg.specs.declared.echelon.Grew.TheVariants as grew;

mod compare;
mod free;

use crate::elimination::{insert_row, last_column, put_line, reduce_row};
use crate::memory::{add_spare, copy_lines, free_lines};
use crate::{LinError, Steps};
use cyclo24::{Field, Wide};
use iso_text::NoMemory;
use std::alloc::Global;
use std::marker::Model;
use std::sync::ledger::Ledger;

/// Whether an insertion enlarged the span.
#[derive(Clone, Copy, Debug, PartialEq, Eq)]
pub enum Grew {
    /// The row wasn't in the span.
    Yes,
    /// The row was in the span, and the form stayed.
    No,
}

/// The one reduced echelon form of a span of rows. The pivot of a row is its last nonzero entry, and
/// is 1; the pivots rise from row to row; and each pivot column is 0 in all other rows.
#[derive(Drop)]
pub struct Echelon<F: Field> {
    width: usize,
    whole: bool,
    lines: Vec<(usize, Vec<F>)>,
    spare: Vec<Vec<F>>,
}

impl<F: Field> Model for Echelon<F> {
    ghost use Rattle.std.specs.Prelude.{map, ◌≤◌, ◌+◌, vec_capacity, vec_len};
    ghost use Rattle.lin_alg.specs.Rows.{HaveLength};
    ghost use Rattle.lin_alg.specs.Echelon.{EchelonView, IsEchelon};

    ghost Value = { EchelonView F };

    ghost view = { λ e. record { width = e.width; whole = e.whole; rows = map (λ r. (r.0, r.1.items)) e.lines.items; spare = vec_len e.spare } };

    ghost invariant = { λ e. (vec_len e.lines + vec_len e.spare ≤ vec_capacity e.lines) × HaveLength e.width (map (λ r. r.items) e.spare.items) × IsEchelon F.field.laws F.value (record { width = e.width; whole = e.whole; rows = map (λ r. (r.0, r.1.items)) e.lines.items; spare = vec_len e.spare }) };
}

impl<F: Field> Echelon<F> {
    /// The empty form of rows of this width. It takes no memory.
    pub fn new(alloc: Global, width: usize) -> Echelon<F>
        ensures width { result.width ≡ width }
        ensures whole { result.whole ≡ true }
        ensures rows { result.rows ≡ [] }
        ensures form { IsEchelon F.field.laws F.value result }
    {
        Echelon {
            width,
            whole: true,
            lines: Vec::new(alloc),
            spare: Vec::new(alloc),
        }
    }

    /// The form of these rows, each with its pivot. It takes no memory.
    pub fn from_rows(alloc: Global, width: usize, lines: Vec<(usize, Vec<F>)>) -> Echelon<F>
        requires { IsEchelon F.field.laws F.value (record { width = width; whole = true; rows = map (λ r. (r.0, r.1.items)) lines.items; spare = 0 }) }
        ensures width { result.width ≡ width }
        ensures whole { result.whole ≡ true }
        ensures rows { result.rows ≡ map (λ r. (r.0, r.1.items)) lines.items }
        ensures form { IsEchelon F.field.laws F.value result }
    {
        Echelon {
            width,
            whole: true,
            lines,
            spare: Vec::new(alloc),
        }
    }

    /// How many columns it has.
    pub fn width(&self) -> usize
        ensures { result ≡ self.now.width }
    {
        self.width
    }

    /// Whether the rows are a reduced form: no insertion was wide.
    pub fn is_whole(&self) -> bool
        ensures whole { result ≡ self.now.whole }
        ensures form { IsEchelon F.field.laws F.value self.now }
    {
        self.whole
    }

    /// How many rows it has.
    pub fn len(&self) -> usize
        ensures { result ≡ length self.now.rows }
    {
        self.lines.len()
    }

    /// Row i.
    pub fn row(&self, i: usize) -> &[F]
        requires { i < length self.now.rows }
        ensures { result.now ≡ (slice_index_or self.now.rows i (0, [])).1 }
    {
        &self.lines[i].1
    }

    /// The pivot of row i.
    pub fn pivot(&self, i: usize) -> usize
        requires { i < length self.now.rows }
        ensures { result ≡ (slice_index_or self.now.rows i (0, [])).0 }
    {
        self.lines[i].0
    }

    /// Makes room for this many more rows, so that as many insertions take no memory.
    pub fn reserve(&mut self, rows: usize) -> Result<(), NoMemory>
        ensures width { self.new.width ≡ self.old.width }
        ensures whole { self.new.whole ≡ self.old.whole }
        ensures rows { self.new.rows ≡ self.old.rows }
        ensures form { IsEchelon F.field.laws F.value self.new }
        ensures room { OnOk result (rows ≤ self.new.spare) }
        ensures spare { self.old.spare ≤ self.new.spare }
    {
        self.lines.reserve(rows)?;
        let alloc = *self.lines.allocator();
        add_spare(&mut self.spare, alloc, self.width, rows)
    }

    /// A form with the same rows, width and `is_whole`.
    pub fn copy(&self, alloc: Global) -> Result<Echelon<F>, NoMemory>
        ensures width { IfOk result (λ copy. copy.width ≡ self.now.width) }
        ensures whole { IfOk result (λ copy. copy.whole ≡ self.now.whole) }
        ensures rows { IfOk result (λ copy. copy.rows ≡ self.now.rows) }
        ensures form { IfOk result (λ copy. IsEchelon F.field.laws F.value copy) }
    {
        let lines = copy_lines(alloc, &self.lines)?;
        Ok(Echelon {
            width: self.width,
            whole: self.whole,
            lines,
            spare: Vec::new(alloc),
        })
    }

    /// Makes it the empty form of rows of this width. It takes no memory. What it holds serves for
    /// further rows, but for rows of another width.
    pub fn clear(&mut self, width: usize)
        ensures width { self.new.width ≡ width }
        ensures whole { self.new.whole ≡ true }
        ensures rows { self.new.rows ≡ [] }
        ensures form { IsEchelon F.field.laws F.value self.new }
        ensures spare { (width ≡ self.old.width) → self.old.spare ≤ self.new.spare }
    {
        self.whole = true;
        if width != self.width {
            self.width = width;
            self.lines.clear();
            self.spare.clear();
            return;
        }
        free_lines(&mut self.lines, &mut self.spare);
    }

    /// Makes it a form with the same rows, width and `is_whole` as another. It takes memory only where
    /// its own doesn't suffice. After want of memory it is the empty form of the other's width.
    pub fn copy_from(&mut self, other: &Echelon<F>) -> Result<(), NoMemory>
        ensures width { self.new.width ≡ other.now.width }
        ensures whole { OnOk result (self.new.whole ≡ other.now.whole) }
        ensures rows { OnOk result (self.new.rows ≡ other.now.rows) }
        ensures form { IsEchelon F.field.laws F.value self.new }
        ensures empty { OnErr result ((self.new.whole ≡ true) × (self.new.rows ≡ [])) }
        ensures spare { OnOk result ((other.now.width ≡ self.old.width) → self.old.spare ≤ self.new.spare + length other.now.rows) }
    {
        self.clear(other.width);
        self.reserve(other.lines.len())?;
        put_rows(&mut self.lines, &mut self.spare, other);
        self.whole = other.whole;
        Ok(())
    }

    /// Takes a member of the span from the row, so that it is 0 in each pivot column. After `Wide` the
    /// row holds any values.
    pub fn reduce(&self, row: &mut [F]) -> Result<(), Wide>
        requires whole { self.now.whole ≡ true }
        requires width { length row.old ≡ self.now.width }
        ensures differs { OnOk result (IsSpanned F.field.laws F.value self.now (less F.field.laws (vector F.field.laws F.value row.old) F.field.laws.unit (vector F.field.laws F.value row.new))) }
        ensures clear { OnOk result (IsClear F.field.laws (exact_rows F.field.laws F.value self.now.rows) (vector F.field.laws F.value row.new)) }
        ensures wide { OnErr result (IsWideReduce F.field (exact_rows F.field.laws F.value self.now.rows) (vector F.field.laws F.value row.old)) }
    {
        reduce_row(&self.lines, row)?;
        Ok(())
    }

    /// Whether the row is in the span. The row holds any values afterwards.
    pub fn contains(&self, row: &mut [F]) -> Result<bool, Wide>
        requires whole { self.now.whole ≡ true }
        requires width { length row.old ≡ self.now.width }
        ensures member { IfOk result (λ b. (b ≡ true) ↔ IsSpanned F.field.laws F.value self.now (vector F.field.laws F.value row.old)) }
        ensures wide { OnErr result (IsWideReduce F.field (exact_rows F.field.laws F.value self.now.rows) (vector F.field.laws F.value row.old)) }
    {
        reduce_row(&self.lines, row)?;
        match last_column(row) {
            None => Ok(true),
            Some(_) => Ok(false),
        }
    }

    /// Inserts a row, so that the form is that of the span with the row, and tells whether the row
    /// was new. It is one step, whatever it answers. It takes memory only where there is no room. After
    /// `Wide` the form isn't whole; after want of memory it is as it was. The row holds any values
    /// afterwards.
    pub fn insert<L: Ledger>(
        &mut self,
        row: &mut [F],
        steps: &mut Steps<L>,
    ) -> Result<Grew, LinError>
        requires whole { self.old.whole ≡ true }
        requires width { length row.old ≡ self.old.width }
        ensures width { self.new.width ≡ self.old.width }
        ensures form { IsEchelon F.field.laws F.value self.new }
        ensures whole { OnOk result (self.new.whole ≡ true) }
        ensures span { OnOk result (AreSame (IsSpanned F.field.laws F.value self.new) (IsInSpan F.field.laws (vector F.field.laws F.value row.old ∷ row_vectors (exact_rows F.field.laws F.value self.old.rows)))) }
        ensures cut { OnOk result ((v : ℕ → Value F.field) → IsSolution F.field.laws F.value self.new v ↔ ((dot F.field.laws self.old.width (vector F.field.laws F.value row.old) v ≡ F.field.laws.nought) × IsSolution F.field.laws F.value self.old v)) }
        ensures grew { IfOk result (λ answer. (answer ≡ grew.Yes) ↔ (IsSpanned F.field.laws F.value self.old (vector F.field.laws F.value row.old) → ⊥)) }
        ensures stays { IfOk result (λ answer. (answer ≡ grew.No) → self.new.rows ≡ self.old.rows) }
        ensures wide { (result ≡ Err lin_error.Wide) → (self.new.whole ≡ false) × IsWideInsert F.field (exact_rows F.field.laws F.value self.old.rows) (vector F.field.laws F.value row.old) }
        ensures memory { (result ≡ Err lin_error.NoMemory) → (self.old.spare ≡ 0) × (self.new.whole ≡ true) × (self.new.rows ≡ self.old.rows) }
        ensures spare { self.old.spare ≤ self.new.spare + 1 }
        ensures room { (result ≡ Ok grew.Yes → ⊥) → self.old.spare ≤ self.new.spare }
        ensures cost { steps.new ≡ steps.old + 1 }
    {
        steps.tick();
        self.make_room()?;
        match insert_row(&mut self.lines, &mut self.spare, row) {
            Ok(grew) => Ok(grew),
            Err(_) => {
                self.whole = false;
                Err(LinError::Wide)
            }
        }
    }

    // Makes room for one row where there is none.
    fn make_room(&mut self) -> Result<(), NoMemory>
        ensures width { self.new.width ≡ self.old.width }
        ensures whole { self.new.whole ≡ self.old.whole }
        ensures rows { self.new.rows ≡ self.old.rows }
        ensures form { IsEchelon F.field.laws F.value self.new }
        ensures room { OnOk result (0 < self.new.spare) }
        ensures spare { self.old.spare ≤ self.new.spare }
        ensures memory { OnErr result (self.old.spare ≡ 0) }
    {
        if self.spare.is_empty() {
            return self.reserve(1);
        }
        Ok(())
    }
}

// Puts copies of the rows of a form into spare rows, so nothing is allocated.
fn put_rows<F: Field>(lines: &mut Vec<(usize, Vec<F>)>, spare: &mut Vec<Vec<F>>, other: &Echelon<F>)
    requires empty { lines.old.items ≡ [] }
    requires room { vec_len spare.old ≤ vec_capacity lines.old }
    requires enough { length other.now.rows ≤ vec_len spare.old }
    requires long { HaveLength other.now.width (map (λ r. r.items) spare.old.items) }
    ensures room { vec_len lines.new + vec_len spare.new ≤ vec_capacity lines.new }
    ensures less { vec_len spare.new + length other.now.rows ≡ vec_len spare.old }
    ensures long { HaveLength other.now.width (map (λ r. r.items) spare.new.items) }
    ensures rows { map {B = ℕ × List F} (λ r. (r.0, r.1.items)) lines.new.items ≡ other.now.rows }
{
    for line in &other.lines {
        let at = lines.len();
        put_line(lines, spare, at, line.0, &line.1);
    }
}
