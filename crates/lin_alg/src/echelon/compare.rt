// Equality, order and hash of forms, by the entries of their rows alone.
ghost use Rattle.std.specs.Prelude.{◌≡◌, Some, refl, length, map, fold};
ghost use Rattle.std.specs.Cmp.{partial_equiv_from_equiv};
ghost use Rattle.std.proofs.lemmas.Cmp.{on_equiv, on_total};
ghost use Rattle.lin_alg.specs.Compared.{lines_cmp, lines_eq, lines_fed};
ghost use Rattle.lin_alg.specs.CompareLaws.{lines_total, lines_ties, lines_equiv, lines_po, lines_respects};

use super::Echelon;
use cyclo24::Field;
use std::cmp::Ordering;
use std::hash::{Hash, Hasher};

// Compares rows entry by entry, the first row that differs first.
fn cmp_lines<F: Field>(a: &[(usize, Vec<F>)], b: &[(usize, Vec<F>)]) -> Ordering
    ensures { result ≡ lines_cmp F.Ord.cmp (map (λ r. (r.0, r.1.items)) a.now) (map (λ r. (r.0, r.1.items)) b.now) }
{
    for i in 0..a.len().min(b.len()) {
        match a[i].1.cmp(&b[i].1) {
            Ordering::Equal => {}
            order => return order,
        }
    }
    a.len().cmp(&b.len())
}

// Whether the rows have the same entries.
fn eq_lines<F: Field>(a: &[(usize, Vec<F>)], b: &[(usize, Vec<F>)]) -> bool
    ensures { result ≡ lines_eq F.PartialEq.eq (map (λ r. (r.0, r.1.items)) a.now) (map (λ r. (r.0, r.1.items)) b.now) }
{
    if a.len() != b.len() {
        return false;
    }
    for i in 0..a.len() {
        if a[i].1 != b[i].1 {
            return false;
        }
    }
    true
}

// Feeds the entries of the rows.
fn hash_lines<F: Field, H: Hasher>(lines: &[(usize, Vec<F>)], state: &mut H)
    ensures { state.new ≡ fold H.Hasher.write state.old (lines_fed F.Hash.hash_input (map (λ r. (r.0, r.1.items)) lines.now)) }
{
    lines.len().hash(state);
    for line in lines {
        line.1.hash(state);
    }
}

impl<F: Field> PartialEq for Echelon<F> {
    ghost eq = { λ a b. lines_eq F.PartialEq.eq a.rows b.rows };

    ghost laws = { partial_equiv_from_equiv (on_equiv (λ a. a.rows) (lines_equiv F.Eq.laws)) };

    fn eq(&self, other: &Echelon<F>) -> bool {
        eq_lines(&self.lines, &other.lines)
    }
}

impl<F: Field> Eq for Echelon<F> {
    ghost laws = { on_equiv (λ a. a.rows) (lines_equiv F.Eq.laws) };
}

impl<F: Field> PartialOrd for Echelon<F> {
    ghost partial_cmp = { λ a b. Some (lines_cmp F.Ord.cmp a.rows b.rows) };

    ghost laws = { lines_po (λ a. a.rows) F.Ord.total F.Ord.matches_eq };

    fn partial_cmp(&self, other: &Echelon<F>) -> Option<Ordering> {
        Some(self.cmp(other))
    }
}

impl<F: Field> Ord for Echelon<F> {
    ghost cmp = { λ a b. lines_cmp F.Ord.cmp a.rows b.rows };

    ghost total = { on_total (λ a. a.rows) (lines_total F.Ord.total) };

    ghost matches_partial_cmp = { λ a b. refl };

    ghost matches_eq = { λ a b. lines_ties F.Ord.cmp F.Ord.matches_eq a.rows b.rows };

    fn cmp(&self, other: &Echelon<F>) -> Ordering {
        cmp_lines(&self.lines, &other.lines)
    }
}

impl<F: Field> Hash for Echelon<F> {
    ghost hash_input = { λ a. lines_fed F.Hash.hash_input a.rows };

    ghost respects_eq = { lines_respects (λ a. a.rows) F.Hash.respects_eq };

    fn hash<H: Hasher>(&self, state: &mut H) {
        hash_lines(&self.lines, state);
    }
}
