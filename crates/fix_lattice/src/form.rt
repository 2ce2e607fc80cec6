// Forms as keys of a set.
ghost use Rattle.std.specs.Prelude.{◌≡◌, true};
ghost use Rattle.std.specs.Cmp.{partial_equiv_from_equiv};
ghost use Rattle.std.proofs.lemmas.Cmp.{on_equiv};
ghost use Rattle.lin_alg.specs.Compared.{lines_eq, lines_fed};
ghost use Rattle.lin_alg.specs.CompareLaws.{lines_equiv, lines_respects};
ghost use Rattle.lin_alg.specs.Echelon.{IsEchelon};
ghost use Rattle.fix_lattice.specs.Subspaces.{same_rows};

use cyclo24::Field;
use lin_alg::Echelon;
use std::hash::{Hash, Hasher};
use std::marker::Model;

/// One whole form. Two are equal exactly where their rows are.
#[derive(Drop)]
pub struct Form<F: Field> {
    form: Echelon<F>,
}

impl<F: Field> Model for Form<F> {
    ghost use Rattle.std.specs.Prelude.{◌≡◌, true};
    ghost use Rattle.lin_alg.specs.Echelon.{EchelonView};

    ghost Value = { EchelonView F };

    ghost view = { λ k. k.form };

    ghost invariant = { λ k. k.form.whole ≡ true };
}

impl<F: Field> Form<F> {
    /// The form as a key.
    pub fn new(form: Echelon<F>) -> Form<F>
        requires whole { form.whole ≡ true }
        ensures { result ≡ form }
    {
        Form { form }
    }

    /// The form.
    pub fn form(&self) -> &Echelon<F>
        ensures form { result.now ≡ self.now }
        ensures whole { self.now.whole ≡ true }
    {
        &self.form
    }

    // The form itself, for other rows.
    pub(crate) fn into_echelon(self) -> Echelon<F>
        ensures { result ≡ self }
    {
        self.form
    }
}

impl<F: Field> PartialEq for Form<F> {
    ghost eq = { same_rows F.PartialEq.eq };

    ghost laws = { partial_equiv_from_equiv (on_equiv (λ a. a.rows) (lines_equiv F.Eq.laws)) };

    fn eq(&self, other: &Form<F>) -> bool {
        self.form == other.form
    }
}

impl<F: Field> Eq for Form<F> {
    ghost laws = { on_equiv (λ a. a.rows) (lines_equiv F.Eq.laws) };
}

impl<F: Field> Hash for Form<F> {
    ghost hash_input = { λ a. lines_fed F.Hash.hash_input a.rows };

    ghost respects_eq = { lines_respects (λ a. a.rows) F.Hash.respects_eq };

    fn hash<H: Hasher>(&self, state: &mut H) {
        self.form.hash(state);
    }
}
