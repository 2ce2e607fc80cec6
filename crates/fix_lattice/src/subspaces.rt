// The held fixed subspaces.
ghost use Rattle.std.specs.Prelude.{◌≡◌, ◌<◌, ◌↔◌, ℕ, Some, None, true, IfSome, length, slice_get};
ghost use Rattle.lin_alg.specs.Echelon.{EchelonView, IsEchelon};
ghost use Rattle.fix_lattice.specs.Subspaces.{AreWholeForms, IsWholeForm, same_rows};

use crate::Form;
use cyclo24::Field;
use indexmap::IndexSet;
use lin_alg::Echelon;
use std::marker::Model;

/// Fixed subspaces by their equations, each once.
#[derive(Drop)]
pub struct Subspaces<F: Field> {
    width: usize,
    forms: IndexSet<Form<F>>,
}

impl<F: Field> Model for Subspaces<F> {
    ghost use Rattle.fix_lattice.specs.Subspaces.{SubspacesView, AreWholeForms};

    ghost Value = { SubspacesView F };

    ghost view = { λ s. record { width = s.width; forms = s.forms.keys } };

    ghost invariant = { λ s. AreWholeForms F.field.laws F.value s.width s.forms.keys };
}

impl<F: Field> Subspaces<F> {
    // The forms of a set, all of this width.
    pub(crate) fn new(width: usize, forms: IndexSet<Form<F>>) -> Subspaces<F>
        requires { AreWholeForms F.field.laws F.value width forms.keys }
        ensures width { result.width ≡ width }
        ensures forms { result.forms ≡ forms.keys }
    {
        Subspaces { width, forms }
    }

    /// How many columns each form has.
    pub fn width(&self) -> usize
        ensures { result ≡ self.now.width }
    {
        self.width
    }

    /// How many there are.
    pub fn len(&self) -> usize
        ensures { result ≡ length self.now.forms }
    {
        self.forms.len()
    }

    /// The equations at a place.
    pub fn get(&self, i: usize) -> &Echelon<F>
        requires { i < length self.now.forms }
        ensures form { slice_get self.now.forms i ≡ Some result.now }
        ensures whole { IsWholeForm F.field.laws F.value self.now.width result.now }
    {
        self.forms[i].form()
    }

    /// The place of the form with these rows, and `None` exactly where no held form has them.
    pub fn find(&self, equations: &Echelon<F>) -> Option<usize>
        requires whole { equations.now.whole ≡ true }
        requires width { equations.now.width ≡ self.now.width }
        ensures found { IfSome result (λ i. (form : EchelonView F) × (slice_get self.now.forms i ≡ Some form) × (same_rows F.PartialEq.eq equations.now form ≡ true)) }
        ensures none { (result ≡ None) ↔ ((i : ℕ) (form : EchelonView F) → slice_get self.now.forms i ≡ Some form → same_rows F.PartialEq.eq equations.now form ≡ true → ⊥) }
    {
        let forms = self.forms.as_slice();
        for i in 0..forms.len() {
            if equations == forms[i].form() {
                return Some(i);
            }
        }
        None
    }

    /// The set that holds the forms, in the order of `get`.
    pub fn set(&self) -> &IndexSet<Form<F>>
        ensures keys { result.now.keys ≡ self.now.forms }
        ensures whole { AreWholeForms F.field.laws F.value self.now.width result.now.keys }
    {
        &self.forms
    }
}
