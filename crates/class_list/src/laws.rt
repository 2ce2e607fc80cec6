// Laws over the definitions, as contracts of functions that do nothing.
ghost use Rattle.std.specs.Prelude.{◌≡◌, ◌+◌, ◌++◌, ℕ, List, Some, None};
ghost use Rattle.cyclo24.specs.ExactField.{Value};
ghost use Rattle.lin_alg.specs.Action.{Action, IsAction};
ghost use Rattle.class_list.specs.declared.order.Order.{Order as Ways};
ghost use Rattle.class_list.specs.Directions.{Direction as Subspace, IsListing};
ghost use Rattle.class_list.specs.Pages.{page};

use cyclo24::Field;

/// There is only one listing: two lists of directions that are listings of one action are equal.
pub fn law_of_listings<F: Field>()
    ensures { (act : Action) → IsAction F.field.laws act → (order : Ways) (ds es : List (Subspace (Value F.field))) → IsListing F.field.laws F.field.cmp act order ds → IsListing F.field.laws F.field.cmp act order es → ds ≡ es }
{}

/// The page after a with count c, followed by the page after a + c, is the page after a without count.
pub fn law_of_pages<F: Field>()
    ensures { (ds : List (Subspace (Value F.field))) (a c : ℕ) → page a (Some c) ds ++ page (a + c) None ds ≡ page a None ds }
{}
