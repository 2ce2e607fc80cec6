// Memory for lists.
ghost use Rattle.std.specs.Prelude.{◌≡◌, ◌++◌, ◌∷◌, [], true, false, OnOk};

use iso_text::NoMemory;

// Adds an item at the end.
pub(crate) fn push<T: Drop>(items: &mut Vec<T>, item: T) -> Result<(), NoMemory>
    ensures { OnOk result (items.new.items ≡ items.old.items ++ item ∷ []) }
{
    match items.push(item) {
        Ok(()) => Ok(()),
        Err(_) => Err(NoMemory),
    }
}

// Adds an item at the end where it is wanted.
pub(crate) fn push_if<T: Drop>(items: &mut Vec<T>, item: T, wanted: bool) -> Result<(), NoMemory>
    ensures added { OnOk result (wanted ≡ true → items.new.items ≡ items.old.items ++ item ∷ []) }
    ensures same { OnOk result (wanted ≡ false → items.new.items ≡ items.old.items) }
{
    if wanted {
        return push(items, item);
    }
    Ok(())
}
