//! Lists that grow.

ghost use Rattle.std.specs.Prelude.{◌≡◌, ◌≤◌, ◌++◌, ◌∷◌, [], length, OnErr, OnOk};

use wasm_types::NoMemory;

/// An item more at the end.
pub(crate) fn push<T: Drop>(list: &mut Vec<T>, item: T) -> Result<(), NoMemory>
    ensures ok { OnOk result (list.new.items ≡ list.old.items ++ item ∷ []) }
    ensures err { OnErr result (list.new.items ≡ list.old.items) }
{
    list.push(item).map_err(|_| NoMemory)?;
    Ok(())
}

/// Items more at the end. They are few mostly, and so go one by one.
pub(crate) fn push_all<T: Copy + Drop>(list: &mut Vec<T>, items: &[T]) -> Result<(), NoMemory>
    ensures ok { OnOk result (list.new.items ≡ list.old.items ++ items.now) }
    ensures longer { length list.old.items ≤ length list.new.items }
{
    for item in items {
        push(list, *item)?;
    }
    Ok(())
}
