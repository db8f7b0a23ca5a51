//! Locations as labels.

ghost use Rattle.std.specs.Prelude.{◌≡◌, ◌<◌, ◌≤◌, IfOk};
ghost use Rattle.std.specs.List.{All, filter_map};
ghost use Rattle.worklist.specs.declared.labels.Root.{Root};
ghost use Rattle.call_graph.specs.Labels.{label_of, touch_root, write_root};

use crate::acts::Act;
use crate::deeds::Deed;
use std::alloc::Global;
use wasm_types::{Loc, NoMemory};
use worklist::Root;

/// The number of a location: none of a local.
pub(crate) fn label(loc: Loc) -> Option<usize>
    ensures { result ≡ label_of loc }
{
    match loc {
        Loc::Local(_) => None,
        Loc::Mem => Some(0),
        Loc::Size => Some(1),
        Loc::Host => Some(2),
        Loc::Global(global) => Some(global as usize + 3),
    }
}

/// The location that one touches who does that, at its function.
fn touched(act: Act) -> Option<Root>
    ensures { result ≡ touch_root act }
{
    match act.deed {
        Deed::Touches(loc) => {
            let label = label(loc)?;
            Some(Root {
                label,
                node: act.func,
            })
        }
        _ => None,
    }
}

/// The location that one writes who does that, at its function.
fn written(act: Act) -> Option<Root>
    ensures { result ≡ write_root act }
{
    match act.deed {
        Deed::Writes(loc) => {
            let label = label(loc)?;
            Some(Root {
                label,
                node: act.func,
            })
        }
        _ => None,
    }
}

/// Where the locations that functions touch by themselves begin. It fails only where an allocation is refused.
pub(crate) fn touches(alloc: Global, acts: &[Act]) -> Result<Vec<Root>, NoMemory>
    ensures { IfOk result (λ roots. roots.items ≡ filter_map touch_root acts.now) }
{
    let mut roots = Vec::new(alloc);
    for act in acts {
        match touched(*act) {
            Some(root) => roots.push(root).map_err(|_| NoMemory)?,
            None => {}
        }
    }
    Ok(roots)
}

/// Where the locations that functions write by themselves begin. It fails only where an allocation is refused.
pub(crate) fn writes(alloc: Global, acts: &[Act]) -> Result<Vec<Root>, NoMemory>
    ensures { IfOk result (λ roots. roots.items ≡ filter_map write_root acts.now) }
{
    let mut roots = Vec::new(alloc);
    for act in acts {
        match written(*act) {
            Some(root) => roots.push(root).map_err(|_| NoMemory)?,
            None => {}
        }
    }
    Ok(roots)
}

/// The least number that isn't below another and above a label. It fails only where there is none.
fn above(columns: usize, label: usize) -> Result<usize, NoMemory>
    ensures kept { IfOk result (λ more. columns ≤ more) }
    ensures above { IfOk result (λ more. label < more) }
{
    if label < columns {
        return Ok(columns);
    }
    if label == usize::MAX {
        return Err(NoMemory);
    }
    Ok(label + 1)
}

/// A number above all labels of the roots. It fails only where there is none, so that no allocation could have so many columns.
pub(crate) fn columns(roots: &[Root]) -> Result<usize, NoMemory>
    ensures { IfOk result (λ columns. All (λ (root : Root). root.label < columns) roots.now) }
{
    let mut columns = 0;
    for root in roots {
        columns = above(columns, root.label)?;
    }
    Ok(columns)
}
