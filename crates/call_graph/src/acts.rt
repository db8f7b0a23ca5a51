//! What each function of a module does by itself.

ghost use Rattle.std.specs.Prelude.{◌≡◌, ◌++◌, ◌^◌, ◌<◌, ◌↔◌, ◌⊎◌, IfOk, length, map};
ghost use Rattle.std.specs.List.{Contains};
ghost use Rattle.std.specs.Option.{option_copied};
ghost use Rattle.wasm_types.specs.Spaces.{globals_of, type_of_func};
ghost use Rattle.body_check.specs.Numbered.{Describes};
ghost use Rattle.call_graph.specs.declared.acts.Act.{Act};
ghost use Rattle.call_graph.specs.Lists.{act_of};
ghost use Rattle.call_graph.specs.Deeds.{Does};
ghost use Rattle.call_graph.specs.Hosts.{AreHostDeeds};

use crate::deeds::{Deed, add_code};
use crate::hosts::host_deeds;
use body_check::Spaces;
use std::alloc::Global;
use wasm_types::{FuncType, Module, NoMemory};

/// A function, by its number, and what it does.
#[derive(Clone, Copy)]
pub(crate) struct Act {
    pub(crate) func: usize,
    pub(crate) deed: Deed,
}

/// The type of a function.
pub(crate) fn kind_of<'a>(m: &'a Module, spaces: &Spaces, func: usize) -> Option<&'a FuncType>
    requires { Describes spaces.now m.now }
    ensures { option_copied result ≡ type_of_func m.now func }
{
    let kind = *spaces.funcs.get(func)?;
    m.types.get(kind as usize)
}

/// Puts what a function does at the end.
fn push_each(acts: &mut Vec<Act>, func: usize, deeds: &[Deed]) -> Result<(), NoMemory>
    ensures { IfOk result (λ _. acts.new.items ≡ acts.old.items ++ map (act_of func) deeds.now) }
{
    for deed in deeds {
        acts.push(Act { func, deed: *deed }).map_err(|_| NoMemory)?;
    }
    Ok(())
}

/// Puts what a function of the module does at the end, given what each imported one does. In a valid module each has a type.
fn add_func(
    alloc: Global,
    m: &Module,
    spaces: &Spaces,
    host: &[Deed],
    func: usize,
    acts: &mut Vec<Act>,
) -> Result<(), NoMemory>
    requires described { Describes spaces.now m.now }
    requires host { AreHostDeeds m.now host.now }
    ensures { IfOk result (λ _. (a : Act) → Contains acts.new.items a ↔ (Contains acts.old.items a ⊎ ((a.func ≡ func) × Does m.now func a.deed))) }
{
    let Some(_kind) = kind_of(m, spaces, func) else {
        return Ok(());
    };
    let imports = spaces.funcs.len() - m.funcs.len();
    if func < imports {
        push_each(acts, func, host)?;
        return Ok(());
    }
    let Some(body) = m.bodies.get(func - imports) else {
        return Ok(());
    };
    let mut deeds = Vec::new(alloc);
    add_code(&mut deeds, body.code.as_slice())?;
    push_each(acts, func, &deeds)?;
    Ok(())
}

/// What each function of the module does. It fails only where an allocation is refused.
pub(crate) fn acts_of(alloc: Global, m: &Module, spaces: &Spaces) -> Result<Vec<Act>, NoMemory>
    requires described { Describes spaces.now m.now }
    requires few { length (globals_of m.now) < 2 ^ 32 }
    ensures { IfOk result (λ acts. (a : Act) → Contains acts.items a ↔ Does m.now a.func a.deed) }
{
    let host = host_deeds(alloc, m, spaces)?;
    let mut acts = Vec::new(alloc);
    for func in 0..spaces.funcs.len() {
        add_func(alloc, m, spaces, &host, func, &mut acts)?;
    }
    Ok(acts)
}
