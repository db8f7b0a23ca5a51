//! Tables that grow, function by function, until no function's rows would grow.

ghost use Rattle.std.specs.Prelude.{◌≡◌, ℕ, ◌+◌, ◌<◌, ◌≤◌, ◌⊎◌, ◌≢◌, IfOk, IsTrue, length, true, false, if◌then◌else◌};
ghost use Rattle.std.specs.List.{All, Contains};
ghost use Rattle.worklist.specs.Gains.{Gains};
ghost use Rattle.worklist.specs.Search.{IsMarked};

use std::alloc::Global;
use wasm_types::NoMemory;

/// A table of rows by function. An implementation says by `full` that one more step would add nothing to a function's rows, by `sound` what holds of every table that is made, and by `left` how much the table can still grow.
pub trait Settles {
    ghost func_count: { Self → ℕ };

    ghost reads: { Self → ℕ → ℕ → Type 0 };

    ghost sound: { Self → Type 0 };

    ghost full: { Self → ℕ → Type 0 };

    ghost left: { Self → ℕ };

    /// How many functions there are.
    fn func_count(&self) -> usize
        ensures { result ≡ func_count self.now };

    /// Makes a function's rows anew: true where they have grown. It fails only where memory is refused.
    fn update(&mut self, func: usize) -> Result<bool, NoMemory>
        requires within { func < func_count self.old }
        requires sound { sound self.old }
        ensures count { IfOk result (λ _. func_count self.new ≡ func_count self.old) }
        ensures sound { IfOk result (λ _. sound self.new) }
        ensures full { IfOk result (λ _. full self.new func) }
        ensures others { IfOk result (λ grew. (f : ℕ) → full self.old f → (IsTrue grew → reads self.new f func → ⊥) → full self.new f) }
        ensures left { IfOk result (λ grew. left self.new + (if grew then 1 else 0) ≤ left self.old) };

    /// Puts the functions whose rows are made from those of `func` at the end of `readers`. It fails only where memory is refused.
    fn push_readers(&self, func: usize, readers: &mut Vec<usize>) -> Result<(), NoMemory>
        requires { func < func_count self.now }
        ensures { IfOk result (λ _. Gains (λ f. (f < func_count self.now) × reads self.now f func) readers.old.items readers.new.items) };

    /// Functions that read rows are functions.
    ghost readers_are: { (table : Self) (f g : ℕ) → reads table f g → f < func_count table };
}

/// Marks each of some functions.
fn mark_each(dirty: &mut [bool], funcs: &[usize])
    requires { All (λ f. f < length dirty.old) funcs.now }
    ensures kept { (f : ℕ) → IsMarked dirty.old f → IsMarked dirty.new f }
    ensures all { (f : ℕ) → Contains funcs.now f → IsMarked dirty.new f }
{
    for func in funcs {
        dirty[*func] = true;
    }
}

/// Makes a function's rows anew, and marks the functions that read them where they have grown; true where they have.
fn refresh<S: Settles>(
    alloc: Global,
    table: &mut S,
    dirty: &mut [bool],
    func: usize,
) -> Result<bool, NoMemory>
    requires within { func < S.func_count table.old }
    requires sound { S.sound table.old }
    requires length { length dirty.old ≡ S.func_count table.old }
    requires settled { (f : ℕ) → f < S.func_count table.old → S.full table.old f ⊎ IsMarked dirty.old f }
    ensures count { IfOk result (λ _. S.func_count table.new ≡ S.func_count table.old) }
    ensures sound { IfOk result (λ _. S.sound table.new) }
    ensures settled { IfOk result (λ _. (f : ℕ) → f < S.func_count table.old → S.full table.new f ⊎ IsMarked dirty.new f) }
    ensures left { IfOk result (λ grew. S.left table.new + (if grew then 1 else 0) ≤ S.left table.old) }
    ensures full { IfOk result (λ grew. grew ≡ false → (S.full table.new func × ((f : ℕ) → IsMarked dirty.new f → IsMarked dirty.old f × (f ≢ func)))) }
{
    dirty[func] = false;
    let grew = table.update(func)?;
    if !grew {
        return Ok(false);
    }
    let mut readers = Vec::new(alloc);
    table.push_readers(func, &mut readers)?;
    mark_each(dirty, &readers);
    Ok(true)
}

/// Makes the rows of each marked function anew, in order; true where some have grown.
fn pass<S: Settles>(
    alloc: Global,
    table: &mut S,
    dirty: &mut [bool],
    order: &[usize],
) -> Result<bool, NoMemory>
    requires order { All (λ f. f < S.func_count table.old) order.now }
    requires sound { S.sound table.old }
    requires length { length dirty.old ≡ S.func_count table.old }
    requires settled { (f : ℕ) → f < S.func_count table.old → S.full table.old f ⊎ IsMarked dirty.old f }
    ensures count { IfOk result (λ _. S.func_count table.new ≡ S.func_count table.old) }
    ensures sound { IfOk result (λ _. S.sound table.new) }
    ensures settled { IfOk result (λ _. (f : ℕ) → f < S.func_count table.old → S.full table.new f ⊎ IsMarked dirty.new f) }
    ensures left { IfOk result (λ grew. S.left table.new + (if grew then 1 else 0) ≤ S.left table.old) }
    ensures full { IfOk result (λ grew. grew ≡ false → (f : ℕ) → Contains order.now f → IsMarked dirty.new f → ⊥) }
{
    let mut grew = false;
    for func in order {
        if dirty[*func] {
            if refresh(alloc, table, dirty, *func)? {
                grew = true;
            }
        }
    }
    Ok(grew)
}

/// Goes over the functions in order, callees best first, until no rows would grow. It makes anew only those rows that are made from others which grew. It fails
/// only where memory is refused.
pub fn settle<S: Settles>(alloc: Global, table: &mut S, order: &[usize]) -> Result<(), NoMemory>
    requires order { All (λ f. f < S.func_count table.old) order.now }
    requires whole { (f : ℕ) → f < S.func_count table.old → Contains order.now f }
    requires sound { S.sound table.old }
    ensures count { IfOk result (λ _. S.func_count table.new ≡ S.func_count table.old) }
    ensures sound { IfOk result (λ _. S.sound table.new) }
    ensures full { IfOk result (λ _. (f : ℕ) → f < S.func_count table.old → S.full table.new f) }
{
    let mut dirty = vec![in alloc; true; table.func_count()].map_err(|_| NoMemory)?;
    loop {
        let grew = pass(alloc, table, &mut dirty, order)?;
        if !grew {
            return Ok(());
        }
    }
}
