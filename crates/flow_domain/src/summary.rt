//! What the outputs of a function may depend on.

ghost use Rattle.std.specs.Prelude.{◌≡◌, ℕ, ◌+◌, ◌*◌, ◌/◌, ◌^◌, ◌<◌, ◌≤◌, ◌↔◌, ◌⊎◌, IfOk, IfSome, IsSome, IsTrue, length, vec_len, sum, false, slice_index, bit_or, if◌then◌else◌};

use std::alloc::Global;
use wasm_types::NoMemory;

/// What a run of a function begins with: a parameter, a global, the bytes of the memory, the number of its pages, or the host with the calls that it got.
#[derive(Clone, Copy, Debug, PartialEq, Eq)]
pub enum Input {
    Param(u32),
    Global(u32),
    Mem,
    Size,
    Host,
}

/// What a run of a function leaves: its results, a global, the bytes of the memory, the number of its pages or the host at its end, and that it returns at all.
#[derive(Clone, Copy, Debug, PartialEq, Eq)]
pub enum Output {
    Ret,
    Global(u32),
    Mem,
    Size,
    Host,
    Done,
}

/// For each output of a function the inputs that it may depend on, as a row of bits. Each global of the module has a row and a column, and the memory has them
/// whether there is one or not.
#[derive(Drop)]
pub struct Summary {
    globals: u32,
    params: u32,
    bits: Vec<u64>,
    ghost sized: { vec_len bits ≡ (5 + globals) * ((globals + params + 2) / 64 + 1) },
}

/// How many words of 64 bits a row takes.
fn word_count(globals: u32, params: u32) -> usize
    ensures { result ≡ (globals + params + 2) / 64 + 1 }
{
    (globals as usize + params as usize + 2) / 64 + 1
}

/// The k-th of so many, where there are some before them.
fn among(before: usize, count: u32, k: u32) -> Option<usize>
    requires { before < 2 ^ 33 }
    ensures some { IfSome result (λ place. (k < count) × (place ≡ before + k)) }
    ensures none { result ≡ None → count ≤ k }
{
    if k < count {
        Some(before + k as usize)
    } else {
        None
    }
}

/// It does nothing: what its clause says is known of any words.
fn words_bound(words: &[u64])
    ensures { sum words.now ≤ length words.now * 2 ^ 64 }
{}

/// Sets the bits of some words in as many others: true where one was new.
fn raise_each(words: &mut [u64], more: &[u64]) -> bool
    requires { length more.now ≡ length words.old }
    ensures words { (k : ℕ) → slice_index words.new k ≡ bit_or (slice_index words.old k) (slice_index more.now k) }
    ensures same { result ≡ false → words.new ≡ words.old }
    ensures rose { IsTrue result → sum words.old < sum words.new }
{
    let mut grew = false;
    for k in 0..words.len() {
        let old = words[k];
        let new = old | more[k];
        words[k] = new;
        if new != old {
            grew = true;
        }
    }
    grew
}

impl Output {
    ghost use Rattle.flow_domain.specs.Summaries.{asked, row_number};

    /// Its row in a summary with so many globals: none of a global that isn't there.
    fn row(self, globals: u32) -> Option<usize>
        ensures exact { result ≡ row_number globals (asked self) }
        ensures within { IfSome result (λ row. row < 5 + globals) }
    {
        match self {
            Output::Done => Some(0),
            Output::Ret => Some(1),
            Output::Mem => Some(2),
            Output::Size => Some(3),
            Output::Host => Some(4),
            Output::Global(global) => among(5, globals, global),
        }
    }
}

impl Input {
    ghost use Rattle.flow_domain.specs.Summaries.{column_number, place_of};

    /// Its column in a summary with so many globals and parameters: none of a global or parameter that isn't there.
    fn column(self, globals: u32, params: u32) -> Option<usize>
        ensures exact { result ≡ column_number globals params (place_of self) }
        ensures within { IfSome result (λ column. column < 3 + globals + params) }
    {
        match self {
            Input::Mem => Some(0),
            Input::Size => Some(1),
            Input::Host => Some(2),
            Input::Global(global) => among(3, globals, global),
            Input::Param(param) => among(3 + globals as usize, params, param),
        }
    }
}

impl Summary {
    ghost use Rattle.wasm_types.specs.declared.place.Loc.{Loc};
    ghost use Rattle.worklist.specs.Bits.{HasBit};
    ghost use Rattle.flow_domain.specs.Rows.{Output as Asked};
    ghost use Rattle.flow_domain.specs.Summaries as spec;

    /// No output of a function with so many parameters, in a module with so many globals, depends on anything. It fails only where memory is refused.
    pub fn none(alloc: Global, globals: u32, params: u32) -> Result<Summary, NoMemory>
        ensures shape { IfOk result (λ s. spec.IsShape globals params s) }
        ensures none { IfOk result (λ s. (o : Asked) (x : Loc) → spec.HasInput s o x → ⊥) }
    {
        let words = word_count(globals, params);
        let bits = vec![in alloc; 0u64; (5 + globals as usize) * words].map_err(|_| NoMemory)?;
        Ok(Summary {
            globals,
            params,
            bits,
        })
    }

    /// How many globals have rows and columns.
    pub fn globals(&self) -> u32
        ensures { result ≡ self.now.globals }
    {
        self.globals
    }

    /// How many parameters have columns.
    pub fn params(&self) -> u32
        ensures { result ≡ self.now.params }
    {
        self.params
    }

    /// Where the word of a column stands in a row.
    fn place(&self, row: usize, column: usize) -> usize
        requires row { row < 5 + self.now.globals }
        requires column { column < 3 + self.now.globals + self.now.params }
        ensures place { result ≡ row * spec.word_count self.now.globals self.now.params + column / 64 }
        ensures within { result < vec_len self.now.bits }
    {
        row * word_count(self.globals, self.params) + column / 64
    }

    fn bit(&self, row: usize, column: usize) -> bool
        requires row { row < 5 + self.now.globals }
        requires column { column < 3 + self.now.globals + self.now.params }
        ensures { IsTrue result ↔ HasBit (spec.word_count self.now.globals self.now.params) self.now.bits.items row column }
    {
        (self.bits[self.place(row, column)] >> (column % 64)) & 1 == 1
    }

    /// Whether an output depends on an input: false also where there is no such output or input.
    pub fn has(&self, out: Output, inp: Input) -> bool
        ensures { IsTrue result ↔ spec.HasInput self.now (spec.asked out) (spec.place_of inp) }
    {
        let Some(row) = out.row(self.globals) else {
            return false;
        };
        let Some(column) = inp.column(self.globals, self.params) else {
            return false;
        };
        self.bit(row, column)
    }

    /// Has an output depend on an input.
    pub fn add(&mut self, out: Output, inp: Input)
        requires out { IsSome (spec.row_number self.old.globals (spec.asked out)) }
        requires inp { IsSome (spec.column_number self.old.globals self.old.params (spec.place_of inp)) }
        ensures shape { spec.IsShape self.old.globals self.old.params self.new }
        ensures added { (o : Asked) (x : Loc) →
            spec.HasInput self.new o x ↔ (spec.HasInput self.old o x ⊎ ((o ≡ spec.asked out) × (x ≡ spec.place_of inp))) }
    {
        let Some(row) = out.row(self.globals) else {
            unreachable!()
        };
        let Some(column) = inp.column(self.globals, self.params) else {
            unreachable!()
        };
        let place = self.place(row, column);
        let word = self.bits[place];
        self.bits[place] = word | 1u64 << (column % 64);
    }

    /// Adds all that another summary of the same shape has: true where something was new.
    pub fn merge(&mut self, other: &Summary) -> bool
        requires { spec.IsShape self.old.globals self.old.params other.now }
        ensures shape { spec.IsShape self.old.globals self.old.params self.new }
        ensures merged { (o : Asked) (x : Loc) → spec.HasInput self.new o x ↔ (spec.HasInput self.old o x ⊎ spec.HasInput other.now o x) }
        ensures same { result ≡ false → (o : Asked) (x : Loc) → spec.HasInput other.now o x → spec.HasInput self.old o x }
        ensures room { spec.room self.new + (if result then 1 else 0) ≤ spec.room self.old }
    {
        let grew = raise_each(&mut self.bits, &other.bits);
        words_bound(&self.bits);
        grew
    }
}
