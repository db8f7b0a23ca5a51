//! Labels that go along edges, in rounds.

ghost use Rattle.std.specs.Prelude.{◌≡◌, ℕ, ◌+◌, ◌*◌, ◌<◌, ◌≤◌, ◌^◌, ◌↔◌, IfOk, IsTrue, false, length, sum};
ghost use Rattle.std.specs.Int.{bit_at};
ghost use Rattle.std.specs.List.{All};
ghost use Rattle.worklist.specs.Bits.{GainsBits, HasBit};
ghost use Rattle.worklist.specs.Reached.{Reached};
ghost use Rattle.worklist.specs.Roots.{IsRootOf};
ghost use Rattle.sparse_reach.specs.Met.{Listed};
ghost use Rattle.sparse_reach.specs.Batches as spec;

use crate::met::Edge;
use std::alloc::Global;
use wasm_types::NoMemory;
use worklist::Root;

/// It does nothing: what its clause says is known of any words.
fn words_bound(words: &[u64])
    ensures { sum words.now ≤ length words.now * 2 ^ 64 }
{}

/// Sets the bits of a word in the word of a number: true where one was new.
fn raise(words: &mut [u64], number: usize, word: u64) -> bool
    requires { number < length words.old }
    ensures gains { GainsBits 1 (λ x o. (x ≡ number) × (bit_at word o ≡ 1)) words.old words.new }
    ensures same { result ≡ false → words.new ≡ words.old }
    ensures rose { IsTrue result → sum words.old < sum words.new }
{
    let old = words[number];
    let new = old | word;
    words[number] = new;
    new != old
}

/// Gives the second node of each edge, one after another, the labels of the first; true where one was new.
fn round(words: &mut [u64], edges: &[Edge]) -> bool
    requires { All (λ edge. (edge.from < length words.old) × (edge.to < length words.old)) edges.now }
    ensures length { length words.new ≡ length words.old }
    ensures kept { (x o : ℕ) → o < 64 → HasBit 1 words.old x o → HasBit 1 words.new x o }
    ensures led { (x o : ℕ) → o < 64 → HasBit 1 words.new x o → Reached (λ y. HasBit 1 words.old y o) (Listed edges.now) x }
    ensures closed { result ≡ false → (x y o : ℕ) → o < 64 → Listed edges.now x y → HasBit 1 words.new x o → HasBit 1 words.new y o }
    ensures rose { IsTrue result → sum words.old < sum words.new }
{
    let mut grew = false;
    for edge in edges {
        let word = words[edge.from as usize];
        let more = raise(words, edge.to as usize, word);
        if more {
            grew = true;
        }
    }
    grew
}

/// Gives each node the labels of all that lead to it by the edges.
fn spread(words: &mut [u64], edges: &[Edge])
    requires { All (λ edge. (edge.from < length words.old) × (edge.to < length words.old)) edges.now }
    ensures length { length words.new ≡ length words.old }
    ensures exact { (x o : ℕ) → o < 64 → (HasBit 1 words.new x o ↔ Reached (λ y. HasBit 1 words.old y o) (Listed edges.now) x) }
{
    loop {
        let grew = round(words, edges);
        words_bound(words);
        if !grew {
            return;
        }
    }
}

/// Sets the bit of a root's label, where it is in the batch.
fn start(words: &mut [u64], root: Root, batch: usize)
    requires { root.node < length words.old }
    ensures { GainsBits 1 (λ x o. (x ≡ root.node) × (batch * 64 + o ≡ root.label)) words.old words.new }
{
    if root.label / 64 == batch {
        raise(words, root.node, 1u64 << (root.label % 64));
    }
}

fn start_each(words: &mut [u64], roots: &[Root], batch: usize)
    requires { All (λ root. root.node < length words.old) roots.now }
    ensures { GainsBits 1 (λ x o. IsRootOf roots.now (batch * 64 + o) x) words.old words.new }
{
    for root in roots {
        start(words, *root, batch);
    }
}

/// The labels of a batch: by number a bit for each.
fn labels_in(
    alloc: Global,
    count: usize,
    roots: &[Root],
    edges: &[Edge],
    batch: usize,
) -> Result<Vec<u64>, NoMemory>
    requires roots { All (λ root. root.node < count) roots.now }
    requires edges { All (λ edge. (edge.from < count) × (edge.to < count)) edges.now }
    ensures { IfOk result (λ words. spec.AreLabels roots.now edges.now batch words.items) }
{
    let mut words = vec![in alloc; 0u64; count].map_err(|_| NoMemory)?;
    start_each(&mut words, roots, batch);
    spread(&mut words, edges);
    Ok(words)
}

/// For each node, by number, the labels of the roots that lead to it by the edges, in batches of 64.
pub(crate) fn batches(
    alloc: Global,
    count: usize,
    labels: usize,
    roots: &[Root],
    edges: &[Edge],
) -> Result<Vec<Vec<u64>>, NoMemory>
    requires roots { All (λ root. root.node < count) roots.now }
    requires edges { All (λ edge. (edge.from < count) × (edge.to < count)) edges.now }
    ensures enough { IfOk result (λ batches. labels ≤ length batches.items * 64) }
    ensures exact { IfOk result (λ batches. spec.AreBatches roots.now edges.now batches.items) }
{
    let mut batches = Vec::new(alloc);
    for batch in 0..labels.div_ceil(64) {
        let words = labels_in(alloc, count, roots, edges, batch)?;
        batches.push(words).map_err(|_| NoMemory)?;
    }
    Ok(batches)
}
