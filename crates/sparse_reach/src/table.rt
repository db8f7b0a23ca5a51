//! A table of bits by row and label, of which only the rows that were met take memory.

ghost use Rattle.std.specs.Prelude.{◌≡◌, ℕ, ◌+◌, ◌*◌, ◌^◌, ◌<◌, ◌≤◌, ◌↔◌, IfOk, IsTrue, length, slice_index};
ghost use Rattle.worklist.specs.Bits.{HasBit};
ghost use Rattle.sparse_reach.specs.Batches.{by_node, word_of};

use indexmap::IndexSet;
use std::alloc::Global;
use std::marker::Model;
use wasm_types::NoMemory;

/// The words of the rows that were met, in batches, by their numbers.
#[derive(Drop)]
struct RowWords {
    rows: usize,
    nodes: IndexSet<usize>,
    batches: Vec<Vec<u64>>,
}

impl Model for RowWords {
    ghost use Rattle.std.specs.Prelude.{List, ℕ};
    ghost use Rattle.sparse_reach.specs.Batches.{by_node};

    ghost Value = { List ℕ };

    ghost view = { λ words. by_node words.rows words.nodes.keys words.batches.items };
}

/// The word of a number, and zero where there is none.
fn word_of_number(words: &[u64], number: Option<usize>) -> u64
    ensures { result ≡ word_of words.now number }
{
    let Some(number) = number else {
        return 0;
    };
    match words.get(number) {
        Some(word) => *word,
        None => 0,
    }
}

impl RowWords {
    fn get(&self, at: usize) -> u64
        requires { at < length self.now }
        ensures { result ≡ slice_index self.now at }
    {
        let count = self.batches.len();
        let number = self.nodes.get_index_of(&(at / count));
        word_of_number(&self.batches[at % count], number)
    }
}

#[derive(Drop)]
pub struct SparseRows {
    rows: usize,
    words: usize,
    bits: RowWords,
    ghost sized: { rows * words ≤ length bits },
    ghost few: { rows * words < 2 ^ 64 },
}

impl SparseRows {
    /// So many rows: those of the nodes have the words of the batches, and the others none.
    pub(crate) fn new(
        rows: usize,
        nodes: IndexSet<usize>,
        batches: Vec<Vec<u64>>,
    ) -> Result<SparseRows, NoMemory>
        ensures rows { IfOk result (λ table. table.rows ≡ rows) }
        ensures words { IfOk result (λ table. table.words ≡ length batches.items) }
        ensures bits { IfOk result (λ table. table.bits ≡ by_node rows nodes.keys batches.items) }
    {
        let words = batches.len();
        if rows.checked_mul(words).is_none() {
            return Err(NoMemory);
        }
        let bits = RowWords {
            rows,
            nodes,
            batches,
        };
        Ok(SparseRows { rows, words, bits })
    }

    fn word_place(&self, row: usize, at: usize) -> usize
        requires row { row < self.now.rows }
        requires at { at < self.now.words }
        ensures place { result ≡ row * self.now.words + at }
        ensures within { result < length self.now.bits }
    {
        row * self.words + at
    }

    pub fn has(&self, row: usize, label: usize) -> bool
        requires row { row < self.now.rows }
        requires label { label < self.now.words * 64 }
        ensures { IsTrue result ↔ HasBit self.now.words self.now.bits row label }
    {
        let place = self.word_place(row, label / 64);
        (self.bits.get(place) >> (label % 64)) & 1 == 1
    }
}
