//! Tables of labels by row, as bits in words.

ghost use Rattle.std.specs.Prelude.{◌≡◌, ℕ, ◌+◌, ◌*◌, ◌/◌, ◌^◌, ◌<◌, ◌≤◌, ◌↔◌, IfOk, IsTrue, length, vec_len, sum, false, slice_index, slice_set, bit_or};
ghost use Rattle.worklist.specs.Bits.{HasBit, GainsBits};

use std::alloc::Global;
use wasm_types::NoMemory;

/// It does nothing: what its clause says is known of any words.
fn words_bound(words: &[u64])
    ensures { sum words.now ≤ length words.now * 2 ^ 64 }
{}

/// For each row a set of labels, in words of 64 bits. It takes 8 bytes for each 64 labels of a row, set or not.
#[derive(Drop)]
pub struct BitRows {
    rows: usize,
    words: usize,
    bits: Vec<u64>,
    ghost sized: { vec_len bits ≡ rows * words },
}

impl BitRows {
    /// So many rows, with no label, for at least so many labels. It fails only where memory is refused.
    pub fn new(alloc: Global, rows: usize, labels: usize) -> Result<BitRows, NoMemory>
        ensures rows { IfOk result (λ table. table.rows ≡ rows) }
        ensures words { IfOk result (λ table. labels ≤ table.words * 64) }
        ensures none { IfOk result (λ table. (row label : ℕ) → HasBit table.words table.bits.items row label → ⊥) }
    {
        let words = labels.div_ceil(64);
        let len = match rows.checked_mul(words) {
            Some(len) => len,
            None => return Err(NoMemory),
        };
        let bits = vec![in alloc; 0u64; len].map_err(|_| NoMemory)?;
        Ok(BitRows { rows, words, bits })
    }

    /// It does nothing: what its clause says is known of any table.
    pub fn bound(&self)
        ensures { sum self.now.bits.items ≤ length self.now.bits.items * 2 ^ 64 }
    {
        words_bound(&self.bits);
    }

    /// Where the word of a label stands.
    fn place(&self, row: usize, label: usize) -> usize
        requires row { row < self.now.rows }
        requires label { label < self.now.words * 64 }
        ensures place { result ≡ row * self.now.words + label / 64 }
        ensures within { result < vec_len self.now.bits }
    {
        row * self.words + label / 64
    }

    /// Whether a row has a label.
    pub fn has(&self, row: usize, label: usize) -> bool
        requires row { row < self.now.rows }
        requires label { label < self.now.words * 64 }
        ensures { IsTrue result ↔ HasBit self.now.words self.now.bits.items row label }
    {
        (self.bits[self.place(row, label)] >> (label % 64)) & 1 == 1
    }

    /// Sets the bits of a word in the word at a place: true where one was new.
    fn raise(&mut self, place: usize, word: u64) -> bool
        requires { place < vec_len self.old.bits }
        ensures rows { self.new.rows ≡ self.old.rows }
        ensures words { self.new.words ≡ self.old.words }
        ensures bits { self.new.bits.items ≡ slice_set self.old.bits.items place (bit_or (slice_index self.old.bits.items place) word) }
        ensures same { result ≡ false → self.new.bits.items ≡ self.old.bits.items }
        ensures rose { IsTrue result → sum self.old.bits.items < sum self.new.bits.items }
    {
        let old = self.bits[place];
        let new = old | word;
        self.bits[place] = new;
        new != old
    }

    /// Gives a row a label: true where it is new.
    pub fn insert(&mut self, row: usize, label: usize) -> bool
        requires row { row < self.old.rows }
        requires label { label < self.old.words * 64 }
        ensures rows { self.new.rows ≡ self.old.rows }
        ensures words { self.new.words ≡ self.old.words }
        ensures gains { GainsBits self.old.words (λ r o. (r ≡ row) × (o ≡ label)) self.old.bits.items self.new.bits.items }
        ensures same { result ≡ false → self.new.bits.items ≡ self.old.bits.items }
        ensures rose { IsTrue result → sum self.old.bits.items < sum self.new.bits.items }
    {
        let place = self.place(row, label);
        self.raise(place, 1u64 << (label % 64))
    }

    /// Gives the row `into` all labels of the row `from`: true where one was new.
    pub fn merge(&mut self, from: usize, into: usize) -> bool
        requires from { from < self.old.rows }
        requires into { into < self.old.rows }
        ensures rows { self.new.rows ≡ self.old.rows }
        ensures words { self.new.words ≡ self.old.words }
        ensures gains { GainsBits self.old.words (λ r o. (r ≡ into) × HasBit self.old.words self.old.bits.items from o) self.old.bits.items self.new.bits.items }
        ensures same { result ≡ false → self.new.bits.items ≡ self.old.bits.items }
        ensures rose { IsTrue result → sum self.old.bits.items < sum self.new.bits.items }
    {
        let source = from * self.words;
        let target = into * self.words;
        let mut grew = false;
        for k in 0..self.words {
            let word = self.bits[source + k];
            if self.raise(target + k, word) {
                grew = true;
            }
        }
        grew
    }
}
