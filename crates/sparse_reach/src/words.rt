//! A list of words, all zero at first, whose memory is taken a page at a time where a word is written.

ghost use Rattle.std.specs.Prelude.{◌≡◌, ℕ, ◌/◌, ◌%◌, ◌^◌, ◌<◌, ◌≤◌, List, IfOk, IfErr, length, vec_len, slice_index, slice_set, bit_or};
ghost use Rattle.std.specs.List.{All};
ghost use Rattle.sparse_reach.specs.Pages.{filled, flat, IsPage};

use std::alloc::Global;
use std::marker::Model;
use wasm_types::NoMemory;

const PAGE: usize = 512;

#[derive(Drop)]
pub struct Words {
    pages: Vec<Vec<u64>>,
}

impl Model for Words {
    ghost Value = { List ℕ };

    ghost view = { λ words. flat words.pages.items };

    ghost invariant = { λ words. All IsPage words.pages.items };
}

/// A page to its full length, with zeros.
fn fill(page: &mut Vec<u64>) -> Result<(), NoMemory>
    requires { IsPage page.old }
    ensures page { IsPage page.new }
    ensures same { filled page.new.items ≡ filled page.old.items }
    ensures full { IfOk result (λ _. vec_len page.new ≡ 512) }
{
    if page.len() < PAGE {
        page.reserve_exact(PAGE - page.len()).map_err(|_| NoMemory)?;
        page.resize(PAGE, 0).map_err(|_| NoMemory)?;
    }
    Ok(())
}

/// Sets a word's bits in a page.
fn raise_in(page: &mut Vec<u64>, at: usize, word: u64) -> Result<(), NoMemory>
    requires page { IsPage page.old }
    requires at { at < 512 }
    ensures page { IsPage page.new }
    ensures kept { IfErr result (λ _. filled page.new.items ≡ filled page.old.items) }
    ensures set { IfOk result (λ _. filled page.new.items ≡ slice_set (filled page.old.items) at (bit_or (slice_index (filled page.old.items) at) word)) }
{
    fill(page)?;
    let new = page[at] | word;
    page[at] = new;
    Ok(())
}

impl Words {
    /// At least as many as asked for.
    pub fn new(alloc: Global, count: usize) -> Result<Words, NoMemory>
        ensures length { IfOk result (λ words. count ≤ length words) }
        ensures zero { IfOk result (λ words. (i : ℕ) → slice_index words i ≡ 0) }
    {
        let needed = count / PAGE + 1;
        let mut pages = Vec::with_capacity(alloc, needed).map_err(|_| NoMemory)?;
        for _page in 0..needed {
            pages.push(Vec::new(alloc)).map_err(|_| NoMemory)?;
        }
        Ok(Words { pages })
    }

    pub fn get(&self, at: usize) -> u64
        requires { at < length self.now }
        ensures { result ≡ slice_index self.now at }
    {
        let page = &self.pages[at / PAGE];
        let place = at % PAGE;
        if place < page.len() { page[place] } else { 0 }
    }

    /// Sets a word's bits.
    pub fn raise(&mut self, at: usize, word: u64) -> Result<(), NoMemory>
        requires { at < length self.old }
        ensures length { length self.new ≡ length self.old }
        ensures set { IfOk result (λ _. self.new ≡ slice_set self.old at (bit_or (slice_index self.old at) word)) }
    {
        raise_in(&mut self.pages[at / PAGE], at % PAGE, word)?;
        Ok(())
    }
}
