//! The memory of a run.

ghost use Rattle.std.specs.Prelude.{◌≡◌, ◌+◌, ◌^◌, ◌<◌, ◌≤◌, IfOk, OnErr, Some, None, if◌then◌else◌, length, replicate, is_some};

use crate::bytes::{copy_range, fill_range, load_number, put_bytes, store_number};
use std::alloc::Global;
use std::marker::Model;
use wasm_types::{MOST_PAGES, NoMemory};

/// The bytes of a page (WebAssembly Core Specification 1.0, section 4.2.8).
pub const PAGE_BYTES: u64 = 65_536;

/// Pages of bytes, and how many there may be.
#[derive(Drop)]
pub struct PageStore {
    pages: u32,
    bytes: Vec<u8>,
    max: Option<u32>,
    cap: u32,
}

impl Model for PageStore {
    ghost use Rattle.run_store.specs.Pages.{Paged, IsPaged};

    ghost Value = { Paged };

    ghost view = { λ p. record { pages = p.pages; bytes = p.bytes.items; max = p.max; cap = p.cap } };

    ghost invariant = { λ p. IsPaged (record { pages = p.pages; bytes = p.bytes.items; max = p.max; cap = p.cap }) };
}

impl PageStore {
    ghost use Rattle.wasm_types.specs.Hosts.{is_within};
    ghost use Rattle.wasm_meaning.specs.Memory.{bytes_at, bytes_of, number_from};
    ghost use Rattle.run_store.specs.Pages.{IsPaged, IsWidth, most_pages, zero_pages, grow_answer, grown, after_write, can_copy, after_copy};

    /// So many pages of zeros. There may be as many as the memory's maximum says, and no more than 65,536 and the cap.
    pub fn make(
        alloc: Global,
        pages: u32,
        max: Option<u32>,
        cap: u32,
    ) -> Result<PageStore, NoMemory>
        requires { pages ≤ most_pages max cap }
        ensures { IfOk result (λ p. p ≡ record { pages = pages; bytes = zero_pages pages; max = max; cap = cap }) }
    {
        let bytes = vec![in alloc; 0; PAGE_BYTES as usize * pages as usize]?;
        Ok(PageStore {
            pages,
            bytes,
            max,
            cap,
        })
    }

    /// How many pages there are.
    pub fn pages(&self) -> u32
        ensures same { result ≡ self.now.pages }
        ensures paged { IsPaged self.now }
    {
        self.pages
    }

    /// The number in so many bytes from an address on, the least first: none exactly where they aren't all there.
    #[inline(always)]
    pub fn load(&self, at: u64, width: u32) -> Option<u64>
        requires address { at < 2 ^ 33 }
        requires width { IsWidth width }
        ensures { result ≡ (if is_within at width (length self.now.bytes) then Some (number_from (bytes_at at width self.now.bytes)) else None) }
    {
        let bytes = self.bytes.as_slice();
        if at + u64::from(width) > bytes.len() as u64 {
            return None;
        }
        Some(load_number(bytes, at as usize, width))
    }

    /// Writes the low bytes of a number from an address on, the least first: none exactly where they don't all lie within, and then nothing changes.
    #[inline(always)]
    pub fn store(&mut self, at: u64, width: u32, number: u64) -> Option<()>
        requires address { at < 2 ^ 33 }
        requires width { IsWidth width }
        ensures answer { is_some result ≡ is_within at width (length self.old.bytes) }
        ensures after { self.new ≡ after_write self.old at (bytes_of width number) }
    {
        if at + u64::from(width) > self.bytes.len() as u64 {
            return None;
        }
        store_number(self.bytes.as_mut_slice(), at as usize, width, number);
        Some(())
    }

    /// Writes these bytes from an address on: none exactly where they don't all lie within, and then nothing changes.
    pub fn write(&mut self, at: u64, these: &[u8]) -> Option<()>
        requires { at < 2 ^ 33 }
        ensures answer { is_some result ≡ is_within at (length these.now) (length self.old.bytes) }
        ensures after { self.new ≡ after_write self.old at these.now }
    {
        if at + these.len() as u64 > self.bytes.len() as u64 {
            return None;
        }
        put_bytes(self.bytes.as_mut_slice(), at as usize, these);
        Some(())
    }

    /// Adds pages of zeros, and answers how many there were: none exactly where there may not be so many more. Where that or memory is refused, nothing
    /// changes.
    pub fn grow(&mut self, by: u32) -> Result<Option<u32>, NoMemory>
        ensures answer { IfOk result (λ old. (old ≡ grow_answer self.old by) × (self.new ≡ grown self.old by)) }
        ensures refused { OnErr result (self.new ≡ self.old) }
    {
        let old = self.pages;
        if by > self.most() - old {
            return Ok(None);
        }
        self.bytes
            .resize(PAGE_BYTES as usize * (old + by) as usize, 0)?;
        self.pages = old + by;
        Ok(Some(old))
    }

    /// The greatest number of pages.
    fn most(&self) -> u32
        ensures most { result ≡ most_pages self.now.max self.now.cap }
        ensures paged { IsPaged self.now }
    {
        self.max.unwrap_or(MOST_PAGES).min(MOST_PAGES.min(self.cap))
    }

    /// Copies a range to an address, as if by way of a copy elsewhere: none exactly where one of the two doesn't lie within, and then nothing changes.
    pub fn copy_within(&mut self, to: u64, from: u64, count: u64) -> Option<()>
        requires to { to < 2 ^ 32 }
        requires from { from < 2 ^ 32 }
        requires count { count < 2 ^ 32 }
        ensures answer { is_some result ≡ can_copy self.old to from count }
        ensures after { self.new ≡ after_copy self.old to from count }
    {
        let long = self.bytes.len() as u64;
        if from + count > long || to + count > long {
            return None;
        }
        copy_range(
            self.bytes.as_mut_slice(),
            to as usize,
            from as usize,
            count as usize,
        );
        Some(())
    }

    /// Writes one byte all over a range: none exactly where it doesn't lie within, and then nothing changes.
    pub fn fill(&mut self, at: u64, byte: u8, count: u64) -> Option<()>
        requires at { at < 2 ^ 32 }
        requires count { count < 2 ^ 32 }
        ensures answer { is_some result ≡ is_within at count (length self.old.bytes) }
        ensures after { self.new ≡ after_write self.old at (replicate count byte) }
    {
        if at + count > self.bytes.len() as u64 {
            return None;
        }
        fill_range(self.bytes.as_mut_slice(), at as usize, byte, count as usize);
        Some(())
    }
}
