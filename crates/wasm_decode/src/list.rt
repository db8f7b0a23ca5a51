//! Vectors (section 5.1.3), and texts of a stated size.

ghost use Rattle.std.specs.Prelude.{◌≡◌, refl, ◌<◌, ◌≤◌, All, IfOk, IfSome, MatchOption, List, ℕ, length, slice_range};
ghost use Rattle.wasm_types.specs.Numbers.{SpellsU32};
ghost use Rattle.wasm_types.specs.Standing.{Stands, NoneStands};
ghost use Rattle.wasm_types.specs.Parts.{Counted, Sized, Within};
ghost use Rattle.text_laws.proofs.Once.{once_counted, once_u32};
ghost use Rattle.text_laws.proofs.SectionLemmas.{once_byte, once_sized, once_within};
ghost use Rattle.wasm_decode.specs.Entries.{Any, IsByte, ReadsEntries, AddsEntry, ReadsRange};

use crate::production::{Plain, Production};
use code_decode::Stop;
use leb_codec::read_u32;
use sqlite_items::Items;
use std::alloc::{AllocError, Global};
use std::marker::PhantomData;

/// The entries of a vector before the first in which code nests too deep, and the number of that one.
#[derive(Drop)]
pub(crate) struct Entries<T> {
    pub(crate) items: Items<T>,
    pub(crate) deep: Option<u32>,
}

impl<T: Drop> Entries<T> {
    /// One more entry, with its number; what comes after one that nests too deep isn't kept.
    fn add(&mut self, entry: Option<T>, number: u32) -> Result<(), AllocError>
        ensures { IfOk result (λ _. AddsEntry self.old.deep entry self.old.items number self.new) }
    {
        if self.deep.is_some() {
            return Ok(());
        }
        match entry {
            Some(item) => self.items.push(item)?,
            None => self.deep = Some(number),
        }
        Ok(())
    }
}

/// The vector that stands at `at`, and the place after it.
pub(crate) fn read_entries<E: Production>(
    alloc: Global,
    bytes: &[u8],
    at: usize,
) -> Result<(Entries<E::Item>, usize), Stop>
    ensures { ReadsEntries E.spelled E.shallow bytes.now at result }
{
    let Some((count, mut place)) = read_u32(bytes, at) else {
        return Err(Stop::No);
    };
    let mut entries = Entries {
        items: Items::new(alloc),
        deep: None,
    };
    for k in 0..count {
        let (entry, next) = E::read(alloc, bytes, place)?;
        entries.add(entry, k)?;
        place = next;
    }
    Ok((entries, place))
}

/// A vector of these.
pub(crate) struct Vector<E>(PhantomData<E>);

impl<E: Production> Production for Vector<E> {
    type Item = Items<E::Item>;

    ghost spelled = { Counted E.spelled };

    ghost shallow = { All E.shallow };

    ghost once = { once_counted E.spelled E.once };

    fn read(
        alloc: Global,
        bytes: &[u8],
        at: usize,
    ) -> Result<(Option<Items<E::Item>>, usize), Stop> {
        let (entries, end) = read_entries::<E>(alloc, bytes, at)?;
        match entries.deep {
            None => Ok((Some(entries.items), end)),
            Some(_) => Ok((None, end)),
        }
    }
}

/// Where the bytes of a text of a stated size stand: their start, and their end, which is the text's end.
#[tactic(auto, using(crate::proofs::PartLemmas::range_stands))]
pub(crate) fn read_range(bytes: &[u8], at: usize) -> Option<(usize, usize)>
    ensures { ReadsRange bytes.now at result }
{
    let (size, start) = read_u32(bytes, at)?;
    if size as usize > bytes.len() - start {
        return None;
    }
    Some((start, start + size as usize))
}

/// A vector of bytes.
pub(crate) struct Bytes;

impl Production for Bytes {
    type Item = Items<u8>;

    ghost spelled = { Sized };

    ghost shallow = { Any };

    ghost once = { once_sized };

    fn read(alloc: Global, bytes: &[u8], at: usize) -> Result<(Option<Items<u8>>, usize), Stop> {
        let Some((start, end)) = read_range(bytes, at) else {
            return Err(Stop::No);
        };
        Ok((Some(Items::from_slice(alloc, &bytes[start..end])?), end))
    }
}

/// One of these, to the end of a text of a stated size.
pub(crate) struct Framed<E>(PhantomData<E>);

impl<E: Production> Production for Framed<E> {
    type Item = E::Item;

    ghost spelled = { Within E.spelled };

    ghost shallow = { E.shallow };

    ghost once = { once_within E.spelled E.once };

    fn read(alloc: Global, bytes: &[u8], at: usize) -> Result<(Option<E::Item>, usize), Stop> {
        let Some((start, end)) = read_range(bytes, at) else {
            return Err(Stop::No);
        };
        let part = &bytes[start..end];
        let (entry, last) = E::read(alloc, part, 0)?;
        if last < part.len() {
            return Err(Stop::No);
        }
        Ok((entry, end))
    }
}

/// One byte.
pub(crate) struct Byte;

impl Plain for Byte {
    type Item = u8;

    ghost spelled = { IsByte };

    ghost once = { once_byte (λ b. b) (λ b. b) (λ b. refl) };

    fn find(bytes: &[u8], at: usize) -> Option<(u8, usize)> {
        if at >= bytes.len() {
            return None;
        }
        Some((bytes[at], at + 1))
    }
}

/// An unsigned 32-bit number.
impl Plain for u32 {
    type Item = u32;

    ghost spelled = { SpellsU32 };

    ghost once = { once_u32 };

    fn find(bytes: &[u8], at: usize) -> Option<(u32, usize)> {
        read_u32(bytes, at)
    }
}
