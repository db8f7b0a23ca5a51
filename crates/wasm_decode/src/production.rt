//! Rules of the grammar: of single values, of one after another, and of values that are made of others.

ghost use Rattle.std.specs.Prelude.{◌≡◌, List, MatchOption, ℕ};
ghost use Rattle.wasm_types.specs.Parts.{Both};
ghost use Rattle.wasm_types.specs.Standing.{Reads};
ghost use Rattle.text_laws.proofs.Once.{IsOnce, once_both};
ghost use Rattle.wasm_decode.specs.Entries.{Any, Makes, ReadsEntry, both_of};

use code_decode::Stop;
use std::alloc::Global;
use std::marker::PhantomData;

/// A rule of the grammar: which texts spell which values, and how one is read.
pub(crate) trait Production {
    type Item: Drop;

    ghost spelled: { List ℕ → Self.Item → Type 0 };

    ghost shallow: { Self.Item → Type 0 };

    /// The value that stands at `at`, if no code in it nests too deep, and the place after it. `No` where none stands.
    fn read(alloc: Global, bytes: &[u8], at: usize) -> Result<(Option<Self::Item>, usize), Stop>
        ensures { ReadsEntry spelled shallow bytes.now at result };

    ghost once: { IsOnce spelled };
}

/// A rule of values that have no code and need no memory.
pub(crate) trait Plain {
    type Item: Drop;

    ghost spelled: { List ℕ → Self.Item → Type 0 };

    /// The value that stands at `at`, and the place after it. `None` where none stands.
    fn find(bytes: &[u8], at: usize) -> Option<(Self::Item, usize)>
        ensures { Reads spelled bytes.now at result };

    ghost once: { IsOnce spelled };
}

impl<P: Plain> Production for P {
    type Item = P::Item;

    ghost spelled = { P.spelled };

    ghost shallow = { Any };

    ghost once = { P.once };

    fn read(_alloc: Global, bytes: &[u8], at: usize) -> Result<(Option<P::Item>, usize), Stop> {
        match P::find(bytes, at) {
            Some((value, end)) => Ok((Some(value), end)),
            None => Err(Stop::No),
        }
    }
}

/// Both, if both are there.
fn both<A: Drop, B: Drop>(first: Option<A>, second: Option<B>) -> Option<(A, B)>
    ensures { result ≡ both_of first second }
{
    Some((first?, second?))
}

impl<A: Production, B: Production> Production for (A, B) {
    type Item = (A::Item, B::Item);

    ghost spelled = { Both A.spelled B.spelled };

    ghost shallow = { λ v. A.shallow v.0 × B.shallow v.1 };

    ghost once = { once_both A.spelled B.spelled A.once B.once };

    fn read(
        alloc: Global,
        bytes: &[u8],
        at: usize,
    ) -> Result<(Option<(A::Item, B::Item)>, usize), Stop> {
        let (first, middle) = A::read(alloc, bytes, at)?;
        let (second, end) = B::read(alloc, bytes, middle)?;
        Ok((both(first, second), end))
    }
}

/// A value that is made of what another rule spells.
pub(crate) trait Made: Drop {
    type Parts: Production;

    ghost spelled: { List ℕ → Self → Type 0 };

    ghost shallow: { Self → Type 0 };

    ghost made_of: { Self.Parts.Item → Self → Type 0 };

    /// The value that is made of the parts. `None` where none is.
    fn make(parts: <Self::Parts as Production>::Item) -> Option<Self>
        ensures { MatchOption result ((v : Self) → made_of parts v → ⊥) (λ v. made_of parts v) };

    ghost once: { IsOnce spelled };

    ghost makes: { Makes Self.Parts.spelled Self.Parts.shallow spelled shallow made_of };
}

/// A value of the type.
pub(crate) struct Of<T>(PhantomData<T>);

impl<T: Made> Production for Of<T> {
    type Item = T;

    ghost spelled = { T.spelled };

    ghost shallow = { T.shallow };

    ghost once = { T.once };

    fn read(alloc: Global, bytes: &[u8], at: usize) -> Result<(Option<T>, usize), Stop> {
        let (parts, end) = <T::Parts as Production>::read(alloc, bytes, at)?;
        let Some(parts) = parts else {
            return Ok((None, end));
        };
        match T::make(parts) {
            Some(value) => Ok((Some(value), end)),
            None => Err(Stop::No),
        }
    }
}
