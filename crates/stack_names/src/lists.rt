//! The places that each position takes and shows, in one vector.

ghost use Rattle.std.specs.Prelude.{◌≡◌, ◌≤◌, ◌++◌, ◌∷◌, [], IfOk, OnErr, OnOk, drop, length, slice_get};
ghost use Rattle.stack_names.specs.Named.{is_live_in, operands_in, stack_in};
ghost use Rattle.stack_names.specs.Spans.{extent_from, extents, extent_or, start_in};

use crate::part::part;
use crate::place::Place;
use crate::push::{push, push_all};
use std::alloc::Global;
use std::marker::Model;
use wasm_types::NoMemory;

/// Where the places of a position end, and from where on they are its operands. They begin where those of the position before it end. Of a dead position, which
/// has no places, the operands begin behind the end. The numbers are short and few, since there is a span for each position.
#[derive(Clone, Copy)]
pub(crate) struct Span {
    operands: u32,
    end: u32,
}

/// Where the places of a live position stand: those of its stack from `start` to `end`, the last of which, from `operands` on, are its operands.
#[derive(Clone, Copy)]
pub(crate) struct Extent {
    start: u32,
    operands: u32,
    end: u32,
}

/// What each position takes and shows: as a list, the operands and the stack of each live position, in the order of positions.
#[derive(Drop)]
pub(crate) struct Lists {
    spans: Vec<Span>,
    places: Vec<Place>,
}

impl Model for Lists {
    ghost use Rattle.std.specs.Prelude.{List, Option, length};
    ghost use Rattle.stack_names.specs.Listed.{Listed};

    ghost Value = { List (Option Listed) };

    ghost use Rattle.stack_names.specs.Spans.{lists_of, extents, AreLaid};

    ghost view = { λ l. lists_of l.places.items (extents 0 l.spans.items) };

    ghost invariant = { λ l. AreLaid (length l.places.items) l.spans.items };
}

/// The span of a position, where there is such a position.
#[inline]
fn span_at(spans: &[Span], pos: usize) -> Option<Span>
    ensures { result ≡ slice_get spans.now pos }
{
    spans.get(pos).copied()
}

/// Where the span before a position ends.
#[inline]
fn start_at(spans: &[Span], pos: usize) -> u32
    ensures { result ≡ start_in spans.now pos }
{
    if pos == 0 {
        return 0;
    }
    match spans.get(pos - 1) {
        Some(span) => span.end,
        None => 0,
    }
}

/// The extent that begins at `start` and ends with a span: none of a dead position.
#[inline]
fn extent_of(start: u32, span: Span) -> Option<Extent>
    ensures { result ≡ extent_from start span }
{
    if span.end < span.operands {
        return None;
    }
    Some(Extent {
        start,
        operands: span.operands,
        end: span.end,
    })
}

/// The extent of a position: none of a dead one, and where there is no such position.
#[inline]
fn extent_at(spans: &[Span], pos: usize) -> Option<Extent>
    ensures { result ≡ extent_or (slice_get (extents 0 spans.now) pos) }
{
    match span_at(spans, pos) {
        Some(span) => extent_of(start_at(spans, pos), span),
        None => None,
    }
}

/// A span more, and its places. Where memory is refused there is no span more, but there may be places.
fn append(
    spans: &mut Vec<Span>,
    places: &mut Vec<Place>,
    span: Span,
    stack: &[Place],
) -> Result<(), NoMemory>
    ensures places { OnOk result (places.new.items ≡ places.old.items ++ stack.now) }
    ensures spans { OnOk result (spans.new.items ≡ spans.old.items ++ span ∷ []) }
    ensures longer { length places.old.items ≤ length places.new.items }
    ensures same { OnErr result (spans.new.items ≡ spans.old.items) }
{
    push_all(places, stack)?;
    push(spans, span)?;
    Ok(())
}

impl Lists {
    /// No position yet, with room asked for ahead for so many, which take a place each: what isn't used costs nothing, and lists that fit are never moved.
    pub(crate) fn with_capacity(alloc: Global, positions: usize) -> Result<Lists, NoMemory>
        ensures { IfOk result (λ lists. lists ≡ []) }
    {
        let spans = Vec::with_capacity(alloc, positions).map_err(|_| NoMemory)?;
        let places = Vec::with_capacity(alloc, positions).map_err(|_| NoMemory)?;
        Ok(Lists { spans, places })
    }

    /// The number of positions.
    pub(crate) fn len(&self) -> usize
        ensures { result ≡ length self.now }
    {
        self.spans.as_slice().len()
    }

    /// A dead position more. Over 2^32 places don't fit.
    pub(crate) fn add_dead(&mut self) -> Result<(), NoMemory>
        ensures { IfOk result (λ _. self.new ≡ self.old ++ None ∷ []) }
    {
        let end = self.places.as_slice().len();
        if end >= u32::MAX as usize {
            return Err(NoMemory);
        }
        let span = Span {
            operands: u32::MAX,
            end: end as u32,
        };
        push(&mut self.spans, span)?;
        Ok(())
    }

    /// A live position more, which shows this stack and takes the places from number `from` on. Over 2^32 places don't fit.
    pub(crate) fn add(&mut self, stack: &[Place], from: usize) -> Result<(), NoMemory>
        requires { from ≤ length stack.now }
        ensures { IfOk result (λ _. self.new ≡ self.old ++ Some (record { operands = drop from stack.now; stack = stack.now }) ∷ []) }
    {
        let start = self.places.as_slice().len();
        let end = start + stack.len();
        if end > u32::MAX as usize {
            return Err(NoMemory);
        }
        let span = Span {
            operands: (start + from) as u32,
            end: end as u32,
        };
        match append(&mut self.spans, &mut self.places, span, stack) {
            Ok(()) => Ok(()),
            Err(_) => {
                self.places.truncate(start);
                Err(NoMemory)
            }
        }
    }

    /// Whether a position is live.
    #[inline]
    pub(crate) fn live(&self, pos: usize) -> bool
        ensures { result ≡ is_live_in self.now pos }
    {
        extent_at(self.spans.as_slice(), pos).is_some()
    }

    /// The operands of a position: none of a dead one.
    #[inline]
    pub(crate) fn operands(&self, pos: usize) -> &[Place]
        ensures { result.now ≡ operands_in self.now pos }
    {
        match extent_at(self.spans.as_slice(), pos) {
            Some(extent) => part(
                self.places.as_slice(),
                extent.operands as usize,
                extent.end as usize,
            ),
            None => &[],
        }
    }

    /// The stack that a position shows: nothing of a dead one.
    pub(crate) fn stack(&self, pos: usize) -> &[Place]
        ensures { result.now ≡ stack_in self.now pos }
    {
        match extent_at(self.spans.as_slice(), pos) {
            Some(extent) => part(
                self.places.as_slice(),
                extent.start as usize,
                extent.end as usize,
            ),
            None => &[],
        }
    }
}
