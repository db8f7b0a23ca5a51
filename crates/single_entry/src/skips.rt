//! The entries of the points of a body, and how far up a point's value may come from.

ghost use Rattle.std.specs.Prelude.{◌≡◌, ◌≤◌, ◌↔◌, IfOk, IfSome, IsTrue, MatchOption, length, slice_get};
ghost use Rattle.std.specs.List.{AllPairs};
ghost use Rattle.block_cfg.specs.Graph.{number};
ghost use Rattle.single_entry.specs.Climbs.{AreEntries, IsHop, IsQuiet, IsStep, IsTop, Tops, hop_in};
ghost use Rattle.single_entry.specs.Entries.{IsGraph};
ghost use Rattle.single_entry.specs.Far.{IsTable};
ghost use Rattle.single_entry.specs.Paths.{AreReached};

use crate::entry::{Entry, Hop};
use crate::far::{hop_at, push_hop};
use crate::last::last_of;
use crate::near::near_of;
use crate::reached::reached;
use block_cfg::{Cfg, point_of_number};
use std::alloc::Global;
use std::marker::Model;
use wasm_types::{NoMemory, Point};

/// By the number of each point its entries, where it has some.
#[derive(Drop)]
pub struct Skips {
    hops: Vec<Option<Hop>>,
}

impl Model for Skips {
    ghost use Rattle.std.specs.Prelude.{List, Option};
    ghost use Rattle.single_entry.specs.declared.entry.Hop.{Hop};

    ghost Value = { List (Option Hop) };

    ghost use Rattle.single_entry.specs.Climbs.{AreHops};

    ghost view = { λ skips. skips.hops.items };

    ghost invariant = { λ skips. AreHops skips.hops.items };
}

/// Whether none of the writers stands where an entry covers.
fn is_quiet(writers: &[usize], entry: Entry) -> bool
    requires { AllPairs (λ a b. a ≤ b) writers.now }
    ensures { IsTrue result ↔ IsQuiet writers.now entry }
{
    match last_of(writers, entry.low as usize, entry.high as usize + 1) {
        Some(_) => false,
        None => true,
    }
}

/// Puts the entries of all points into the table.
fn fill(
    cfg: &Cfg,
    marks: &[bool],
    hops: &mut Vec<Option<Hop>>,
    depths: &mut Vec<u32>,
) -> Result<(), NoMemory>
    requires graph { IsGraph cfg.now }
    requires marks { AreReached cfg.now marks.now }
    requires table { IsTable cfg.now 0 hops.old.items }
    ensures { IfOk result (λ _. IsTable cfg.now (length marks.now) hops.new.items) }
{
    for index in 0..marks.len() {
        let near = near_of(cfg, marks, index);
        push_hop(hops, depths, near)?;
    }
    Ok(())
}

impl Skips {
    /// The entries of the points of a body. It fails only where memory is refused.
    pub fn new(alloc: Global, cfg: &Cfg) -> Result<Skips, NoMemory>
        requires { IsGraph cfg.now }
        ensures { IfOk result (λ skips. AreEntries cfg.now skips) }
    {
        let marks = reached(alloc, cfg)?;
        let mut hops = Vec::new(alloc);
        let mut depths = Vec::new(alloc);
        fill(cfg, &marks, &mut hops, &mut depths)?;
        Ok(Skips { hops })
    }

    /// The entries of a point.
    fn hop(&self, point: Point) -> Option<Hop>
        ensures is { result ≡ hop_in (slice_get self.now (number point)) }
        ensures holds { IfSome result (λ hop. IsHop self.now (number point) hop) }
    {
        hop_at(self.hops.as_slice(), point)
    }

    /// A point further up, through the far entry or else the near one.
    fn step(&self, writers: &[usize], point: Point) -> Option<Point>
        requires { AllPairs (λ a b. a ≤ b) writers.now }
        ensures { MatchOption result (IsTop self.now writers.now point) (λ a. IsStep self.now writers.now point a) }
    {
        let hop = self.hop(point)?;
        if is_quiet(writers, hop.far) {
            return Some(point_of_number(hop.far.through as usize));
        }
        if is_quiet(writers, hop.near) {
            return Some(point_of_number(hop.near.through as usize));
        }
        None
    }

    /// The point furthest up from which a way leads to a point through regions where none of the writers stands, each entered through one point.
    pub fn climb(&self, writers: &[usize], point: Point) -> Point
        requires { AllPairs (λ a b. a ≤ b) writers.now }
        ensures { Tops self.now writers.now point result }
    {
        let mut top = point;
        while let Some(next) = self.step(writers, top) {
            top = next;
        }
        top
    }
}
