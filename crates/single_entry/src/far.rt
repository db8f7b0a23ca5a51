//! Far entries, so that a climb through many regions takes few steps.

ghost use Rattle.std.specs.Prelude.{◌≡◌, ◌<◌, IfOk, IfSome, length, slice_get};
ghost use Rattle.block_cfg.specs.Graph.{number};
ghost use Rattle.single_entry.specs.Climbs.{AreHops, hop_in, near_in};
ghost use Rattle.single_entry.specs.Far.{IsFar, IsJoined, IsPushed};

use crate::entry::{Entry, Hop};
use block_cfg::{point_number, point_of_number};
use wasm_types::{NoMemory, Point};

/// The entries at a point's number.
pub(crate) fn hop_at(hops: &[Option<Hop>], point: Point) -> Option<Hop>
    ensures { result ≡ hop_in (slice_get hops.now (number point)) }
{
    match hops.get(point_number(point)) {
        Some(hop) => *hop,
        None => None,
    }
}

/// An entry that covers what two cover, and leads through the second one.
fn joined(one: Entry, two: Entry) -> Entry
    ensures { IsJoined one two result }
{
    Entry {
        through: two.through,
        low: one.low.min(two.low),
        high: one.high.max(two.high),
    }
}

/// How many near entries lead up from the point of a number.
fn depth_at(depths: &[u32], index: u32) -> u32 {
    match depths.get(index as usize) {
        Some(depth) => *depth,
        None => 0,
    }
}

/// Whether it is as far from the first point up to the second as from there to the third.
fn is_halfway(depths: &[u32], from: u32, middle: u32, top: u32) -> bool {
    let both = u64::from(depth_at(depths, from)) + u64::from(depth_at(depths, top));
    both == 2 * u64::from(depth_at(depths, middle))
}

/// The far entry of a point: its near one, and then, where the far entry from there and the far one after it go equally far, those two as well. So from any
/// point far and near entries lead up in steps as the logarithm of how many near ones there are.
fn far_of(hops: &[Option<Hop>], depths: &[u32], near: Entry) -> Entry
    requires hops { AreHops hops.now }
    ensures { IsFar hops.now near result }
{
    let Some(one) = hop_at(hops, point_of_number(near.through as usize)) else {
        return near;
    };
    let middle = point_of_number(one.far.through as usize);
    let Some(two) = hop_at(hops, middle) else {
        return near;
    };
    if !is_halfway(depths, near.through, one.far.through, two.far.through) {
        return near;
    }
    joined(near, joined(one.far, two.far))
}

/// A point's entries, where it has a near one.
fn hop_of(hops: &[Option<Hop>], depths: &[u32], near: Option<Entry>) -> Option<Hop>
    requires hops { AreHops hops.now }
    ensures near { near_in result ≡ near }
    ensures far { IfSome result (λ hop. IsFar hops.now hop.near hop.far) }
{
    let near = near?;
    Some(Hop {
        near,
        far: far_of(hops, depths, near),
    })
}

/// How many near entries lead up from a point with this one.
fn depth_of(depths: &[u32], near: Option<Entry>) -> u32 {
    match near {
        Some(entry) => depth_at(depths, entry.through).saturating_add(1),
        None => 0,
    }
}

/// Puts the entries of the point of the next number at the end of the table.
pub(crate) fn push_hop(
    hops: &mut Vec<Option<Hop>>,
    depths: &mut Vec<u32>,
    near: Option<Entry>,
) -> Result<(), NoMemory>
    requires hops { AreHops hops.old.items }
    requires falls { IfSome near (λ e. e.through < length hops.old.items) }
    ensures hops { IfOk result (λ _. AreHops hops.new.items) }
    ensures pushed { IfOk result (λ _. IsPushed hops.old.items hops.new.items near) }
{
    let hop = hop_of(hops, depths, near);
    let depth = depth_of(depths, near);
    depths.push(depth).map_err(|_| NoMemory)?;
    hops.push(hop).map_err(|_| NoMemory)?;
    Ok(())
}
