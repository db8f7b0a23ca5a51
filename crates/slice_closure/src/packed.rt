//! What is kept of a position, in few bytes.

ghost use Rattle.std.specs.Prelude.{◌≡◌};
ghost use Rattle.slice_closure.specs.Packing.{came_back, loc_back, touch_back};

use crate::spot::{Came, Spot, Taken, Touch};
use called_rows::Whom;
use std::marker::Model;
use wasm_types::{Loc, Point, Pos};

/// How a walk comes to an instruction, without the position that it may come from.
#[derive(Clone, Copy, Drop)]
pub(crate) enum CameKind {
    Never,
    First,
    AfterAt,
    AfterJoin,
    AfterExit,
}

/// What a location is, without its number.
#[derive(Clone, Copy, Drop)]
pub(crate) enum LocKind {
    Mem,
    Size,
    Host,
    Local,
    Global,
}

/// What an instruction does to locations, without the location, and without the number of whom it calls.
#[derive(Clone, Copy, Drop)]
pub(crate) enum TouchKind {
    Nothing,
    Reads,
    Writes,
    Changes,
    Loads,
    Stores,
    CallsOwn,
    CallsThrough,
}

/// A position in twelve bytes, since there is one for each.
#[derive(Drop)]
pub(crate) struct Packed {
    after: u32,
    place: u32,
    came: CameKind,
    touch: TouchKind,
    loc: LocKind,
    taken: Taken,
}

impl Model for Packed {
    ghost use Rattle.slice_closure.specs.declared.spot.Spot.{Spot};
    ghost use Rattle.slice_closure.specs.Packing.{came_back, loc_back, touch_back};

    ghost Value = { Spot };

    ghost view = { λ p. record { came = came_back p.came p.after; touch = touch_back p.touch p.loc p.place; taken = p.taken } };
}

fn pack_came(came: Came) -> (CameKind, u32)
    ensures { came_back result.0 result.1 ≡ came }
{
    match came {
        Came::Never => (CameKind::Never, 0),
        Came::First => (CameKind::First, 0),
        Came::After(Point::At(pos)) => (CameKind::AfterAt, pos.0),
        Came::After(Point::Join(pos)) => (CameKind::AfterJoin, pos.0),
        Came::After(Point::Exit) => (CameKind::AfterExit, 0),
    }
}

fn pack_loc(loc: Loc) -> (LocKind, u32)
    ensures { loc_back result.0 result.1 ≡ loc }
{
    match loc {
        Loc::Mem => (LocKind::Mem, 0),
        Loc::Size => (LocKind::Size, 0),
        Loc::Host => (LocKind::Host, 0),
        Loc::Local(local) => (LocKind::Local, local),
        Loc::Global(global) => (LocKind::Global, global),
    }
}

fn unpack_loc(loc: LocKind, place: u32) -> Loc
    ensures { result ≡ loc_back loc place }
{
    match loc {
        LocKind::Mem => Loc::Mem,
        LocKind::Size => Loc::Size,
        LocKind::Host => Loc::Host,
        LocKind::Local => Loc::Local(place),
        LocKind::Global => Loc::Global(place),
    }
}

/// Some touch of a location.
fn with_loc(kind: TouchKind, loc: Loc) -> (TouchKind, LocKind, u32)
    ensures kind { result.0 ≡ kind }
    ensures loc { loc_back result.1 result.2 ≡ loc }
{
    let (loc, place) = pack_loc(loc);
    (kind, loc, place)
}

/// What is done, and to which location, or whom it calls: to any where that isn't told.
fn pack_touch(touch: Touch) -> (TouchKind, LocKind, u32)
    ensures { touch_back result.0 result.1 result.2 ≡ touch }
{
    match touch {
        Touch::Nothing => (TouchKind::Nothing, LocKind::Mem, 0),
        Touch::Reads(loc) => with_loc(TouchKind::Reads, loc),
        Touch::Writes(loc) => with_loc(TouchKind::Writes, loc),
        Touch::Changes(loc) => with_loc(TouchKind::Changes, loc),
        Touch::Loads => (TouchKind::Loads, LocKind::Mem, 0),
        Touch::Stores => (TouchKind::Stores, LocKind::Mem, 0),
        Touch::Calls(Whom::Own(func)) => (TouchKind::CallsOwn, LocKind::Mem, func),
        Touch::Calls(Whom::Through(kind)) => (TouchKind::CallsThrough, LocKind::Mem, kind),
    }
}

impl Packed {
    pub(crate) fn of(spot: Spot) -> Packed
        ensures { result ≡ spot }
    {
        let (came, after) = pack_came(spot.came);
        let (touch, loc, place) = pack_touch(spot.touch);
        let taken = spot.taken;
        Packed {
            after,
            place,
            came,
            touch,
            loc,
            taken,
        }
    }

    /// How the walk comes there.
    pub(crate) fn came(&self) -> Came
        ensures { result ≡ self.now.came }
    {
        match self.came {
            CameKind::Never => Came::Never,
            CameKind::First => Came::First,
            CameKind::AfterAt => Came::After(Point::At(Pos(self.after))),
            CameKind::AfterJoin => Came::After(Point::Join(Pos(self.after))),
            CameKind::AfterExit => Came::After(Point::Exit),
        }
    }

    /// What it touches.
    pub(crate) fn touch(&self) -> Touch
        ensures { result ≡ self.now.touch }
    {
        let loc = unpack_loc(self.loc, self.place);
        match self.touch {
            TouchKind::Nothing => Touch::Nothing,
            TouchKind::Reads => Touch::Reads(loc),
            TouchKind::Writes => Touch::Writes(loc),
            TouchKind::Changes => Touch::Changes(loc),
            TouchKind::Loads => Touch::Loads,
            TouchKind::Stores => Touch::Stores,
            TouchKind::CallsOwn => Touch::Calls(Whom::Own(self.place)),
            TouchKind::CallsThrough => Touch::Calls(Whom::Through(self.place)),
        }
    }

    /// Which operands it takes.
    pub(crate) fn taken(&self) -> Taken
        ensures { result ≡ self.now.taken }
    {
        self.taken
    }
}
