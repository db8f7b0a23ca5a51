//! Reaching definitions, deciders and shadows of worked bodies.

ghost use Rattle.std.specs.Prelude.{◌≤◌, Contains, IfOk, length};
ghost use Rattle.single_entry.specs.Entries.{IsGraph};
ghost use Rattle.def_use.specs.Kept.{AreRight, IsMadeFor};

use crate::modules::decoded;
use block_cfg::{Cfg, edges, law_bodies_have_points};
use control_deps::{Nest, decided_by, in_shadow};
use def_use::{Reach, reaching};
use flow_domain::{LocTable, plain_locs};
use std::test::Fail;
use wasm_types::{Def, Loc, Node, Point, Pos, ValidModule};
use wasm_validate::admit;

/// `(func (param i32) (result i32) (local i32)
/// i32.const 7 local.set 1 local.get 0 if i32.const 9 local.set 1 end local.get 1)`
const BRANCHING: &[u8] =
    b"\0asm\x01\0\0\0\x01\x06\x01\x60\x01\x7F\x01\x7F\x03\x02\x01\x00\x0A\x15\x01\x13\x01\x01\x7F\x41\x07\x21\x01\x20\x00\x04\x40\x41\x09\x21\x01\x0B\x20\x01\x0B";

/// `(func (param i32) (local i32)
/// loop local.get 1 drop i32.const 1 local.set 1 local.get 0 br_if 0 end local.get 1 drop)`
const LOOPING: &[u8] =
    b"\0asm\x01\0\0\0\x01\x05\x01\x60\x01\x7F\x00\x03\x02\x01\x00\x0A\x17\x01\x15\x01\x01\x7F\x03\x40\x20\x01\x1A\x41\x01\x21\x01\x20\x00\x0D\x00\x0B\x20\x01\x1A\x0B";

/// A point and a location of which definitions are asked.
#[derive(Clone, Copy)]
struct Asked {
    point: Point,
    loc: Loc,
}

// The module that the bytes spell, sealed.
pub fn admitted(rt: &HostRuntime, bytes: &[u8]) -> Result<ValidModule, Fail>
    requires { length bytes.now ≤ 8388608 }
{
    let module = decoded(rt, bytes)?;
    match admit(rt.alloc(), module) {
        Ok(valid) => Ok(valid),
        Err(_) => Err("a refusal")?,
    }
}

// The graph of the body of the first function.
fn graph_of(rt: &HostRuntime, valid: &ValidModule) -> Result<Cfg, Fail>
    ensures { IfOk result (λ cfg. IsGraph cfg) }
{
    let Some(body) = valid.module().body(0) else {
        return Err("no body")?;
    };
    law_bodies_have_points();
    match edges(rt.alloc(), body) {
        Ok(cfg) => Ok(cfg),
        Err(_) => Err("no memory")?,
    }
}

// What the positions of the first function use.
fn table_of(rt: &HostRuntime, valid: &ValidModule) -> Result<LocTable, Fail> {
    if valid.module().body(0).is_none() {
        return Err("no body")?;
    }
    match plain_locs(rt.alloc(), valid, 0) {
        Ok(locs) => Ok(locs),
        Err(_) => Err("no memory")?,
    }
}

// It is a point of the graph.
fn see_point(cfg: &Cfg, point: Point) -> Result<(), Fail>
    ensures { IfOk result (λ _. Contains cfg.now.points point) }
{
    if cfg.points().contains(&point) {
        Ok(())
    } else {
        Err("no point")?
    }
}

// Whether these definitions of a location reach a point.
fn reached_by(
    rt: &HostRuntime,
    cfg: &Cfg,
    locs: &LocTable,
    asked: Asked,
    wanted: &[Def],
) -> Result<bool, Fail>
    requires graph { IsGraph cfg.now }
    requires point { Contains cfg.now.points asked.point }
{
    match reaching(rt.alloc(), cfg, locs, asked.point, asked.loc) {
        Ok(defs) => Ok(defs.as_slice() == wanted),
        Err(_) => Err("no memory")?,
    }
}

// The same, of answers that are kept.
fn kept_by(
    rt: &HostRuntime,
    reach: &mut Reach,
    cfg: &Cfg,
    locs: &LocTable,
    asked: Asked,
    wanted: &[Def],
) -> Result<bool, Fail>
    requires graph { IsGraph cfg.now }
    requires point { Contains cfg.now.points asked.point }
    requires made { IsMadeFor cfg.now reach.old }
    requires right { AreRight cfg.now locs.now reach.old }
    ensures made { IsMadeFor cfg.now reach.new }
    ensures right { AreRight cfg.now locs.now reach.new }
{
    match reach.of(rt.alloc(), cfg, locs, asked.point, asked.loc) {
        Ok(defs) => Ok(defs == wanted),
        Err(_) => Err("no memory")?,
    }
}

// The same, asked twice: where no answer is kept yet, and where it is.
fn kept_twice(
    rt: &HostRuntime,
    reach: &mut Reach,
    cfg: &Cfg,
    locs: &LocTable,
    asked: Asked,
    wanted: &[Def],
) -> Result<bool, Fail>
    requires graph { IsGraph cfg.now }
    requires point { Contains cfg.now.points asked.point }
    requires made { IsMadeFor cfg.now reach.old }
    requires right { AreRight cfg.now locs.now reach.old }
{
    let first = kept_by(rt, reach, cfg, locs, asked, wanted)?;
    let second = kept_by(rt, reach, cfg, locs, asked, wanted)?;
    Ok(first && second)
}

// Both ways of asking.
fn asked_both_ways(
    rt: &HostRuntime,
    cfg: &Cfg,
    locs: &LocTable,
    asked: Asked,
    wanted: &[Def],
) -> Result<bool, Fail>
    requires graph { IsGraph cfg.now }
    requires point { Contains cfg.now.points asked.point }
{
    if !reached_by(rt, cfg, locs, asked, wanted)? {
        return Ok(false);
    }
    let Ok(mut reach) = Reach::begin(rt.alloc(), cfg, locs) else {
        return Err("no memory")?;
    };
    kept_twice(rt, &mut reach, cfg, locs, asked, wanted)
}

// The same in a graph.
fn asked_in_graph(
    rt: &HostRuntime,
    valid: &ValidModule,
    cfg: &Cfg,
    asked: Asked,
    wanted: &[Def],
) -> Result<bool, Fail>
    requires { IsGraph cfg.now }
{
    see_point(cfg, asked.point)?;
    let locs = table_of(rt, valid)?;
    asked_both_ways(rt, cfg, &locs, asked, wanted)
}

// The same in a module.
fn asked_in_module(
    rt: &HostRuntime,
    valid: &ValidModule,
    asked: Asked,
    wanted: &[Def],
) -> Result<bool, Fail> {
    let cfg = graph_of(rt, valid)?;
    asked_in_graph(rt, valid, &cfg, asked, wanted)
}

// Whether these definitions reach a point of the first function of the module that the bytes spell, asked once, and twice of answers that are kept.
fn reach_there(rt: &HostRuntime, bytes: &[u8], asked: Asked, wanted: &[Def]) -> Result<bool, Fail>
    requires { length bytes.now ≤ 8388608 }
{
    let valid = admitted(rt, bytes)?;
    asked_in_module(rt, &valid, asked, wanted)
}

// The nesting of the first function of a module.
fn nest_of(rt: &HostRuntime, valid: &ValidModule) -> Result<Nest, Fail> {
    let Some(body) = valid.module().body(0) else {
        return Err("no body")?;
    };
    law_bodies_have_points();
    match Nest::of(rt.alloc(), body) {
        Ok(nest) => Ok(nest),
        Err(_) => Err("no memory")?,
    }
}

// Whether these positions are all that decide about a node, each of which has it in its shadow, and `other` hasn't.
fn decide_in(
    rt: &HostRuntime,
    nest: &Nest,
    node: Node,
    wanted: &[Pos],
    other: Pos,
) -> Result<bool, Fail> {
    let shaded = wanted.iter().all(|pos| in_shadow(nest, *pos, node));
    let free = !in_shadow(nest, other, node);
    match decided_by(rt.alloc(), nest, node) {
        Ok(found) => Ok(shaded && free && found.as_slice() == wanted),
        Err(_) => Err("no memory")?,
    }
}

// The same in a module.
fn decide_in_module(
    rt: &HostRuntime,
    valid: &ValidModule,
    node: Node,
    wanted: &[Pos],
    other: Pos,
) -> Result<bool, Fail> {
    let nest = nest_of(rt, valid)?;
    decide_in(rt, &nest, node, wanted, other)
}

// The same in the first function of the module that the bytes spell.
fn decide(
    rt: &HostRuntime,
    bytes: &[u8],
    node: Node,
    wanted: &[Pos],
    other: Pos,
) -> Result<bool, Fail>
    requires { length bytes.now ≤ 8388608 }
{
    let valid = admitted(rt, bytes)?;
    decide_in_module(rt, &valid, node, wanted, other)
}

// The second local at a position.
fn second_at(pos: u32) -> Asked {
    Asked {
        point: Point::At(Pos(pos)),
        loc: Loc::Local(1),
    }
}

#[test]
fn a_write_in_an_arm_and_the_one_before_it_reach(rt: HostRuntime) -> Result<(), Fail> {
    let wanted = [Def::At(Pos(1)), Def::At(Pos(5))];
    assert!(rt; reach_there(&rt, BRANCHING, second_at(6), wanted.as_slice())?);
    Ok(())
}

#[test]
fn the_entry_and_the_lap_before_reach_into_a_loop(rt: HostRuntime) -> Result<(), Fail> {
    let wanted = [Def::Entry, Def::At(Pos(4))];
    assert!(rt; reach_there(&rt, LOOPING, second_at(1), wanted.as_slice())?);
    Ok(())
}

#[test]
fn the_last_write_of_a_loop_reaches_behind_it(rt: HostRuntime) -> Result<(), Fail> {
    let wanted = [Def::At(Pos(4))];
    assert!(rt; reach_there(&rt, LOOPING, second_at(7), wanted.as_slice())?);
    Ok(())
}

#[test]
fn an_if_decides_about_its_arm(rt: HostRuntime) -> Result<(), Fail> {
    let wanted = [Pos(3)];
    assert!(rt; decide(&rt, BRANCHING, Node::At(Pos(5)), wanted.as_slice(), Pos(2))?);
    assert!(rt; decide(&rt, BRANCHING, Node::At(Pos(6)), &[], Pos(3))?);
    Ok(())
}

#[test]
fn a_branch_to_a_loop_decides_about_the_loop(rt: HostRuntime) -> Result<(), Fail> {
    let wanted = [Pos(6)];
    assert!(rt; decide(&rt, LOOPING, Node::At(Pos(1)), wanted.as_slice(), Pos(0))?);
    assert!(rt; decide(&rt, LOOPING, Node::Join(Pos(0)), wanted.as_slice(), Pos(5))?);
    assert!(rt; decide(&rt, LOOPING, Node::At(Pos(7)), &[], Pos(6))?);
    assert!(rt; decide(&rt, LOOPING, Node::Exit, &[], Pos(6))?);
    Ok(())
}
