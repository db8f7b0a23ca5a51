//! The listing of a function.

ghost use Rattle.std.specs.Prelude.{◌≡◌, ◌+◌, ◌<◌, ◌≤◌, ◌^◌, ◌++◌, ◌∷◌, [], codes, decimal, length, map, IfOk, OnOk};
ghost use Rattle.wasm_types.specs.Code.{code_of, count, done, onto};
ghost use Rattle.report_text.specs.InstructionTexts.{block_text, instruction_text};
ghost use Rattle.report_text.specs.Listing.{arms_lines, arrow_text, closing_line, contents_lines, end_makers, ended_by, indent, lines, listing, node_text, nodes_after, operands_text, position_line};
ghost use Rattle.report_text.specs.Listing as words;
ghost use Rattle.stack_names.specs.Ends.{HasOperands, ends_at};
ghost use Rattle.wasm_types.specs.Funcs.{unwatched};
ghost use Rattle.report_text.specs.ListingOf.{told_by, maker_of};
ghost use Rattle.report_text.specs.Drafts.{written};
ghost use Rattle.report_text.specs.Gaps.{IsLaid, shown};
ghost use Rattle.report_text.specs.Placed.{Placed};

use crate::draft::Draft;
use crate::front::{Front, ROOM, place_beginning, place_next};
use crate::gaps::Spaced;
use crate::instruction::{push_block, push_instruction, push_number, push_text};
use crate::page::Page;
use crate::place::{place_byte, place_number, place_text};
use stack_names::{Names, Place};
use std::alloc::{AllocError, Global};
use wasm_types::{Instr, MOST_POSITIONS, NoMemory, Node, Pos, Taker, ValType, ValidModule};

/// How many bytes a line takes mostly, at most.
const LINE: usize = 32;

/// For how many lines room is asked for ahead, at least: what isn't written costs nothing, and a text that fits is never moved.
const LINES: usize = 8192;

/// The indentation of fewer blocks is written with the position before it.
const SHALLOW: usize = 4;

/// Adds a position.
#[inline]
fn push_position(out: &mut Draft, pos: u32) -> Result<(), AllocError>
    ensures { OnOk result (written out.new ≡ written out.old ++ decimal pos) }
{
    out.reserve(ROOM)?;
    out.len = place_next(out.bytes.as_mut_slice(), out.len, &mut out.front, pos);
    Ok(())
}

/// Adds a node's name: a position by its number, and a block's end by j and the block's number.
pub(crate) fn push_node(out: &mut Draft, node: Node) -> Result<(), AllocError>
    ensures { OnOk result (written out.new ≡ written out.old ++ node_text node) }
{
    match node {
        Node::At(Pos(at)) => push_position(out, at),
        Node::Join(Pos(at)) => {
            push_text(out, "j")?;
            push_number(out, at)
        }
        Node::Exit => Ok(()),
    }
}

/// A space and a node's name.
#[inline(always)]
fn place_node_after(buf: &mut [u8], at: usize, front: &mut Front, node: Node) -> usize
    requires { at + 17 ≤ length buf.old }
    ensures placed { Placed buf.old buf.new at (codes " " ++ node_text node) result }
    ensures short { result ≤ at + 17 }
{
    let begun = place_byte(buf, at, b' ');
    match node {
        Node::At(Pos(at)) => place_next(buf, begun, front, at),
        Node::Join(Pos(at)) => {
            let marked = place_byte(buf, begun, b'j');
            place_number(buf, marked, at)
        }
        Node::Exit => begun,
    }
}

/// Adds a space and a node's name.
#[inline]
fn push_node_after(out: &mut Draft, node: Node) -> Result<(), AllocError>
    ensures { OnOk result (written out.new ≡ written out.old ++ (codes " " ++ node_text node)) }
{
    out.reserve(1 + ROOM)?;
    out.len = place_node_after(out.bytes.as_mut_slice(), out.len, &mut out.front, node);
    Ok(())
}

/// Adds a space and a node's name, for each of them.
fn push_nodes(out: &mut Draft, nodes: &[Node]) -> Result<(), AllocError>
    ensures { OnOk result (written out.new ≡ written out.old ++ nodes_after nodes.now) }
{
    for node in nodes {
        push_node_after(out, *node)?;
    }
    Ok(())
}

/// Adds a space and the name of the maker, for each value.
fn push_makers(out: &mut Draft, places: &[Place]) -> Result<(), AllocError>
    ensures { OnOk result (written out.new ≡ written out.old ++ nodes_after (map maker_of places.now)) }
{
    for place in places {
        push_node_after(out, place.maker)?;
    }
    Ok(())
}

/// Adds the one operand of a position, and the end of the line.
#[inline(always)]
fn push_one(out: &mut Draft, maker: Node) -> Result<(), AllocError>
    ensures { OnOk result (written out.new ≡ written out.old ++ (arrow_text (maker ∷ []) ++ codes "\n")) }
{
    out.reserve(3 + 1 + ROOM + 1)?;
    let buf = out.bytes.as_mut_slice();
    let begun = place_text(buf, out.len, b" <-");
    let behind = place_node_after(buf, begun, &mut out.front, maker);
    out.len = place_byte(buf, behind, b'\n');
    Ok(())
}

/// Adds the operands of a position, and the end of the line.
fn push_many(out: &mut Draft, places: &[Place]) -> Result<(), AllocError>
    ensures { OnOk result (written out.new ≡ written out.old ++ (codes " <-" ++ (nodes_after (map maker_of places.now) ++ codes "\n"))) }
{
    push_text(out, " <-")?;
    push_makers(out, places)?;
    push_text(out, "\n")
}

/// Adds the operands of a position, where it has any, or that it is dead, and the end of the line.
#[inline(always)]
fn push_operands(out: &mut Draft, names: &Names, at: u32) -> Result<(), AllocError>
    ensures { OnOk result (written out.new ≡ written out.old ++ (operands_text ((told_by names.now).operands at) ++ codes "\n")) }
{
    match names.operands(Pos(at)) {
        [] => push_text(out, if names.live(Pos(at)) { "\n" } else { " dead\n" }),
        [place] => push_one(out, place.maker),
        places => push_many(out, places),
    }
}

/// Adds words and the makers of the values that the closed sequence ends with, where there are any, and the end of the line.
fn push_closed(out: &mut Draft, words: &str, makers: &[Node]) -> Result<(), AllocError>
    ensures { OnOk result (written out.new ≡ written out.old ++ (words.now ++ (arrow_text makers.now ++ codes "\n"))) }
{
    push_text(out, words)?;
    if !makers.is_empty() {
        push_text(out, " <-")?;
        push_nodes(out, makers)?;
    }
    push_text(out, "\n")
}

/// Adds the line of an else or an end, with the makers of the values that the closed sequence ends with.
fn push_closing(
    page: &mut Page,
    depth: usize,
    words: &str,
    makers: &[Node],
) -> Result<(), AllocError>
    requires few { depth < 2 ^ 32 }
    requires laid { IsLaid page.old }
    ensures line { OnOk result (shown page.new ≡ shown page.old ++ closing_line depth words.now makers.now) }
    ensures laid { OnOk result (IsLaid page.new) }
{
    push_text(&mut page.draft, ". ")?;
    page.indent(depth)?;
    push_closed(&mut page.draft, words, makers)?;
    Ok(())
}

/// Adds a position, a space, and two spaces for each block around.
#[inline(always)]
fn push_start(out: &mut Draft, at: u32, depth: usize) -> Result<(), AllocError>
    requires { depth < 2 ^ 32 }
    ensures { OnOk result (written out.new ≡ written out.old ++ (decimal at ++ (codes " " ++ indent depth))) }
{
    out.reserve(ROOM + 1 + 2 * depth)?;
    out.len = place_beginning(out.bytes.as_mut_slice(), out.len, &mut out.front, at, depth);
    Ok(())
}

/// Adds what stands before an instruction: its position, and two spaces for each block around it.
#[inline(always)]
fn push_beginning(page: &mut Page, at: u32, depth: usize) -> Result<(), AllocError>
    requires few { depth < 2 ^ 32 }
    requires laid { IsLaid page.old }
    ensures beginning { OnOk result (shown page.new ≡ shown page.old ++ (decimal at ++ (codes " " ++ indent depth))) }
    ensures laid { OnOk result (IsLaid page.new) }
{
    if depth < SHALLOW {
        push_start(&mut page.draft, at, depth)?;
        return Ok(());
    }
    push_start(&mut page.draft, at, 0)?;
    page.indent(depth)?;
    Ok(())
}

/// Adds an instruction that holds no others, its operands and the end of the line.
#[inline(always)]
fn push_words(out: &mut Draft, names: &Names, instr: &Instr, at: u32) -> Result<(), AllocError>
    ensures { OnOk result (written out.new ≡ written out.old ++ (instruction_text instr.now ++ (operands_text ((told_by names.now).operands at) ++ codes "\n"))) }
{
    push_instruction(out, instr)?;
    push_operands(out, names, at)
}

/// Adds the line of an instruction that holds no others.
fn push_plain(
    page: &mut Page,
    names: &Names,
    instr: &Instr,
    at: u32,
    depth: usize,
) -> Result<(), AllocError>
    requires few { depth < 2 ^ 32 }
    requires laid { IsLaid page.old }
    ensures line { OnOk result (shown page.new ≡ shown page.old ++ position_line (told_by names.now) depth at (instruction_text instr.now)) }
    ensures laid { OnOk result (IsLaid page.new) }
{
    push_beginning(page, at, depth)?;
    push_words(&mut page.draft, names, instr, at)?;
    Ok(())
}

/// Adds the name of a block, loop or if, its operands and the end of the line.
fn push_block_words(
    out: &mut Draft,
    names: &Names,
    words: &str,
    kind: Option<ValType>,
    at: u32,
) -> Result<(), AllocError>
    ensures { OnOk result (written out.new ≡ written out.old ++ (block_text words.now kind ++ (operands_text ((told_by names.now).operands at) ++ codes "\n"))) }
{
    push_block(out, words, kind)?;
    push_operands(out, names, at)
}

/// Adds the line of a block, loop or if.
fn push_opening(
    page: &mut Page,
    names: &Names,
    words: &str,
    kind: Option<ValType>,
    at: u32,
    depth: usize,
) -> Result<(), AllocError>
    requires few { depth < 2 ^ 32 }
    requires laid { IsLaid page.old }
    ensures line { OnOk result (shown page.new ≡ shown page.old ++ position_line (told_by names.now) depth at (block_text words.now kind)) }
    ensures laid { OnOk result (IsLaid page.new) }
{
    push_beginning(page, at, depth)?;
    push_block_words(&mut page.draft, names, words, kind, at)?;
    Ok(())
}

/// Whether the live end before a node is among these.
fn is_taken_at_end(takers: &[Taker], end: Node) -> bool
    ensures { result ≡ ends_at end takers.now }
{
    for taker in takers {
        if let Taker::End(node) = taker {
            if *node == end {
                return true;
            }
        }
    }
    false
}

/// The node of the value that an instruction may make: a block, loop or if makes one at its end.
fn maker_at(instr: &Instr, at: u32) -> Node
    ensures { result ≡ words.maker_at instr.now at }
{
    match instr {
        Instr::Block(_, _) | Instr::Loop(_, _) | Instr::If(_, _, _) => Node::Join(Pos(at)),
        _ => Node::At(Pos(at)),
    }
}

/// Adds a maker, where the end before a node takes its value.
fn push_maker(
    makers: &mut Vec<Node>,
    names: &Names,
    maker: Node,
    end: Node,
) -> Result<(), AllocError>
    ensures { OnOk result (makers.new.items ≡ makers.old.items ++ end_makers (told_by names.now).takers end (maker ∷ [])) }
{
    if is_taken_at_end(names.takers(maker), end) {
        makers.push(maker)?;
    }
    Ok(())
}

/// Where a sequence ended: the position behind it, and the makers of the values that its end takes.
#[derive(Drop)]
struct Ended {
    next: u32,
    makers: Vec<Node>,
}

/// Adds the lines of a sequence that begins at position `at`, with `depth` blocks around it, and whose end node `end` stands behind.
#[cycle(sequence)]
fn push_sequence(
    alloc: Global,
    page: &mut Page,
    names: &Names,
    code: &[Instr],
    at: u32,
    depth: usize,
    end: Node,
) -> Result<Ended, AllocError>
    requires laid { IsLaid page.old }
    requires within { depth ≤ at }
    requires short { at + count (code_of code.now) < 2 ^ 32 }
    ensures lines { IfOk result (λ ended. shown page.new ≡ shown page.old ++ lines (told_by names.now) depth (code_of code.now) at) }
    ensures makers { IfOk result (λ ended. ended.makers.items ≡ ended_by (told_by names.now) end (code_of code.now) at) }
    ensures next { IfOk result (λ ended. ended.next ≡ at + count (code_of code.now)) }
    ensures laid { IfOk result (λ _. IsLaid page.new) }
{
    let mut next = at;
    let mut makers = Vec::new(alloc);
    for instr in code {
        push_maker(&mut makers, names, maker_at(instr, next), end)?;
        next = push_instr(alloc, page, names, instr, next, depth)?;
    }
    Ok(Ended { next, makers })
}

/// Adds the lines of the contents of a block or loop at position `at`, and that of its end. What comes out is the position behind it.
#[cycle(sequence)]
fn push_contents(
    alloc: Global,
    page: &mut Page,
    names: &Names,
    code: &[Instr],
    at: u32,
    depth: usize,
) -> Result<u32, AllocError>
    requires laid { IsLaid page.old }
    requires within { depth ≤ at }
    requires short { at + 1 + count (code_of code.now) < 2 ^ 32 }
    ensures lines { IfOk result (λ next. shown page.new ≡ shown page.old ++ contents_lines (told_by names.now) depth (code_of code.now) at) }
    ensures next { IfOk result (λ next. next ≡ at + 1 + count (code_of code.now)) }
    ensures laid { IfOk result (λ _. IsLaid page.new) }
{
    let end = Node::Join(Pos(at));
    let ended = push_sequence(alloc, page, names, code, at + 1, depth + 1, end)?;
    push_closing(page, depth, "end", ended.makers.as_slice())?;
    Ok(ended.next)
}

/// Adds the lines of the arms of an if at position `at`, of the else where the second one isn't empty, and of the end.
#[cycle(sequence)]
fn push_arms(
    alloc: Global,
    page: &mut Page,
    names: &Names,
    first: &[Instr],
    second: &[Instr],
    at: u32,
    depth: usize,
) -> Result<u32, AllocError>
    requires laid { IsLaid page.old }
    requires within { depth ≤ at }
    requires short { at + 1 + count (code_of first.now) + count (code_of second.now) < 2 ^ 32 }
    ensures lines { IfOk result (λ next. shown page.new ≡ shown page.old ++ arms_lines (told_by names.now) depth (code_of first.now) (code_of second.now) at) }
    ensures next { IfOk result (λ next. next ≡ at + 1 + count (code_of first.now) + count (code_of second.now)) }
    ensures laid { IfOk result (λ _. IsLaid page.new) }
{
    let end = Node::Join(Pos(at));
    let ended = push_sequence(alloc, page, names, first, at + 1, depth + 1, end)?;
    if second.is_empty() {
        push_closing(page, depth, "end", ended.makers.as_slice())?;
        return Ok(ended.next);
    }
    push_closing(page, depth, "else", ended.makers.as_slice())?;
    let ended = push_sequence(alloc, page, names, second, ended.next, depth + 1, end)?;
    push_closing(page, depth, "end", ended.makers.as_slice())?;
    Ok(ended.next)
}

/// Adds the lines of an instruction at position `at`, and of what it holds. What comes out is the position behind it.
#[cycle(sequence)]
fn push_instr(
    alloc: Global,
    page: &mut Page,
    names: &Names,
    instr: &Instr,
    at: u32,
    depth: usize,
) -> Result<u32, AllocError>
    requires laid { IsLaid page.old }
    requires within { depth ≤ at }
    requires short { at + count (onto instr.now done) < 2 ^ 32 }
    ensures lines { IfOk result (λ next. shown page.new ≡ shown page.old ++ lines (told_by names.now) depth (onto instr.now done) at) }
    ensures next { IfOk result (λ next. next ≡ at + count (onto instr.now done)) }
    ensures laid { IfOk result (λ _. IsLaid page.new) }
{
    match instr {
        Instr::Block(kind, code) => {
            push_opening(page, names, "block", *kind, at, depth)?;
            push_contents(alloc, page, names, code.as_slice(), at, depth)
        }
        Instr::Loop(kind, code) => {
            push_opening(page, names, "loop", *kind, at, depth)?;
            push_contents(alloc, page, names, code.as_slice(), at, depth)
        }
        Instr::If(kind, first, second) => {
            push_opening(page, names, "if", *kind, at, depth)?;
            push_arms(
                alloc,
                page,
                names,
                first.as_slice(),
                second.as_slice(),
                at,
                depth,
            )
        }
        _ => {
            push_plain(page, names, instr, at, depth)?;
            Ok(at + 1)
        }
    }
}

/// The listing of a function: a line for each position, with its operands, and for each else and end (docs/COMMANDS.md, "What a listing prints").
pub fn list_text(
    alloc: Global,
    m: &ValidModule,
    func: u32,
    names: &Names,
) -> Result<Spaced, NoMemory>
    requires { HasOperands m.now func unwatched names.now }
    ensures { IfOk result (λ text. text ≡ listing m.now func) }
{
    let m = m.module();
    let Some(body) = m.body(func) else {
        return Ok(Spaced::of(alloc, Vec::new(alloc)));
    };
    let code = body.code.as_slice();
    let mut page = Page::with_capacity(
        alloc,
        LINE * code.len().max(LINES).min(MOST_POSITIONS as usize),
    )?;
    let ended = push_sequence(alloc, &mut page, names, code, 0, 0, Node::Exit)?;
    push_closing(&mut page, 0, "end", ended.makers.as_slice())?;
    Ok(page.into_text())
}
