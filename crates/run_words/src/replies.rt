//! Replies of the host by their words.

ghost use Rattle.std.specs.Prelude.{◌≡◌, ◌∷◌, option_and_then, OnOk};
ghost use Rattle.std.specs.Option.{option_copied};
ghost use Rattle.run_words.specs.Words as words;
ghost use Rattle.run_words.specs.Words.{empty, hex_bytes, hex_digit, item_of, items_of, joined_to, number_of, pieces_left, reply_of, setting, some_bytes, value_of, with_item, writing, Reads};

use crate::numbers::{parse_number, parse_value};
use crate::pieces::cut_at;
use sqlite_items::Items;
use std::alloc::{AllocError, Global};
use thiserror::Error;
use wasm_types::Reply;

/// Why a word isn't read as a reply.
#[derive(Clone, Copy, Debug, PartialEq, Eq, Error)]
pub enum ReplyEnd {
    /// The word is no reply.
    #[error("word refused")]
    Refused,
    /// An allocation was refused.
    #[error("no memory")]
    Memory,
}

/// What a reply does besides its result: it sets a global, or writes bytes from an address on.
#[derive(Drop)]
pub enum Item {
    Sets(u32, i128),
    Writes(u32, Items<u8>),
}

/// The value of a digit of a byte.
fn hex_value(digit: u8) -> Option<u8>
    ensures { result ≡ hex_digit digit }
{
    match digit {
        b'0'..=b'9' => Some(digit - b'0'),
        b'a'..=b'f' => Some(digit - 87),
        _ => None,
    }
}

/// Bytes, at least one, by two digits each.
fn parse_bytes(alloc: Global, text: &[u8]) -> Result<Items<u8>, ReplyEnd>
    ensures { Reads (option_and_then some_bytes (hex_bytes text.now)) result }
{
    let mut bytes = Items::new(alloc);
    let mut rest = text;
    while let [high, low, others @ ..] = rest {
        let (Some(high), Some(low)) = (hex_value(*high), hex_value(*low)) else {
            return Err(ReplyEnd::Refused);
        };
        if bytes.push(16 * high + low).is_err() {
            return Err(ReplyEnd::Memory);
        }
        rest = others;
    }
    if bytes.is_empty() || !rest.is_empty() {
        return Err(ReplyEnd::Refused);
    }
    Ok(bytes)
}

/// A global's number and a value for it.
fn parse_setting(word: &[u8]) -> Result<Item, ReplyEnd>
    ensures { Reads (item_of (103 ∷ word.now)) result }
{
    let (global, Some(number)) = cut_at(word, b'=') else {
        return Err(ReplyEnd::Refused);
    };
    let (Some(global), Some(number)) = (parse_number(global), parse_value(number)) else {
        return Err(ReplyEnd::Refused);
    };
    Ok(Item::Sets(global, number))
}

/// An address and bytes.
fn parse_writing(alloc: Global, word: &[u8]) -> Result<Item, ReplyEnd>
    ensures { Reads (item_of (109 ∷ word.now)) result }
{
    let (at, Some(bytes)) = cut_at(word, b'=') else {
        return Err(ReplyEnd::Refused);
    };
    let at = parse_number(at).ok_or(ReplyEnd::Refused)?;
    let bytes = parse_bytes(alloc, bytes)?;
    Ok(Item::Writes(at, bytes))
}

/// What an item does.
fn parse_item(alloc: Global, word: &[u8]) -> Result<Item, ReplyEnd>
    ensures { Reads (item_of word.now) result }
{
    match word {
        [b'g', rest @ ..] => parse_setting(rest),
        [b'm', rest @ ..] => parse_writing(alloc, rest),
        _ => Err(ReplyEnd::Refused),
    }
}

/// Adds to a reply what an item does.
fn add_item(reply: &mut Reply, item: Item) -> Result<(), AllocError>
    ensures { OnOk result (reply.new ≡ with_item reply.old item) }
{
    match item {
        Item::Sets(global, number) => reply.globals.push((global, number)),
        Item::Writes(at, bytes) => reply.bytes.push((at, bytes)),
    }
}

/// The reply that a word is. `Refused` comes exactly where it is none.
pub fn parse_reply(alloc: Global, word: &[u8]) -> Result<Reply, ReplyEnd>
    ensures { Reads (reply_of word.now) result }
{
    if is_dash(word) {
        return Ok(empty_reply(alloc, None));
    }
    let (first, others) = cut_at(word, b',');
    match parse_value(first) {
        None => parse_items(alloc, empty_reply(alloc, None), Some(word)),
        result => parse_items(alloc, empty_reply(alloc, result), others),
    }
}

/// Whether a word is - alone.
fn is_dash(word: &[u8]) -> bool
    ensures { result ≡ words.is_dash word.now }
{
    matches!(word, [b'-'])
}

/// A reply that does nothing besides its result.
fn empty_reply(alloc: Global, value: Option<i128>) -> Reply
    ensures { result ≡ record empty { result = value } }
{
    Reply {
        result: value,
        globals: Items::new(alloc),
        bytes: Items::new(alloc),
    }
}

/// A reply, and then what the items do that are left.
fn parse_items(alloc: Global, begun: Reply, rest: Option<&[u8]>) -> Result<Reply, ReplyEnd>
    ensures { Reads (joined_to begun (items_of (pieces_left (option_copied rest.entry)))) result }
{
    let mut reply = begun;
    let mut left = rest;
    while let Some(word) = left {
        let (piece, others) = cut_at(word, b',');
        let item = parse_item(alloc, piece)?;
        if add_item(&mut reply, item).is_err() {
            return Err(ReplyEnd::Memory);
        }
        left = others;
    }
    Ok(reply)
}
