//! The command that the words are.

ghost use Rattle.std.specs.Prelude.{◌≡◌, map, IfOk};
ghost use Rattle.std.specs.String.{string_bytes};
ghost use Rattle.run_words.specs.Words.{reply_of, value_of};
ghost use Rattle.wassail_top.specs.Orders.{order_read, HasShortName};
ghost use Rattle.wassail_top.specs.Orders.Order.{kept, list, slice, summary};
ghost use Rattle.wassail_top.specs.Parses.{IsShort, Parses, ParsesRequest, ReadsArgs, ReadsGiven, ReadsReplies};
ghost use Rattle.wassail_top.specs.Words.{alone, before_slash, behind_slash, each, given_of, mill_of, one, one_or_none, order_of, running, tracing, two, two_and_name};

use run_words::{ReplyEnd, parse_number, parse_reply, parse_value};
use sqlite_items::Items;
use std::alloc::Global;
use thiserror::Error;
use wasm_types::{MOST_NAME_BYTES, Reply};

/// What the program is asked to do.
#[derive(Drop)]
pub enum Request {
    /// Answer about the module that it reads.
    Answer(Command),
    /// Tell of the module that is made of a number.
    Mill { count: u32 },
}

/// What the program is asked to do with a module.
#[derive(Drop)]
pub enum Command {
    /// Answer a question about the module.
    Ask(Question),
    /// Write the module with a slice of function `func` at position `at` appended, exported as `name`.
    Slice { func: u32, at: u32, name: String },
}

/// What is asked about a module, which stays as it is.
#[derive(Drop)]
pub enum Question {
    /// Tell whether the module is valid, has no float and keeps the limits.
    Check,
    /// Write the module in its canonical spelling.
    Rewrite,
    /// Print the code of function `func`.
    List {
        func: u32,
    },
    /// Print which inputs the outputs of function `func` may depend on, or, where there is none, of every function.
    Summary {
        func: Option<u32>,
    },
    /// Print the nodes that position `at` of function `func` depends on.
    Kept {
        func: u32,
        at: u32,
    },
    /// Run function `func` on these arguments within a budget of turns, where the host gives these replies.
    Run {
        func: u32,
        budget: u32,
        args: Vec<i128>,
        replies: Items<Reply>,
    },
    /// The same, and print what is seen at position `at`.
    Trace {
        func: u32,
        at: u32,
        budget: u32,
        args: Vec<i128>,
        replies: Items<Reply>,
    },
}

/// Why words aren't read as a command.
#[derive(Clone, Copy, Debug, PartialEq, Eq, Error)]
pub enum WordsEnd {
    /// The words are no command.
    #[error("words refused")]
    Refused,
    /// An allocation was refused.
    #[error("no memory")]
    Memory,
}

/// The arguments of a run, and the replies of its host.
#[derive(Drop)]
struct Given {
    args: Vec<i128>,
    replies: Items<Reply>,
}

/// What the words ask for. `Refused` comes exactly where they are no command (docs/COMMANDS.md).
pub fn parse_words(alloc: Global, words: &[String]) -> Result<Request, WordsEnd>
    ensures parses { ParsesRequest (map string_bytes words.now) result }
    ensures short { IfOk result (λ request. IsShort request) }
{
    if let Some(count) = parse_mill(words) {
        return Ok(Request::Mill { count });
    }
    match parse_command(alloc, words) {
        Ok(command) => Ok(Request::Answer(command)),
        Err(end) => Err(end),
    }
}

// The number behind `mill`.
fn parse_mill(words: &[String]) -> Option<u32>
    ensures { result ≡ mill_of (map string_bytes words.now) }
{
    let [name, number] = words else {
        return None;
    };
    if name.as_str() == "mill" {
        parse_number(number.as_bytes())
    } else {
        None
    }
}

// The command about a module that the words are.
fn parse_command(alloc: Global, words: &[String]) -> Result<Command, WordsEnd>
    ensures parses { Parses (order_of (map string_bytes words.now)) result }
    ensures short { IfOk result (λ command. HasShortName (order_read command)) }
{
    let [name, rest @ ..] = words else {
        return Err(WordsEnd::Refused);
    };
    match name.as_str() {
        "check" => parse_alone(Command::Ask(Question::Check), rest),
        "rewrite" => parse_alone(Command::Ask(Question::Rewrite), rest),
        "list" => parse_list(rest),
        "summary" => parse_summary(rest),
        "kept" => parse_kept(rest),
        "slice" => parse_slice(rest),
        "run" => parse_run(alloc, rest),
        "trace" => parse_trace(alloc, rest),
        _ => Err(WordsEnd::Refused),
    }
}

// A command that has no words after its name.
fn parse_alone(command: Command, rest: &[String]) -> Result<Command, WordsEnd>
    requires { HasShortName (order_read command) }
    ensures parses { Parses (alone (order_read command) (map string_bytes rest.now)) result }
    ensures short { IfOk result (λ command. HasShortName (order_read command)) }
{
    if rest.is_empty() {
        Ok(command)
    } else {
        Err(WordsEnd::Refused)
    }
}

// One number.
fn parse_list(rest: &[String]) -> Result<Command, WordsEnd>
    ensures parses { Parses (one list (map string_bytes rest.now)) result }
    ensures short { IfOk result (λ command. HasShortName (order_read command)) }
{
    let [func] = rest else {
        return Err(WordsEnd::Refused);
    };
    let func = parse_number(func.as_bytes()).ok_or(WordsEnd::Refused)?;
    Ok(Command::Ask(Question::List { func }))
}

// No word, or one number.
fn parse_summary(rest: &[String]) -> Result<Command, WordsEnd>
    ensures parses { Parses (one_or_none summary (map string_bytes rest.now)) result }
    ensures short { IfOk result (λ command. HasShortName (order_read command)) }
{
    match rest {
        [] => Ok(Command::Ask(Question::Summary { func: None })),
        [func] => {
            let func = parse_number(func.as_bytes()).ok_or(WordsEnd::Refused)?;
            Ok(Command::Ask(Question::Summary { func: Some(func) }))
        }
        _ => Err(WordsEnd::Refused),
    }
}

// Two numbers.
fn parse_kept(rest: &[String]) -> Result<Command, WordsEnd>
    ensures parses { Parses (two kept (map string_bytes rest.now)) result }
    ensures short { IfOk result (λ command. HasShortName (order_read command)) }
{
    let [func, at] = rest else {
        return Err(WordsEnd::Refused);
    };
    let func = parse_number(func.as_bytes()).ok_or(WordsEnd::Refused)?;
    let at = parse_number(at.as_bytes()).ok_or(WordsEnd::Refused)?;
    Ok(Command::Ask(Question::Kept { func, at }))
}

// Two numbers and a name.
fn parse_slice(rest: &[String]) -> Result<Command, WordsEnd>
    ensures parses { Parses (two_and_name slice (map string_bytes rest.now)) result }
    ensures short { IfOk result (λ command. HasShortName (order_read command)) }
{
    let [func, at, name] = rest else {
        return Err(WordsEnd::Refused);
    };
    if name.len() > MOST_NAME_BYTES {
        return Err(WordsEnd::Refused);
    }
    let (Some(func), Some(at)) = (parse_number(func.as_bytes()), parse_number(at.as_bytes())) else {
        return Err(WordsEnd::Refused);
    };
    let Ok(name) = name.clone() else {
        return Err(WordsEnd::Memory);
    };
    Ok(Command::Slice { func, at, name })
}

// A function and a budget, with arguments and replies.
fn parse_run(alloc: Global, rest: &[String]) -> Result<Command, WordsEnd>
    ensures parses { Parses (running (map string_bytes rest.now)) result }
    ensures short { IfOk result (λ command. HasShortName (order_read command)) }
{
    let [func, budget, words @ ..] = rest else {
        return Err(WordsEnd::Refused);
    };
    let func = parse_number(func.as_bytes()).ok_or(WordsEnd::Refused)?;
    let budget = parse_number(budget.as_bytes()).ok_or(WordsEnd::Refused)?;
    let Given { args, replies } = parse_given(alloc, words)?;
    Ok(Command::Ask(Question::Run {
        func,
        budget,
        args,
        replies,
    }))
}

// A function, a position in it and a budget, with arguments and replies.
fn parse_trace(alloc: Global, rest: &[String]) -> Result<Command, WordsEnd>
    ensures parses { Parses (tracing (map string_bytes rest.now)) result }
    ensures short { IfOk result (λ command. HasShortName (order_read command)) }
{
    let [func, at, budget, words @ ..] = rest else {
        return Err(WordsEnd::Refused);
    };
    let func = parse_number(func.as_bytes()).ok_or(WordsEnd::Refused)?;
    let at = parse_number(at.as_bytes()).ok_or(WordsEnd::Refused)?;
    let budget = parse_number(budget.as_bytes()).ok_or(WordsEnd::Refused)?;
    let Given { args, replies } = parse_given(alloc, words)?;
    Ok(Command::Ask(Question::Trace {
        func,
        at,
        budget,
        args,
        replies,
    }))
}

// Arguments, and replies after the first `/`.
fn parse_given(alloc: Global, words: &[String]) -> Result<Given, WordsEnd>
    ensures { ReadsGiven (given_of (map string_bytes words.now)) result }
{
    let (args, replies) = cut_at_slash(words);
    let args = parse_args(alloc, args)?;
    let replies = parse_replies(alloc, replies)?;
    Ok(Given { args, replies })
}

// The words before the first `/`, and those behind it: none where there is no `/`.
fn cut_at_slash(words: &[String]) -> (&[String], &[String])
    ensures args { map string_bytes result.0.now ≡ before_slash (map string_bytes words.now) }
    ensures replies { map string_bytes result.1.now ≡ behind_slash (map string_bytes words.now) }
{
    for k in 0..words.len() {
        if words[k].as_str() == "/" {
            return (&words[..k], &words[k + 1..]);
        }
    }
    (words, &[])
}

// The arguments that the words are.
fn parse_args(alloc: Global, words: &[String]) -> Result<Vec<i128>, WordsEnd>
    ensures { ReadsArgs (each value_of (map string_bytes words.now)) result }
{
    let mut args = Vec::new(alloc);
    for word in words {
        let arg = parse_value(word.as_bytes()).ok_or(WordsEnd::Refused)?;
        if args.push(arg).is_err() {
            return Err(WordsEnd::Memory);
        }
    }
    Ok(args)
}

// The replies that the words are.
fn parse_replies(alloc: Global, words: &[String]) -> Result<Items<Reply>, WordsEnd>
    ensures { ReadsReplies (each reply_of (map string_bytes words.now)) result }
{
    let mut replies = Items::new(alloc);
    for word in words {
        let reply = match parse_reply(alloc, word.as_bytes()) {
            Ok(reply) => reply,
            Err(ReplyEnd::Refused) => return Err(WordsEnd::Refused),
            Err(ReplyEnd::Memory) => return Err(WordsEnd::Memory),
        };
        if replies.push(reply).is_err() {
            return Err(WordsEnd::Memory);
        }
    }
    Ok(replies)
}
