//! What is due on out and err, worked out before anything is written.

ghost use Rattle.std.specs.Prelude.{◌≡◌, ◌≤◌, ◌<◌, ◌^◌, ℕ, None, length, map, IfOk};
ghost use Rattle.std.specs.String.{string_bytes};
ghost use Rattle.stack_names.specs.Ends.{HasOperands};
ghost use Rattle.wasm_types.specs.Canon.{canon};
ghost use Rattle.wasm_types.specs.Funcs.{unwatched};
ghost use Rattle.wasm_types.specs.Subset.{NestsAtMost, most_nesting};
ghost use Rattle.wasm_types.specs.WellFormed.{IsWellFormed};
ghost use Rattle.wasm_validate.specs.Admission.{IsAdmitted};
ghost use Rattle.report_text.specs.declared.refusal.Refusal.TheVariants as refusal;
ghost use Rattle.report_text.specs.Listing.{listing};
ghost use Rattle.report_text.specs.SummaryTexts.{rows_in, summary_lines};
ghost use Rattle.report_text.specs.Texts.{valid_line};
ghost use Rattle.flow_domain.specs.Summaries.{IsTableOf};
ghost use Rattle.module_run.specs.Runs.{ends_as};
ghost use Rattle.ref_interp.specs.Invokes.{Watches};
ghost use Rattle.module_mill.specs.Mill.{mill};
ghost use Rattle.wassail_top.specs.Answers.{bytes_alone, IsDue, IsDueTo, AnswersAdmitted, AnswersBytes, AnswersModule, IsKeptAs, IsReportOf, IsSlicedAs, IsSummaryOf, most_bytes, slice_answer};
ghost use Rattle.wassail_top.specs.Orders.{asked, HasShortName, most_name_bytes, order_read};
ghost use Rattle.wassail_top.specs.Queries.{positions_of, why_no_run, why_no_slice, why_no_summary, why_not_kept, why_not_milled, why_not_run, why_not_traced};
ghost use Rattle.wassail_top.specs.Refusals.{IsRefusedFor, refused, unless_refused, why_no_code};
ghost use Rattle.wassail_top.specs.Reply.{reply_answer};
ghost use Rattle.wassail_top.specs.RunAnswers.{AnswersUnless, IsRunAs, run_answer};
ghost use Rattle.wassail_top.specs.Words.{order_of};

use crate::refusals::{
    admit_refusal, code_refusal, decode_refusal, mill_refusal, sight_refusal, slice_refusal,
    summary_refusal,
};
use crate::report::report;
use crate::status::Status;
use crate::words::{Command, Question, Request, WordsEnd, parse_words};
use flow_domain::SummaryTable;
use module_run::{RunEnd, RunRefusal, run, values_of};
use outside_io::{ReadEnd, Source, read_all};
use report_text::{
    ModuleRefusal, Outcome, QueryRefusal, Refusal, Spaced, kept_text, list_text, refusal_text,
    run_text, slice_text, summary_text, valid_text,
};
use slice_whole::{Sliced, kept_named, slice};
use sqlite_items::Items;
use stack_names::{Names, operand_names, value_names};
use std::alloc::Global;
use summary_fix::summarise;
use wasm_decode::decode;
use wasm_encode::encode;
use wasm_types::{MOST_BYTES, Module, NoMemory, Pos, Reply as HostReply, ValidModule};
use wasm_validate::admit;

/// A status, and what out and err get.
#[derive(Drop)]
pub struct Reply {
    pub status: Status,
    pub out: Spaced,
    pub err: Vec<u8>,
}

/// What is due. It fails only where an allocation is refused.
pub fn due<S: Source>(alloc: Global, words: &[String], source: &mut S) -> Result<Reply, NoMemory>
    ensures due { IfOk result (λ reply. IsDue (map string_bytes words.now) (S.left source.old) (S.left source.new)
        (S.faults source.old) (S.faults source.new) (reply_answer reply)) }
    ensures untouched { order_of (map string_bytes words.now) ≡ None → source.new ≡ source.old }
    ensures later { S.faults source.old ≤ S.faults source.new }
{
    match parse_words(alloc, words) {
        Ok(Request::Answer(command)) => read_and_answer(alloc, command, source),
        Ok(Request::Mill { count }) => answer_mill(alloc, count),
        Err(WordsEnd::Refused) => refuse(alloc, Refusal::Words),
        Err(WordsEnd::Memory) => Err(NoMemory),
    }
}

// What `mill` answers.
fn answer_mill(alloc: Global, count: u32) -> Result<Reply, NoMemory>
    ensures { IfOk result (λ reply. AnswersUnless (why_not_milled count) (IsReportOf (mill count)) (reply_answer reply)) }
{
    if let Some(cause) = mill_refusal(count) {
        return refuse(alloc, Refusal::Query(cause));
    }
    Ok(Reply {
        status: Status::Answered,
        out: Spaced::of(alloc, report(alloc, count)?),
        err: Vec::new(alloc),
    })
}

// What is due from a command.
fn read_and_answer<S: Source>(
    alloc: Global,
    command: Command,
    source: &mut S,
) -> Result<Reply, NoMemory>
    requires name { HasShortName (order_read command) }
    ensures due { IfOk result (λ reply. IsDueTo (order_read command) (S.left source.old) (S.left source.new)
        (S.faults source.old) (S.faults source.new) (reply_answer reply)) }
    ensures later { S.faults source.old ≤ S.faults source.new }
{
    match read_all(alloc, source, MOST_BYTES) {
        Ok(bytes) => answer_bytes(alloc, command, &bytes),
        Err(ReadEnd::TooLong) => refuse(alloc, Refusal::Module(ModuleRefusal::TooLong)),
        Err(ReadEnd::Fault) => refuse(alloc, Refusal::ReadFailed),
        Err(ReadEnd::Memory) => Err(NoMemory),
    }
}

// What a command answers about the bytes that it has read.
fn answer_bytes(alloc: Global, command: Command, bytes: &[u8]) -> Result<Reply, NoMemory>
    requires short { length bytes.now ≤ most_bytes }
    requires name { HasShortName (order_read command) }
    ensures { IfOk result (λ reply. AnswersBytes (order_read command) bytes.now (reply_answer reply)) }
{
    match decode(alloc, bytes) {
        Ok(form) => answer_module(alloc, command, form),
        Err(end) => refuse_module(alloc, decode_refusal(end)),
    }
}

// What a command answers about a module: the first refusal to admit it, or the command's own answer.
fn answer_module(alloc: Global, command: Command, form: Module) -> Result<Reply, NoMemory>
    requires well_formed { IsWellFormed form }
    requires short { length (canon form) ≤ most_bytes }
    requires nesting { NestsAtMost most_nesting form }
    requires name { HasShortName (order_read command) }
    ensures { IfOk result (λ reply. AnswersModule (order_read command) form (reply_answer reply)) }
{
    match admit(alloc, form) {
        Ok(valid) => answer_admitted(alloc, command, valid),
        Err((_, end)) => refuse_module(alloc, admit_refusal(end)),
    }
}

// What a command answers about an admitted module.
fn answer_admitted(alloc: Global, command: Command, valid: ValidModule) -> Result<Reply, NoMemory>
    requires admitted { IsAdmitted valid }
    requires short { length (canon valid) ≤ most_bytes }
    requires name { HasShortName (order_read command) }
    ensures { IfOk result (λ reply. AnswersAdmitted (order_read command) valid (reply_answer reply)) }
{
    match command {
        Command::Ask(question) => answer_question(alloc, question, &valid),
        Command::Slice { func, at, name } => answer_slice(alloc, valid, func, at, name.as_str()),
    }
}

// What is answered to a question about an admitted module.
fn answer_question(
    alloc: Global,
    question: Question,
    valid: &ValidModule,
) -> Result<Reply, NoMemory>
    requires admitted { IsAdmitted valid.now }
    requires short { length (canon valid.now) ≤ most_bytes }
    ensures { IfOk result (λ reply. AnswersAdmitted (asked question) valid.now (reply_answer reply)) }
{
    match question {
        Question::Check => answer_check(alloc),
        Question::Rewrite => answer_rewrite(alloc, valid),
        Question::List { func } => answer_list(alloc, valid, func),
        Question::Summary { func } => answer_summary(alloc, valid, func),
        Question::Kept { func, at } => answer_kept(alloc, valid, func, at),
        Question::Run {
            func,
            budget,
            args,
            replies,
        } => answer_run(alloc, valid, func, budget, &args, replies),
        Question::Trace {
            func,
            at,
            budget,
            args,
            replies,
        } => answer_trace(alloc, valid, func, at, budget, &args, replies),
    }
}

// What `check` answers about an admitted module.
fn answer_check(alloc: Global) -> Result<Reply, NoMemory>
    ensures { IfOk result (λ reply. reply_answer reply ≡ bytes_alone valid_line) }
{
    Ok(Reply {
        status: Status::Answered,
        out: Spaced::of(alloc, valid_text(alloc)?),
        err: Vec::new(alloc),
    })
}

// What `rewrite` answers about an admitted module.
fn answer_rewrite(alloc: Global, valid: &ValidModule) -> Result<Reply, NoMemory>
    requires admitted { IsAdmitted valid.now }
    requires short { length (canon valid.now) ≤ most_bytes }
    ensures { IfOk result (λ reply. reply_answer reply ≡ bytes_alone (canon valid.now)) }
{
    Ok(Reply {
        status: Status::Answered,
        out: Spaced::of(alloc, encode(alloc, valid.module())?),
        err: Vec::new(alloc),
    })
}

// What `list` answers about an admitted module.
fn answer_list(alloc: Global, valid: &ValidModule, func: u32) -> Result<Reply, NoMemory>
    requires admitted { IsAdmitted valid.now }
    ensures { IfOk result (λ reply. reply_answer reply ≡ unless_refused (why_no_code valid.now func) (bytes_alone (listing valid.now func))) }
{
    if let Some(cause) = code_refusal(valid, func) {
        return refuse(alloc, Refusal::Query(cause));
    }
    let names = operand_names(alloc, valid, func)?;
    write_list(alloc, valid, func, &names)
}

// The listing of a function on out.
fn write_list(
    alloc: Global,
    valid: &ValidModule,
    func: u32,
    names: &Names,
) -> Result<Reply, NoMemory>
    requires { HasOperands valid.now func unwatched names.now }
    ensures { IfOk result (λ reply. reply_answer reply ≡ bytes_alone (listing valid.now func)) }
{
    Ok(Reply {
        status: Status::Answered,
        out: list_text(alloc, valid, func, names)?,
        err: Vec::new(alloc),
    })
}

// What `summary` answers about an admitted module.
fn answer_summary(alloc: Global, valid: &ValidModule, func: Option<u32>) -> Result<Reply, NoMemory>
    requires admitted { IsAdmitted valid.now }
    ensures { IfOk result (λ reply. AnswersUnless (why_no_summary valid.now func) (IsSummaryOf valid.now func) (reply_answer reply)) }
{
    if let Some(cause) = summary_refusal(valid, func) {
        return refuse(alloc, Refusal::Query(cause));
    }
    let table = summarise(alloc, valid)?;
    write_summary(alloc, valid, &table, func)
}

// The lines of the rows of a function, or of every function, on out.
fn write_summary(
    alloc: Global,
    valid: &ValidModule,
    table: &SummaryTable,
    func: Option<u32>,
) -> Result<Reply, NoMemory>
    requires { IsTableOf valid.now table.now }
    ensures { IfOk result (λ reply. reply_answer reply ≡ bytes_alone (summary_lines valid.now (rows_in table.now) func)) }
{
    Ok(Reply {
        status: Status::Answered,
        out: Spaced::of(alloc, summary_text(alloc, valid, table, func)?),
        err: Vec::new(alloc),
    })
}

// What `run` answers about an admitted module.
fn answer_run(
    alloc: Global,
    valid: &ValidModule,
    func: u32,
    budget: u32,
    args: &[i128],
    replies: Items<HostReply>,
) -> Result<Reply, NoMemory>
    requires admitted { IsAdmitted valid.now }
    ensures { IfOk result (λ reply. AnswersUnless (why_not_run valid.now func args.now)
        (IsRunAs valid.now func (positions_of valid.now func) budget args.now replies) (reply_answer reply)) }
{
    if let Some(cause) = code_refusal(valid, func) {
        return refuse(alloc, Refusal::Query(cause));
    }
    run_code(alloc, valid, func, None, budget, args, replies)
}

// What `trace` answers about an admitted module.
fn answer_trace(
    alloc: Global,
    valid: &ValidModule,
    func: u32,
    at: u32,
    budget: u32,
    args: &[i128],
    replies: Items<HostReply>,
) -> Result<Reply, NoMemory>
    requires admitted { IsAdmitted valid.now }
    ensures { IfOk result (λ reply. AnswersUnless (why_not_traced valid.now func at args.now)
        (IsRunAs valid.now func at budget args.now replies) (reply_answer reply)) }
{
    if let Some(cause) = code_refusal(valid, func) {
        return refuse(alloc, Refusal::Query(cause));
    }
    let names = value_names(alloc, valid, func)?;
    if let Some(cause) = sight_refusal(valid, func, &names, at) {
        return refuse(alloc, Refusal::Query(cause));
    }
    run_code(alloc, valid, func, Some(Pos(at)), budget, args, replies)
}

// The run of a function that has code, with what is seen at a watched position, unless its arguments don't fit or the memory is too large.
fn run_code(
    alloc: Global,
    valid: &ValidModule,
    func: u32,
    watch: Option<Pos>,
    budget: u32,
    args: &[i128],
    replies: Items<HostReply>,
) -> Result<Reply, NoMemory>
    requires code { why_no_code valid.now func ≡ None }
    ensures { IfOk result (λ reply. (i : ℕ) → Watches valid.now func watch i → AnswersUnless (why_no_run valid.now func args.now)
        (IsRunAs valid.now func i budget args.now replies) (reply_answer reply)) }
{
    let Some(kind) = valid.module().func_type(func) else {
        unreachable!()
    };
    let Some(values) = values_of(alloc, kind.params.as_slice(), args)? else {
        return refuse(alloc, Refusal::Query(QueryRefusal::BadArguments));
    };
    match run(alloc, valid, func, watch, &values, replies, budget) {
        Ok(end) => write_run(alloc, end),
        Err(RunRefusal::TooManyPages { min }) => {
            refuse(alloc, Refusal::Query(QueryRefusal::TooManyPages { min }))
        }
        Err(RunRefusal::Memory) => Err(NoMemory),
    }
}

// How a run ended, with its events, on out.
fn write_run(alloc: Global, end: RunEnd) -> Result<Reply, NoMemory>
    ensures { IfOk result (λ reply. reply_answer reply ≡ run_answer (ends_as end)) }
{
    let status = Status::of_run(&end);
    let outcome = match end {
        RunEnd::ElemOut { k } => Outcome::ElemOut { k },
        RunEnd::DataOut { k } => Outcome::DataOut { k },
        RunEnd::InStart { ended } => Outcome::Ran {
            ended,
            trace: Vec::new(alloc),
            in_start: true,
        },
        RunEnd::Ran { ended, trace } => Outcome::Ran {
            ended,
            trace,
            in_start: false,
        },
    };
    Ok(Reply {
        status,
        out: Spaced::of(alloc, run_text(alloc, &outcome)?),
        err: Vec::new(alloc),
    })
}

// What `kept` answers about an admitted module.
fn answer_kept(alloc: Global, valid: &ValidModule, func: u32, at: u32) -> Result<Reply, NoMemory>
    requires admitted { IsAdmitted valid.now }
    ensures { IfOk result (λ reply. AnswersUnless (why_not_kept valid.now func at) (IsKeptAs valid.now func at) (reply_answer reply)) }
{
    if let Some(cause) = code_refusal(valid, func) {
        return refuse(alloc, Refusal::Query(cause));
    }
    let names = value_names(alloc, valid, func)?;
    if let Some(cause) = sight_refusal(valid, func, &names, at) {
        return refuse(alloc, Refusal::Query(cause));
    }
    let Some(body) = valid.module().body(func) else {
        unreachable!()
    };
    let count = body.count();
    let kept = kept_named(alloc, valid, func, &names, Pos(at))?;
    Ok(Reply {
        status: Status::Answered,
        out: Spaced::of(alloc, kept_text(alloc, &kept, count)?),
        err: Vec::new(alloc),
    })
}

// What `slice` answers about an admitted module.
fn answer_slice(
    alloc: Global,
    valid: ValidModule,
    func: u32,
    at: u32,
    name: &str,
) -> Result<Reply, NoMemory>
    requires admitted { IsAdmitted valid }
    requires short { length (canon valid) ≤ most_bytes }
    requires name { length name.now ≤ most_name_bytes }
    ensures { IfOk result (λ reply. AnswersUnless (why_no_slice valid func at name.now) (IsSlicedAs valid func at name.now) (reply_answer reply)) }
{
    match slice(alloc, valid, func, Pos(at), name) {
        Ok(sliced) => write_slice(alloc, &sliced),
        Err(end) => refuse_query(alloc, slice_refusal(end, func, at)),
    }
}

// The sliced module on out, and on err where the instruction went.
fn write_slice(alloc: Global, sliced: &Sliced) -> Result<Reply, NoMemory>
    requires well_formed { IsWellFormed sliced.now.module }
    requires short { length (canon sliced.now.module) < 2 ^ 32 }
    ensures { IfOk result (λ reply. reply_answer reply ≡ slice_answer sliced.now.module sliced.now.func sliced.now.at.0) }
{
    Ok(Reply {
        status: Status::Answered,
        out: Spaced::of(alloc, encode(alloc, sliced.module.module())?),
        err: slice_text(alloc, sliced.func, sliced.at.0)?,
    })
}

// The refusal of a module for a cause. Where there is none, an allocation was refused.
fn refuse_module(alloc: Global, cause: Option<ModuleRefusal>) -> Result<Reply, NoMemory>
    ensures { IfOk result (λ reply. IsRefusedFor refusal.Module cause (reply_answer reply)) }
{
    match cause {
        Some(cause) => refuse(alloc, Refusal::Module(cause)),
        None => Err(NoMemory),
    }
}

// The refusal of a query for a cause. Where there is none, an allocation was refused.
fn refuse_query(alloc: Global, cause: Option<QueryRefusal>) -> Result<Reply, NoMemory>
    ensures { IfOk result (λ reply. IsRefusedFor refusal.Query cause (reply_answer reply)) }
{
    match cause {
        Some(cause) => refuse(alloc, Refusal::Query(cause)),
        None => Err(NoMemory),
    }
}

// Nothing for out, and a line for err.
fn refuse(alloc: Global, refusal: Refusal) -> Result<Reply, NoMemory>
    ensures { IfOk result (λ reply. reply_answer reply ≡ refused refusal) }
{
    Ok(Reply {
        status: Status::of(refusal),
        out: Spaced::of(alloc, Vec::new(alloc)),
        err: refusal_text(alloc, refusal)?,
    })
}
