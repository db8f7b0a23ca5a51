//! Writing what is due: out first, and then err.

ghost use Rattle.std.specs.Prelude.{◌⊎◌, OnOk, OnErr};
ghost use Rattle.std.specs.Io.KnownBytes.{Appends};
ghost use Rattle.outside_io.specs.Causes.{HasCause, Rose};
ghost use Rattle.outside_io.specs.Whole.{GavePrefix};
ghost use Rattle.report_text.specs.Gaps.{left};
ghost use Rattle.wassail_top.specs.Outcome.{GaveAll, GaveFront};
ghost use Rattle.wassail_top.specs.Reply.{reply_answer};

use crate::due::Reply;
use outside_io::{Failed, Sink, write_all};
use report_text::{Rest, Spaced};

/// How many bytes of a text with gaps are written in one call.
const PIECE: usize = 65536;

/// Gives a sink what is left of a text, piece by piece.
fn write_rest<O: Sink>(out: &mut O, rest: Rest) -> Result<(), Failed>
    ensures ok { OnOk result (Appends (O.held out.old) (O.held out.new) (left rest.entry)) }
    ensures failed { OnErr result (GavePrefix (O.held out.old) (O.held out.new) (left rest.entry)) }
    ensures cause { HasCause (O.faults out.old) (O.faults out.new) result }
{
    let mut piece = [0u8; PIECE];
    let mut rest = rest;
    loop {
        let count = rest.fill(&mut piece);
        if count == 0 {
            return Ok(());
        }
        write_all(out, &piece[..count])?;
    }
}

/// Gives a sink a text. It takes no memory.
fn write_text<O: Sink>(out: &mut O, text: &Spaced) -> Result<(), Failed>
    ensures ok { OnOk result (Appends (O.held out.old) (O.held out.new) text.now) }
    ensures failed { OnErr result (GavePrefix (O.held out.old) (O.held out.new) text.now) }
    ensures cause { HasCause (O.faults out.old) (O.faults out.new) result }
{
    let mut rest = text.rest();
    write_all(out, rest.take_text())?;
    if rest.is_over() {
        return Ok(());
    }
    write_rest(out, rest)?;
    Ok(())
}

/// Gives out and err what is due to them. `Failed` comes only where one of their counts of faults rose; fronts were
/// given then, and err got nothing unless out got all. It takes no memory.
pub fn deliver<O: Sink, E: Sink>(out: &mut O, err: &mut E, reply: &Reply) -> Result<(), Failed>
    ensures all { OnOk result (GaveAll (O.held out.old) (O.held out.new) (E.held err.old) (E.held err.new) (reply_answer reply.now)) }
    ensures front { OnErr result (GaveFront (O.held out.old) (O.held out.new) (E.held err.old) (E.held err.new) (reply_answer reply.now)) }
    ensures cause { OnErr result (Rose (O.faults out.old) (O.faults out.new) ⊎ Rose (E.faults err.old) (E.faults err.new)) }
{
    let Ok(()) = write_text(out, &reply.out) else {
        return Err(Failed);
    };
    write_all(err, &reply.err)
}
