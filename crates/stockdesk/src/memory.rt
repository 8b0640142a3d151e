//! A new desk in memory, which ends with the program.

ghost use Rattle.std.specs.Prelude.{◌≡◌, IfErr, OnErr, OnOk};
ghost use Rattle.ledger.specs.Ledger.{new_ledger};
ghost use Rattle.desk.specs.Streams.{streams};
ghost use Rattle.stockdesk.specs.Runs.{AnswersLines, AnswersText, BeginsText};
ghost use Rattle.stockdesk.specs.Sessions.{IsUnbegun};

use crate::machine::Host;
use crate::new_desk::new_desk;
use crate::session::Fault;
use crate::work::session;
use command_line::Work;
use sqlite::Connection;
use std::io::{Read, Write};

/// Reads to the end, and writes what a new desk answers; each reply line is written before the next line is answered.
/// After a fault, what is written is a beginning of the text for what was read, with the whole answer to all of that
/// but the last piece, which has at most 512 bytes. After a failing read, what is written is the answer to each line
/// that was read whole.
pub fn run<R: Read, W: Write>(rt: &HostRuntime, reader: &mut R, writer: &mut W) -> Result<(), Fault>
    ensures whole { OnOk result (AnswersText new_ledger
        (streams (R.remaining reader.old) (R.remaining reader.new) (W.contents writer.old) (W.contents writer.new))) }
    ensures beginning { OnErr result (BeginsText new_ledger
        (streams (R.remaining reader.old) (R.remaining reader.new) (W.contents writer.old) (W.contents writer.new))) }
    ensures desk { IfErr result (λ fault. ¬ IsUnbegun fault) }
    ensures prompt { IfErr result (λ fault. fault ≡ Fault.Read → AnswersLines new_ledger
        (streams (R.remaining reader.old) (R.remaining reader.new) (W.contents writer.old) (W.contents writer.new))) }
{
    let Ok(conn) = Connection::open_in_memory(rt.alloc()) else {
        return Err(Fault::Memory);
    };
    let keep = match new_desk(conn) {
        Ok(keep) => keep,
        Err((fault, _)) => return Err(fault),
    };
    let (_, ended) = session(rt, &Host, keep, &Work::Script, reader, writer);
    ended
}
