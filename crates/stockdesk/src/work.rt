//! A session: work that is done on the desk that a keeper holds.

ghost use Rattle.std.specs.Prelude.{◌≡◌, ◌⊎◌, ◌∷◌, [], false, Err, IfErr, IsTrue, OnOk};
ghost use Rattle.ledger.specs.Good.{Good};
ghost use Rattle.ledger.specs.Ledger.{Ledger};
ghost use Rattle.ledger.specs.Rows.{Content, IsRowsOf};
ghost use Rattle.desk.specs.Desk.{Goes, TellsStop, desk_state};
ghost use Rattle.desk.specs.Streams.{streams};
ghost use Rattle.stockdesk.specs.Outside.{outside};
ghost use Rattle.stockdesk.specs.Sessions.{IsNoDesk, session_on};
ghost use Rattle.stockdesk.specs.Work.{Ends, GoesOnFrom, IsOnOneDesk, WorkCut, WorkDone, WorkInPart, WorkWhole};

use crate::at_once::serve_at_once;
use crate::loopback::{listen_at, serve_all};
use crate::machine::Machine;
use crate::requests::answer_file;
use crate::session::Fault;
use crate::sheet::write_sheet;
use command_line::Work;
use desk::{Desk, script};
use keep::Keep;
use std::io::{Read, Write};

/// Does work on a desk that the caller lends for it. Its calls of `is_stopped` do nothing when run; the prover learns
/// that the desk is in order.
fn work_on_one<K: Keep, M: Machine, R: Read, W: Write>(
    rt: &HostRuntime,
    machine: &M,
    desk: &mut Desk<K>,
    work: &Work<'_>,
    reader: &mut R,
    writer: &mut W,
) -> Result<(), Fault>
    requires going { K.stopped desk.old.keep ≡ false }
    requires one { IsOnOneDesk work.now }
    ensures whole { OnOk result (WorkDone (outside (M.opens machine.now) (M.listens machine.now) (M.gathers machine.now) M.Csv.Read M.Listener.Listen
        M.Listener.Reader.Read M.Listener.Writer.Write M.Crowd.Crowd M.Crowd.Stream.Stream) work.now (desk_state K.Keep desk.old) (desk_state K.Keep desk.new)
        (streams (R.remaining reader.old) (R.remaining reader.new) (W.contents writer.old) (W.contents writer.new))) }
    ensures cut { IfErr result (λ fault. WorkCut (outside (M.opens machine.now) (M.listens machine.now) (M.gathers machine.now) M.Csv.Read M.Listener.Listen
        M.Listener.Reader.Read M.Listener.Writer.Write M.Crowd.Crowd M.Crowd.Stream.Stream) work.now fault (desk_state K.Keep desk.old) (desk_state K.Keep desk.new)
        (streams (R.remaining reader.old) (R.remaining reader.new) (W.contents writer.old) (W.contents writer.new))) }
    ensures desk { IfErr result (λ fault. ¬ IsNoDesk fault) }
    ensures stop { TellsStop (result ≡ Err Fault.Store) (desk_state K.Keep desk.old) (desk_state K.Keep desk.new) }
    ensures goes { Goes K.Keep desk.old desk.new }
{
    match work {
        Work::Script => Ok(script(rt.alloc(), reader, writer, desk)?),
        Work::Requests(kind, path, together) => {
            answer_file(rt, machine, desk, *kind, *path, *together, writer)
        }
        Work::Sheet(of) => {
            desk.is_stopped();
            write_sheet(rt.alloc(), desk.book(), of, writer)
        }
        Work::ServeAtOnce(_, _) => unreachable!(),
        Work::Serve(service) => {
            desk.is_stopped();
            match listen_at(rt, machine, service.port, writer) {
                Ok(mut listener) => serve_all(rt.alloc(), desk, &mut listener, service.connections),
                Err(fault) => Err(fault),
            }
        }
    }
}

/// Does the work on a desk, of which the keeper comes back.
fn work_on<K: Keep, M: Machine, R: Read, W: Write>(
    rt: &HostRuntime,
    machine: &M,
    desk: Desk<K>,
    work: &Work<'_>,
    reader: &mut R,
    writer: &mut W,
) -> (K, Result<(), Fault>)
    requires going { K.stopped desk.keep ≡ false }
    ensures { Ends K.Keep result desk
        (λ old new. WorkDone (outside (M.opens machine.now) (M.listens machine.now) (M.gathers machine.now) M.Csv.Read M.Listener.Listen
        M.Listener.Reader.Read M.Listener.Writer.Write M.Crowd.Crowd M.Crowd.Stream.Stream) work.now old new
        (streams (R.remaining reader.old) (R.remaining reader.new) (W.contents writer.old) (W.contents writer.new)))
        (λ fault old new. WorkCut (outside (M.opens machine.now) (M.listens machine.now) (M.gathers machine.now) M.Csv.Read M.Listener.Listen
        M.Listener.Reader.Read M.Listener.Writer.Write M.Crowd.Crowd M.Crowd.Stream.Stream) work.now fault old new
        (streams (R.remaining reader.old) (R.remaining reader.new) (W.contents writer.old) (W.contents writer.new))) }
{
    if let Work::ServeAtOnce(service, at_once) = work {
        return serve_at_once(rt, machine, desk, service, at_once, writer);
    }
    let mut desk = desk;
    let ended = work_on_one(rt, machine, &mut desk, work, reader, writer);
    (desk.into_keep(), ended)
}

/// Opens the desk that a keeper holds, and does the work on it. The keeper comes back as the session leaves it.
///
/// After `Ok` the work is done, from the desk's ledger on, and a stop of the program leaves the rows of the ledger
/// after it. After a fault, a beginning of what was to be written is written, and a stop of the program leaves the rows
/// of the ledger after the answers; or, where the store failed, those rows, or the rows after one request more or as
/// many as are carried out together. Where no desk was opened, nothing is read or written, the keeper holds what it
/// held, and nothing is added to what a stop may leave. What is said about rows and stops holds while the disk is
/// honest. A keeper that was stopped comes back as it was.
pub fn session<K: Keep, M: Machine, R: Read, W: Write>(
    rt: &HostRuntime,
    machine: &M,
    keep: K,
    work: &Work<'_>,
    reader: &mut R,
    writer: &mut W,
) -> (K, Result<(), Fault>)
    ensures whole { OnOk result.1 (WorkWhole (outside (M.opens machine.now) (M.listens machine.now) (M.gathers machine.now) M.Csv.Read M.Listener.Listen
        M.Listener.Reader.Read M.Listener.Writer.Write M.Crowd.Crowd M.Crowd.Stream.Stream) (session_on K.Keep keep result.0) work.now
        (streams (R.remaining reader.old) (R.remaining reader.new) (W.contents writer.old) (W.contents writer.new))) }
    ensures cut { IfErr result.1 (λ fault. WorkInPart (outside (M.opens machine.now) (M.listens machine.now) (M.gathers machine.now) M.Csv.Read M.Listener.Listen
        M.Listener.Reader.Read M.Listener.Writer.Write M.Crowd.Crowd M.Crowd.Stream.Stream) (session_on K.Keep keep result.0) work.now fault
        (streams (R.remaining reader.old) (R.remaining reader.new) (W.contents writer.old) (W.contents writer.new))) }
    // where what is held is of an older version, the answer is that, or want of memory, or a fault of the store
    ensures old { K.is_honest result.0 → K.stopped keep ≡ false → K.is_old keep → (result.1 ≡ Err Fault.OldVersion)
        ⊎ ((result.1 ≡ Err Fault.Memory) ⊎ (result.1 ≡ Err Fault.Store)) }
    ensures refused { IsTrue (K.stopped keep) → result ≡ (keep, Err Fault.Store) }
    ensures honest { K.is_honest result.0 → K.is_honest keep }
    // the next session goes on from what a stop leaves
    ensures goes_on { K.is_honest result.0 → (A : Ledger) (x : Content) → Good A → IsRowsOf A x → K.holds keep x
        → K.leaves keep (x ∷ []) → GoesOnFrom (session_on K.Keep keep result.0) work.now result.1 A
        (streams (R.remaining reader.old) (R.remaining reader.new) (W.contents writer.old) (W.contents writer.new)) }
{
    let desk = match Desk::open(rt.alloc(), keep) {
        Ok(desk) => desk,
        Err((fault, keep)) => return (keep, Err(Fault::from(fault))),
    };
    work_on(rt, machine, desk, work, reader, writer)
}
