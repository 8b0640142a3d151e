//! A file of requests, answered by a desk.

ghost use Rattle.std.specs.Prelude.{◌≡◌, ◌⊎◌, Err, IfErr, IfOk, IfSome, List, OnOk};
ghost use Rattle.desk.specs.Desk.{Goes, TellsStop, desk_state};
ghost use Rattle.desk.specs.Streams.{only_written};
ghost use Rattle.stockdesk.specs.Outside.{paths};
ghost use Rattle.stockdesk.specs.Requests.{BlamesFileAt, FileCut, IsFileAt, IsFileFault, IsFileOf, NamesFirstOf, RequestsAnswered};
ghost use Rattle.stockdesk.specs.Sessions.{IsBadFile, IsNoDesk, IsUnbegun};
ghost use Rattle.words.specs.declared.command.Request.{Request};
ghost use Rattle.files.specs.declared.fault.FileFault.{FileFault};

use crate::machine::Machine;
use crate::session::Fault;
use command_line::Kind;
use desk::{Desk, answer_lists};
use files::{FileFault, read_bounds, read_deliveries, read_orders};
use keep::Keep;
use std::alloc::Global;
use std::io::{ErrorKind, Read, Write};
use std::num::NonZeroUsize;
use words::Request;

/// Reads the requests of a file.
fn read<R: Read + Drop>(alloc: Global, kind: Kind, reader: R) -> Result<Vec<Request>, FileFault>
    ensures ok { IfOk result (λ requests. IfSome (R.remaining reader) (λ bytes. IsFileOf kind bytes requests.items)) }
    ensures bad { IfErr result (λ fault. IfSome (R.remaining reader) (λ bytes. NamesFirstOf kind bytes fault)) }
{
    match kind {
        Kind::Orders => read_orders(alloc, reader),
        Kind::Deliveries => read_deliveries(alloc, reader),
        Kind::Bounds => read_bounds(alloc, reader),
    }
}

impl From<FileFault> for Fault {
    ghost use Rattle.std.specs.Prelude.{◌≡◌, ◌⊎◌};
    ghost use Rattle.stockdesk.specs.Requests.{IsFileFault};
    ghost use Rattle.stockdesk.specs.Sessions.{IsBadFile};
    ghost use Rattle.stockdesk.specs.declared.session.Fault.{Fault};

    ghost from_gives = { λ cause fault. IsFileFault cause fault × ((fault ≡ Fault.Memory) ⊎ IsBadFile fault) };

    fn from(cause: FileFault) -> Fault {
        match cause {
            FileFault::BadRecord(number) => Fault::BadRecord(number),
            FileFault::Memory => Fault::Memory,
            FileFault::Io => Fault::Csv,
        }
    }
}

/// Returns the fault of the program that an error of opening the file becomes.
fn csv_fault(kind: ErrorKind) -> Fault
    ensures { (result ≡ Fault.Memory) ⊎ (result ≡ Fault.Csv) }
{
    match kind {
        ErrorKind::OutOfMemory => Fault::Memory,
        _ => Fault::Csv,
    }
}

/// Answers requests on a desk, one after the other, or in batches of at most so many as `together` says.
fn answer_requests<K: Keep, W: Write>(
    alloc: Global,
    desk: &mut Desk<K>,
    requests: &[Request],
    together: Option<NonZeroUsize>,
    writer: &mut W,
) -> Result<(), Fault>
    ensures whole { OnOk result (RequestsAnswered requests.now desk.old.ledger desk.new.ledger
        (only_written (W.contents writer.old) (W.contents writer.new))) }
    ensures cut { IfErr result (λ fault. FileCut (λ answered. answered ≡ requests.now) together fault
        (desk_state K.Keep desk.old) (desk_state K.Keep desk.new)
        (only_written (W.contents writer.old) (W.contents writer.new))) }
    ensures begun { IfErr result (λ fault. ¬ IsUnbegun fault) }
    ensures stop { TellsStop (result ≡ Err Fault.Store) (desk_state K.Keep desk.old) (desk_state K.Keep desk.new) }
    ensures goes { Goes K.Keep desk.old desk.new }
{
    Ok(answer_lists(alloc, requests, together, writer, desk)?)
}

/// Answers the requests of a file on a desk. The whole file is read before the first request is called.
fn answer_from<K: Keep, R: Read + Drop, W: Write>(
    alloc: Global,
    desk: &mut Desk<K>,
    kind: Kind,
    reader: R,
    together: Option<NonZeroUsize>,
    writer: &mut W,
) -> Result<(), Fault>
    ensures whole { OnOk result ((requests : List Request) × IfSome (R.remaining reader)
        (λ bytes. IsFileOf kind bytes requests) × RequestsAnswered requests desk.old.ledger desk.new.ledger
        (only_written (W.contents writer.old) (W.contents writer.new))) }
    ensures unread { IfErr result (λ fault. IsBadFile fault → IfSome (R.remaining reader)
        (λ bytes. (cause : FileFault) × IsFileFault cause fault × NamesFirstOf kind bytes cause)) }
    ensures cut { IfErr result (λ fault. FileCut (λ requests. IfSome (R.remaining reader)
        (λ bytes. IsFileOf kind bytes requests)) together fault (desk_state K.Keep desk.old)
        (desk_state K.Keep desk.new) (only_written (W.contents writer.old) (W.contents writer.new))) }
    ensures desk { IfErr result (λ fault. ¬ IsNoDesk fault) }
    ensures stop { TellsStop (result ≡ Err Fault.Store) (desk_state K.Keep desk.old) (desk_state K.Keep desk.new) }
    ensures goes { Goes K.Keep desk.old desk.new }
{
    // does nothing when run; the prover learns that the desk is in order
    desk.is_stopped();
    let requests = read(alloc, kind, reader)?;
    answer_requests(alloc, desk, &requests, together, writer)
}

/// Reads the file of requests that opens at the path, and then answers its requests on a desk, in their order. Each
/// reply line is written before the next request is called; with `together`, the lines of a batch of at most so many
/// are written before the next batch is begun. `Csv` says that the file cannot be read, `BadRecord` which record is
/// at fault; then nothing is done, and nothing written.
pub fn answer_file<K: Keep, M: Machine, W: Write>(
    rt: &HostRuntime,
    machine: &M,
    desk: &mut Desk<K>,
    kind: Kind,
    path: &str,
    together: Option<NonZeroUsize>,
    writer: &mut W,
) -> Result<(), Fault>
    ensures whole { OnOk result ((requests : List Request)
        × IsFileAt (paths (M.opens machine.now) M.Csv.remaining) kind path.now requests
        × RequestsAnswered requests desk.old.ledger desk.new.ledger
        (only_written (W.contents writer.old) (W.contents writer.new))) }
    ensures cut { IfErr result (λ fault. FileCut
        (IsFileAt (paths (M.opens machine.now) M.Csv.remaining) kind path.now) together fault
        (desk_state K.Keep desk.old) (desk_state K.Keep desk.new)
        (only_written (W.contents writer.old) (W.contents writer.new))) }
    ensures unread { IfErr result
        (BlamesFileAt (paths (M.opens machine.now) M.Csv.remaining) kind path.now) }
    ensures desk { IfErr result (λ fault. ¬ IsNoDesk fault) }
    ensures stop { TellsStop (result ≡ Err Fault.Store) (desk_state K.Keep desk.old) (desk_state K.Keep desk.new) }
    ensures goes { Goes K.Keep desk.old desk.new }
{
    // does nothing when run; the prover learns that the desk is in order
    desk.is_stopped();
    match machine.open_csv(rt, path) {
        Ok(reader) => answer_from(rt.alloc(), desk, kind, reader, together, writer),
        Err(error) => Err(csv_fault(error.kind())),
    }
}
