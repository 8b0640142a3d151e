//! A desk, served to many connections at once.

ghost use Rattle.std.specs.Prelude.{◌≡◌, ◌≤◌, ◌⊎◌, false, true, Err, IfErr, IfNone, IfOk, IfSome, None, OnErr, OnOk};
ghost use Rattle.std.specs.Int.NonZero.{non_zero_usize_get};
ghost use Rattle.rounds.specs.Services.{HasServedEnough};
ghost use Rattle.stockdesk.specs.Connections.{IsCrowdFault, Listens, ManyCut, Meets, PortCut, ServesMany};
ghost use Rattle.stockdesk.specs.Outside.{gathering, outside};
ghost use Rattle.stockdesk.specs.Work.{Ends};

use crate::loopback::tell_listener;
use crate::machine::Machine;
use crate::session::Fault;
use command_line::{AtOnce, Service};
use desk::Desk;
use keep::Keep;
use rounds::{Crowd, ServiceFault, Terms, serve_rounds};
use std::io::Write;
use web::HttpDialogue;

/// Returns how the end of a service is reported: as a fault of the store where the keeper is stopped, and else as want
/// of memory where the desk is stopped.
fn told_as(ended: Result<(), ServiceFault>, desk_stops: bool, keep_stops: bool) -> Result<(), Fault>
    ensures whole { OnOk result (OnErr ended ⊥) }
    ensures cut { OnErr result (OnOk ended ⊥) }
    ensures fault { IfErr result IsCrowdFault }
    ensures store { result ≡ Err Fault.Store → keep_stops ≡ true }
    ensures going { OnErr result (keep_stops ≡ true → result ≡ Err Fault.Store) }
{
    match ended {
        Ok(()) => Ok(()),
        Err(_) if keep_stops => Err(Fault::Store),
        Err(ServiceFault::Crowd) if !desk_stops => Err(Fault::Socket),
        Err(_) => Err(Fault::Memory),
    }
}

/// Serves a crowd in rounds, on a desk of which the keeper comes back.
fn serve_crowd<K: Keep, C: Crowd + Drop>(
    rt: &HostRuntime,
    desk: Desk<K>,
    crowd: C,
    terms: &Terms,
) -> (K, Result<(), Fault>)
    requires going { K.stopped desk.keep ≡ false }
    requires clients { 1 ≤ terms.now.clients }
    ensures { Ends K.Keep result desk
        (λ old new. Meets (gathering C.Crowd C.Stream.Stream) crowd (λ count loss.
        HasServedEnough terms.now.connections terms.now.places count old.ledger new.ledger × (loss ≡ None)) old new)
        (λ fault old new. IsCrowdFault fault
        × Meets (gathering C.Crowd C.Stream.Stream) crowd
        (λ count loss. count ≤ terms.now.connections) old new) }
{
    let mut desk = desk.defer(rt.alloc());
    let (crowd, ended) = serve_rounds::<HttpDialogue, C, K>(rt, &mut desk, crowd, terms);
    drop(crowd);
    // does nothing when run; the prover learns that the desk is in order
    desk.is_kept();
    let desk_stops = desk.is_stopped();
    let keep = desk.into_keep().into_inner();
    let ended = told_as(ended, desk_stops, keep.is_stopped());
    (keep, ended)
}

/// Listens for many connections at once at a port of the machine, and writes the port that it got.
fn gather_at<M: Machine, W: Write>(
    rt: &HostRuntime,
    machine: &M,
    port: u16,
    writer: &mut W,
) -> Result<M::Crowd, Fault>
    ensures whole { IfOk result (Listens (M.gathers machine.now) port (W.contents writer.old)
        (W.contents writer.new)) }
    ensures beginning { OnErr result (PortCut (W.contents writer.old) (W.contents writer.new)) }
    ensures fault { IfErr result (λ fault. (fault ≡ Fault.Socket) ⊎ ((fault ≡ Fault.Memory) ⊎ (fault ≡ Fault.Write))) }
{
    tell_listener(rt.alloc(), machine.gather(rt, port), writer)
}

/// Serves as many connections as the service says, many at once, in rounds, on a desk of which the keeper comes back.
/// Where the words say with how many places it ends, it ends once so many are taken or set aside, unless as many were at
/// the beginning. What a round changes is kept together, and only then are its answers written. `Socket` says that the port could
/// not be had, or what tells which connections can be read and written. `Store` says that a round could not be kept,
/// which stops the desk. `Memory` says that memory was refused for all connections at once; where it is refused for
/// one connection, only that connection ends.
pub fn serve_at_once<K: Keep, M: Machine, W: Write>(
    rt: &HostRuntime,
    machine: &M,
    desk: Desk<K>,
    service: &Service,
    at_once: &AtOnce,
    writer: &mut W,
) -> (K, Result<(), Fault>)
    requires going { K.stopped desk.keep ≡ false }
    ensures { Ends K.Keep result desk
        (λ old new. ServesMany (outside (M.opens machine.now) (M.listens machine.now) (M.gathers machine.now) M.Csv.Read M.Listener.Listen
        M.Listener.Reader.Read M.Listener.Writer.Write M.Crowd.Crowd M.Crowd.Stream.Stream) service.now
        (λ count loss. HasServedEnough service.now.connections at_once.now.places count old.ledger new.ledger
        × (loss ≡ None)) old new
        (W.contents writer.old) (W.contents writer.new))
        (λ fault old new. ManyCut (outside (M.opens machine.now) (M.listens machine.now) (M.gathers machine.now) M.Csv.Read M.Listener.Listen
        M.Listener.Reader.Read M.Listener.Writer.Write M.Crowd.Crowd M.Crowd.Stream.Stream) service.now fault old new
        (W.contents writer.old) (W.contents writer.new)) }
{
    // does nothing when run; the prover learns that the desk is in order
    desk.is_stopped();
    let crowd = match gather_at(rt, machine, service.port, writer) {
        Ok(crowd) => crowd,
        Err(fault) => return (desk.into_keep(), Err(fault)),
    };
    let terms = Terms {
        connections: service.connections as usize,
        clients: at_once.most_clients(),
        together: at_once.together.get(),
        places: at_once.places,
    };
    serve_crowd(rt, desk, crowd, &terms)
}
