//! A desk, served to connections on this machine.

ghost use Rattle.std.specs.Prelude.{◌≡◌, ◌≤◌, ◌⊎◌, false, Err, IfErr, IfOk, List, length, Ok, OnErr, OnOk, ℕ};
ghost use Rattle.desk.specs.Desk.{Goes, TellsStop, desk_state, snapshot};
ghost use Rattle.desk.specs.Streams.{Streams};
ghost use Rattle.stockdesk.specs.Connections.{AreServed, IsLeft, Listens, Pass, PortCut, TellsPort, listening_line};
ghost use Rattle.stockdesk.specs.Outside.{listening};

use crate::listener::Listen;
use crate::machine::Machine;
use crate::session::Fault;
use desk::Desk;
use itoa::Buffer;
use keep::Keep;
use std::alloc::{AllocError, Global};
use std::io::{self, ErrorKind, Write};
use words::write_whole;

/// Serves so many connections on a desk that is not stopped, one after the other as they come, and closes each after
/// its answers. A fault of a connection ends only that connection. After an error, all connections that came out of the
/// listener are served: `Socket` says that no further connection could be had, `Store` that the last one stopped the
/// desk.
pub fn serve_all<K: Keep, L: Listen>(
    alloc: Global,
    desk: &mut Desk<K>,
    listener: &mut L,
    connections: u32,
) -> Result<(), Fault>
    requires going { K.stopped desk.old.keep ≡ false }
    ensures whole { OnOk result ((streams : List Streams) × (length streams ≡ connections)
        × AreServed (desk_state K.Keep desk.new) (snapshot (desk_state K.Keep desk.old)) streams
        (snapshot (desk_state K.Keep desk.new))
        × Pass (listening L.Listen L.Reader.Read L.Writer.Write) listener.old streams listener.new) }
    ensures cut { OnErr result ((streams : List Streams) × (length streams ≤ connections)
        × AreServed (desk_state K.Keep desk.new) (snapshot (desk_state K.Keep desk.old)) streams
        (snapshot (desk_state K.Keep desk.new)) × (last : L)
        × Pass (listening L.Listen L.Reader.Read L.Writer.Write) listener.old streams last
        × IsLeft (listening L.Listen L.Reader.Read L.Writer.Write) last listener.new) }
    ensures fault { IfErr result (λ fault. (fault ≡ Fault.Socket) ⊎ (fault ≡ Fault.Store)) }
    ensures stop { TellsStop (result ≡ Err Fault.Store) (desk_state K.Keep desk.old) (desk_state K.Keep desk.new) }
    ensures goes { Goes K.Keep desk.old desk.new }
{
    // does nothing when run; the prover learns that the desk is in order
    desk.is_stopped();
    for _turn in 0..connections {
        let Ok(connection) = listener.next_connection() else {
            return Err(Fault::Socket);
        };
        let (mut reader, mut writer) = connection;
        let _ = web::serve(alloc, &mut reader, &mut writer, desk);
        listener.close(reader, writer);
        if desk.is_stopped() {
            return Err(Fault::Store);
        }
    }
    Ok(())
}

/// Returns the text line that tells the port.
fn port_line(alloc: Global, port: u16) -> Result<Vec<u8>, AllocError>
    ensures { IfOk result (λ line. line.items ≡ listening_line port) }
{
    let mut buffer = Buffer::new();
    let mut line = Vec::from_slice(alloc, b"listening ")?;
    line.extend_from_slice(buffer.format(port).as_bytes())?;
    line.extend_from_slice(b"\n")?;
    Ok(line)
}

/// Writes the text line that tells the port.
fn tell_port<W: Write>(alloc: Global, port: u16, writer: &mut W) -> Result<(), Fault>
    ensures whole { OnOk result (TellsPort port (W.contents writer.old) (W.contents writer.new)) }
    ensures beginning { OnErr result (PortCut (W.contents writer.old) (W.contents writer.new)) }
    ensures fault { IfErr result (λ fault. (fault ≡ Fault.Memory) ⊎ (fault ≡ Fault.Write)) }
{
    let Ok(line) = port_line(alloc, port) else {
        return Err(Fault::Memory);
    };
    match write_whole(writer, &line) {
        Ok(()) => Ok(()),
        Err(_) => Err(Fault::Write),
    }
}

/// Writes the port that a listener got, and returns the listener.
pub fn tell_listener<L: Drop, W: Write>(
    alloc: Global,
    had: io::Result<(L, u16)>,
    writer: &mut W,
) -> Result<L, Fault>
    ensures whole { IfOk result (λ listener. (port : ℕ) × (had ≡ Ok (listener, port))
        × TellsPort port (W.contents writer.old) (W.contents writer.new)) }
    ensures beginning { OnErr result (PortCut (W.contents writer.old) (W.contents writer.new)) }
    ensures fault { IfErr result (λ fault. (fault ≡ Fault.Socket) ⊎ ((fault ≡ Fault.Memory) ⊎ (fault ≡ Fault.Write))) }
{
    let (listener, port) = match had {
        Ok(had) => had,
        Err(error) if error.kind() == ErrorKind::OutOfMemory => return Err(Fault::Memory),
        Err(_) => return Err(Fault::Socket),
    };
    match tell_port(alloc, port, writer) {
        Ok(()) => Ok(listener),
        Err(fault) => Err(fault),
    }
}

/// Listens at a port of the machine, and writes the port that it got.
pub fn listen_at<M: Machine, W: Write>(
    rt: &HostRuntime,
    machine: &M,
    port: u16,
    writer: &mut W,
) -> Result<M::Listener, Fault>
    ensures whole { IfOk result (Listens (M.listens machine.now) port (W.contents writer.old)
        (W.contents writer.new)) }
    ensures beginning { OnErr result (PortCut (W.contents writer.old) (W.contents writer.new)) }
    ensures fault { IfErr result (λ fault. (fault ≡ Fault.Socket) ⊎ ((fault ≡ Fault.Memory) ⊎ (fault ≡ Fault.Write))) }
{
    tell_listener(rt.alloc(), machine.listen(rt, port), writer)
}
