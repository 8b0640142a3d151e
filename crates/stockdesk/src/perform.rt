//! What each task does.

ghost use Rattle.std.specs.Prelude.{◌≡◌, ◌⊎◌, IfErr, OnErr, OnOk};
ghost use Rattle.desk.specs.Streams.{IsSilent, streams};
ghost use Rattle.stockdesk.specs.Done.{Does, DoesInPart, DoesWork, DoesWorkInPart};
ghost use Rattle.stockdesk.specs.Sessions.{IsNoDesk, IsNotOpened, IsUnbegun};

use crate::file::FileKeep;
use crate::machine::Machine;
use crate::session::Fault;
use crate::{file, memory, roll};
use command_line::{RollOver, Task, Work};
use sqlite::Unknown;
use std::io::{Read, Write};

/// Closes the file in which a task was done.
fn close(keep: FileKeep<Unknown>) {
    drop(file::close(keep));
}

/// Makes a new desk in the file at the path, and closes it.
fn init(rt: &HostRuntime, path: &str) -> Result<(), Fault>
    ensures { IfErr result IsNotOpened }
{
    let keep = file::init(rt, path, Unknown)?;
    close(keep);
    Ok(())
}

/// Makes the desk in the file at the path one of the newest version, and closes it.
fn upgrade(rt: &HostRuntime, path: &str) -> Result<(), Fault>
    ensures { IfErr result IsNotOpened }
{
    let (keep, ended) = file::upgrade(rt, path, Unknown)?;
    close(keep);
    ended
}

/// Makes the desk in a new file that goes on in place of another, and closes both files.
fn roll(rt: &HostRuntime, roll_over: &RollOver<'_>) -> Result<(), Fault>
    ensures { IfErr result (λ fault. IsNoDesk fault ⊎ ((fault ≡ Fault.Memory) ⊎ (fault ≡ Fault.Store))) }
{
    let keys = roll_over.last_keys();
    let (keep, made) = roll::roll(rt, roll_over.old, Unknown, roll_over.new, Unknown, keys)?;
    close(keep);
    close(made?);
    Ok(())
}

/// Does the work on the desk in the file at the path, and closes it.
fn work_in<M: Machine, R: Read, W: Write>(
    rt: &HostRuntime,
    machine: &M,
    path: &str,
    work: &Work<'_>,
    reader: &mut R,
    writer: &mut W,
) -> Result<(), Fault>
    ensures whole { OnOk result (DoesWork work.now
        (streams (R.remaining reader.old) (R.remaining reader.new) (W.contents writer.old) (W.contents writer.new))) }
    ensures beginning { OnErr result (DoesWorkInPart work.now
        (streams (R.remaining reader.old) (R.remaining reader.new) (W.contents writer.old) (W.contents writer.new))) }
    ensures untouched { IfErr result (λ fault. IsUnbegun fault → IsSilent
        (streams (R.remaining reader.old) (R.remaining reader.new) (W.contents writer.old) (W.contents writer.new))) }
{
    let (keep, ended) = file::session(rt, machine, path, Unknown, work, reader, writer)?;
    close(keep);
    ended
}

/// Does the task, and closes the file in which it is done.
pub fn perform<M: Machine, R: Read, W: Write>(
    rt: &HostRuntime,
    machine: &M,
    task: &Task<'_>,
    reader: &mut R,
    writer: &mut W,
) -> Result<(), Fault>
    ensures whole { OnOk result (Does task.now
        (streams (R.remaining reader.old) (R.remaining reader.new) (W.contents writer.old) (W.contents writer.new))) }
    ensures beginning { OnErr result (DoesInPart task.now
        (streams (R.remaining reader.old) (R.remaining reader.new) (W.contents writer.old) (W.contents writer.new))) }
    ensures untouched { IfErr result (λ fault. IsUnbegun fault → IsSilent
        (streams (R.remaining reader.old) (R.remaining reader.new) (W.contents writer.old) (W.contents writer.new))) }
    ensures new { task.now ≡ Task.InMemory → IfErr result (λ fault. ¬ IsUnbegun fault) }
{
    match task {
        Task::Init(path) => init(rt, *path),
        Task::Upgrade(path) => upgrade(rt, *path),
        Task::Roll(roll_over) => roll(rt, roll_over),
        Task::InMemory => memory::run(rt, reader, writer),
        Task::InFile(path, work) => work_in(rt, machine, *path, work, reader, writer),
    }
}
