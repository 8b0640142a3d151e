//! The desk, for lines of text on standard input and output, and for HTTP on this machine.
#![tactic(auto)]

ghost use Rattle.std.specs.Prelude.{◌≡◌, ◌≢◌, ◌≤◌, ◌⊎◌, map};
ghost use Rattle.desk.specs.Streams.{IsSilent, streams};
ghost use Rattle.ledger.specs.Ledger.{new_ledger};
ghost use Rattle.clap.specs.Words.{kind_of};
ghost use Rattle.stockdesk.specs.Done.{DoesAsked, DoesAskedInPart};
ghost use Rattle.stockdesk.specs.Runs.{AnswersText, BeginsText};
ghost use Rattle.stockdesk.specs.Sessions.{IsBadFile, IsNoDesk, IsUnbegun};
ghost use Rattle.command_line.specs.Tasks.{AreWordsFor};
ghost use Rattle.command_line.specs.declared.tasks.Task.{Task};

mod at_once;
mod crowd;
mod file;
mod listener;
mod loopback;
mod machine;
mod memory;
mod new_desk;
mod perform;
mod requests;
mod roll;
mod session;
mod sheet;
mod upgrade;
mod work;

use crate::machine::Host;
use crate::perform::perform;
use crate::session::Fault;
use clap::Error as WordsError;
use clap::error::ErrorKind as WordsKind;
use command_line::read_task;
use std::alloc::Global;
use std::env::{self, Env};
use std::io::{self, ErrorKind, Read, Write};
use std::process::ExitCode;
use words::write_whole;

/// Writes the line of a fault to `errors`, and returns the status of the fault.
fn tell_fault<E: Write>(errors: &mut E, fault: Fault) -> u8
    ensures desk { IsNoDesk fault → result ≡ 3 }
    ensures file { IsBadFile fault → result ≡ 4 }
    ensures other { (¬ IsUnbegun fault) → result ≡ 1 }
    ensures only { (result ≡ 1) ⊎ (((result ≡ 3) × IsNoDesk fault) ⊎ ((result ≡ 4) × IsBadFile fault)) }
{
    match fault {
        Fault::NotADesk => tell(errors, b"stockdesk: not a desk\n", 3),
        Fault::OldVersion => tell(errors, b"stockdesk: old version\n", 3),
        Fault::Damaged => tell(errors, b"stockdesk: damaged\n", 3),
        Fault::Memory => tell(errors, b"stockdesk: memory\n", 1),
        Fault::Store => tell(errors, b"stockdesk: store\n", 1),
        Fault::Read | Fault::Write | Fault::Socket => tell(errors, b"stockdesk: io\n", 1),
        Fault::Csv => tell(errors, b"stockdesk: csv\n", 4),
        Fault::BadRecord(number) => {
            let _ = writeln!(errors, "stockdesk: record {number}");
            4
        }
    }
}

/// Writes a line, if that can be done, and returns the status.
fn tell<E: Write>(errors: &mut E, line: &[u8], status: u8) -> u8
    ensures { result ≡ status }
{
    let _ = write_whole(errors, line);
    status
}

/// Does what the words ask for; the first word is the program's name. Returns the status to end with: 0 where all is
/// done, 1 after a fault, 2 for words that ask for nothing, 3 where the file is no desk, is damaged or is of an older
/// version, 4 where a file of requests cannot be read or has a record at fault. For each status but 0, `errors` says
/// why.
pub fn go<'a, R, W, E>(
    rt: &HostRuntime,
    words: &'a [&'a str],
    reader: &mut R,
    writer: &mut W,
    errors: &mut E,
) -> u8
where
    R: Read,
    W: Write,
    E: Write,
    ensures status { result ≤ 4 }
    ensures done { result ≡ 0 → DoesAsked (map (λ s. s.now) words.entry.now)
        (streams (R.remaining reader.old) (R.remaining reader.new) (W.contents writer.old) (W.contents writer.new)) }
    ensures fault { result ≢ 0 → DoesAskedInPart (map (λ s. s.now) words.entry.now)
        (streams (R.remaining reader.old) (R.remaining reader.new) (W.contents writer.old) (W.contents writer.new)) }
    ensures untouched { (result ≡ 2) ⊎ ((result ≡ 3) ⊎ (result ≡ 4)) → IsSilent
        (streams (R.remaining reader.old) (R.remaining reader.new) (W.contents writer.old) (W.contents writer.new)) }
    // words for a task, as they are written out, do ask for something
    ensures words { (task : Task) → AreWordsFor task (map (λ s. s.now) words.entry.now) → result ≢ 2 }
    // the one word `run`: status 0, and the whole input is answered, or status 1, and a beginning of that is written
    ensures plain { AreWordsFor Task.InMemory (map (λ s. s.now) words.entry.now)
        → ((result ≡ 0) × AnswersText new_ledger
        (streams (R.remaining reader.old) (R.remaining reader.new) (W.contents writer.old) (W.contents writer.new)))
        ⊎ ((result ≡ 1) × BeginsText new_ledger
        (streams (R.remaining reader.old) (R.remaining reader.new) (W.contents writer.old) (W.contents writer.new))) }
{
    let task = match read_task(rt.alloc(), words) {
        Ok(Some(task)) => task,
        Ok(None) => return tell(errors, b"stockdesk: usage\n", 2),
        Err(error) => return tell_words(errors, &error),
    };
    match perform(rt, &Host, &task, reader, writer) {
        Ok(()) => 0,
        Err(fault) => tell_fault(errors, fault),
    }
}

/// Writes to `errors` that the words ask for nothing, or that memory for them was refused, and returns the status.
fn tell_words<E: Write>(errors: &mut E, error: &WordsError) -> u8
    ensures memory { kind_of error.now ≡ WordsKind.OutOfMemory → result ≡ 1 }
    ensures words { kind_of error.now ≢ WordsKind.OutOfMemory → result ≡ 2 }
{
    if error.kind() == WordsKind::OutOfMemory {
        return tell(errors, b"stockdesk: memory\n", 1);
    }
    let _ = write!(errors, "{error}");
    2
}

/// Writes to `errors` why the words could not be read, and returns the status: memory was refused, one of them is no
/// UTF-8, or reading failed.
fn unread_words<E: Write>(errors: &mut E, kind: ErrorKind) -> u8
    ensures usage { kind ≡ ErrorKind.InvalidData → result ≡ 2 }
    ensures fault { kind ≢ ErrorKind.InvalidData → result ≡ 1 }
{
    match kind {
        ErrorKind::OutOfMemory => tell(errors, b"stockdesk: memory\n", 1),
        ErrorKind::InvalidData => tell(errors, b"stockdesk: usage\n", 2),
        _ => tell(errors, b"stockdesk: io\n", 1),
    }
}

/// Returns the words that the program is called with.
fn called_with(rt: &HostRuntime) -> io::Result<Vec<String>> {
    Ok(env::args(rt)?.collect::<Vec<String>>(rt.alloc())?)
}

/// Borrows the words as texts.
fn lent(alloc: Global, args: &[String]) -> io::Result<Vec<&str>> {
    Ok(
        args.iter()
            .map(|word| word.as_str())
            .collect::<Vec<&str>>(alloc)?,
    )
}

/// Takes standard input, output and error for `go`.
fn main(rt: HostRuntime) -> ExitCode {
    let mut errors = rt.stderr();
    let args = match called_with(&rt) {
        Ok(args) => args,
        Err(error) => return ExitCode::from(unread_words(&mut errors, error.kind())),
    };
    let words = match lent(rt.alloc(), &args) {
        Ok(words) => words,
        Err(error) => return ExitCode::from(unread_words(&mut errors, error.kind())),
    };
    let (reader, writer) = (&mut rt.stdin(), &mut rt.stdout());
    ExitCode::from(go(&rt, &words, reader, writer, &mut errors))
}
