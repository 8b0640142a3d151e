//! Files in which each record after the header is one request.

ghost use Rattle.std.specs.Prelude.{◌≡◌, ◌↔◌, IfErr, IfNone, IfOk, IfSome, IsTrue};
ghost use Rattle.std.specs.List.{AllZip};
ghost use Rattle.csv.specs.Records.{fields_of};
ghost use Rattle.files.specs.Files.{IsFile, NamesFirst, Record, under_key};
ghost use Rattle.words.specs.declared.command.Request.{Request};

use crate::fault::FileFault;
use crate::intake::{Intake, read_file};
use csv::ByteRecord;
use escrow::Key;
use std::alloc::Global;
use std::io::Read;
use words::{Command, Memory, Request, SpelledCommand};

/// A kind of file in which each record after the header is one request.
pub trait Single: Sized + Drop {
    /// The header.
    ghost header: { Record };

    /// The record says the request.
    ghost says: { Record → Request → Type 0 };

    /// Returns whether the record is the header.
    fn is_header(row: &ByteRecord) -> bool
        ensures { IsTrue result ↔ (fields_of row.now ≡ header) };

    /// Returns the key and the command of the request that a record says.
    fn command_of(row: &ByteRecord) -> Option<(Key, Command)>
        ensures some { IfSome result (λ r. says (fields_of row.now) (under_key r.0 r.1)) }
        ensures none { IfNone result ((request : Request) → says (fields_of row.now) request → ⊥) };
}

/// The requests that a file of that kind has given so far.
#[derive(Drop)]
struct Singles<S: Single> {
    kind: S,
    requests: Vec<Request>,
}

impl<S: Single> Intake for Singles<S> {
    ghost use Rattle.std.specs.List.{AllZip};

    ghost header = { S.header };

    ghost says = { AllZip S.says };

    ghost took = { λ s rows. AllZip S.says rows s.requests.items };

    fn is_header(row: &ByteRecord) -> bool {
        S::is_header(row)
    }

    fn take(&mut self, row: &ByteRecord) -> Result<bool, Memory> {
        let Some(said) = S::command_of(row) else {
            return Ok(false);
        };
        let alloc = *self.requests.allocator();
        let command = SpelledCommand::of(alloc, said.1)?;
        let request = Request {
            key: said.0,
            command,
        };
        match self.requests.push(request) {
            Ok(()) => Ok(true),
            Err(_) => Err(Memory),
        }
    }
}

/// Reads a file of that kind, and returns its requests, or the first record at fault.
pub fn read_singles<S: Single, R: Read + Drop>(
    alloc: Global,
    reader: R,
    kind: S,
) -> Result<Vec<Request>, FileFault>
    ensures ok { IfOk result (λ requests. IfSome (R.remaining reader) (λ bytes. IsFile S.header
        (AllZip S.says) bytes requests.items)) }
    ensures bad { IfErr result (λ fault. IfSome (R.remaining reader) (λ bytes. NamesFirst S.header
        (AllZip S.says) bytes fault)) }
{
    let none = Singles {
        kind,
        requests: Vec::new(alloc),
    };
    match read_file(alloc, reader, none) {
        Ok(taken) => Ok(taken.requests),
        Err(fault) => Err(fault),
    }
}
