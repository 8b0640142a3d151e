//! Files of bounds.

ghost use Rattle.std.specs.Prelude.{IfErr, IfNone, IfOk, IfSome};
ghost use Rattle.csv.specs.Records.{fields_of};
ghost use Rattle.files.specs.Bounds.{IsRebound, SayBounds, bounds_header};
ghost use Rattle.files.specs.Files.{IsFile, NamesFirst, under_key};
ghost use Rattle.words.specs.declared.command.Request.{Request};

use crate::fault::FileFault;
use crate::record::five_fields;
use crate::single::{Single, read_singles};
use crate::word::read_level;
use csv::ByteRecord;
use escrow::{Article, Branch, Key};
use std::alloc::Global;
use std::io::Read;
use words::{Command, Request};

/// Returns the command that a record says, which gives a field other bounds, and its key.
fn rebound_of(row: &ByteRecord) -> Option<(Key, Command)>
    ensures some { IfSome result (λ r. IsRebound (fields_of row.now) (under_key r.0 r.1)) }
    ensures none { IfNone result ((request : Request) → IsRebound (fields_of row.now) request → ⊥) }
{
    let (key, branch, article, lo, hi) = five_fields(row)?;
    let key = Key::read(key).ok()?;
    let branch = Branch::read(branch).ok()?;
    let article = Article::read(article).ok()?;
    let lo = read_level(lo)?;
    let hi = read_level(hi)?;
    let command = Command::Rebound {
        branch,
        article,
        lo,
        hi,
    };
    Some((key, command))
}

/// The kind of a file of bounds.
#[derive(Drop)]
struct Bounds;

impl Single for Bounds {
    ghost use Rattle.files.specs.Bounds.{IsRebound, bounds_header};

    ghost header = { bounds_header };

    ghost says = { IsRebound };

    fn is_header(row: &ByteRecord) -> bool {
        match five_fields(row) {
            Some((key, branch, article, lo, hi)) => {
                key == b"key".as_slice()
                    && branch == b"branch".as_slice()
                    && article == b"article".as_slice()
                    && lo == b"lo".as_slice()
                    && hi == b"hi".as_slice()
            }
            None => false,
        }
    }

    fn command_of(row: &ByteRecord) -> Option<(Key, Command)> {
        rebound_of(row)
    }
}

/// Reads a file of bounds, and returns the other bounds that it gives to fields, each under its key. The first record
/// must be exactly `key,branch,article,lo,hi`, and each further one a `rebound` in the spelling of commands.
/// `BadRecord` names the first record at fault: 0 is the header, also where it is missing, and the records after it
/// count from 1. Records are those of the crate `csv`: a blank line is no record, and no value is trimmed.
pub fn read_bounds<R: Read + Drop>(alloc: Global, reader: R) -> Result<Vec<Request>, FileFault>
    ensures ok { IfOk result (λ requests. IfSome (R.remaining reader) (λ bytes.
        IsFile bounds_header SayBounds bytes requests.items)) }
    ensures bad { IfErr result (λ fault. IfSome (R.remaining reader) (λ bytes.
        NamesFirst bounds_header SayBounds bytes fault)) }
{
    read_singles(alloc, reader, Bounds)
}
