//! Delivery files.

ghost use Rattle.std.specs.Prelude.{IfErr, IfNone, IfOk, IfSome};
ghost use Rattle.csv.specs.Records.{fields_of};
ghost use Rattle.files.specs.Deliveries.{IsDelivery, SayDeliveries, delivery_header};
ghost use Rattle.files.specs.Files.{IsFile, NamesFirst, under_key};
ghost use Rattle.words.specs.declared.command.Request.{Request};

use crate::fault::FileFault;
use crate::record::four_fields;
use crate::single::{Single, read_singles};
use crate::word::read_qty;
use csv::ByteRecord;
use escrow::{Article, Branch, Key};
use std::alloc::Global;
use std::io::Read;
use words::{Command, Request};

/// Returns the delivery that a record says, and its key.
fn delivery_of(row: &ByteRecord) -> Option<(Key, Command)>
    ensures some { IfSome result (λ r. IsDelivery (fields_of row.now) (under_key r.0 r.1)) }
    ensures none { IfNone result ((request : Request) → IsDelivery (fields_of row.now) request → ⊥) }
{
    let (key, branch, article, qty) = four_fields(row)?;
    let key = Key::read(key).ok()?;
    let branch = Branch::read(branch).ok()?;
    let article = Article::read(article).ok()?;
    let qty = read_qty(qty)?;
    let command = Command::Deliver {
        branch,
        article,
        qty,
    };
    Some((key, command))
}

/// The kind of a delivery file.
#[derive(Drop)]
struct Deliveries;

impl Single for Deliveries {
    ghost use Rattle.files.specs.Deliveries.{IsDelivery, delivery_header};

    ghost header = { delivery_header };

    ghost says = { IsDelivery };

    fn is_header(row: &ByteRecord) -> bool {
        match four_fields(row) {
            Some((key, branch, article, qty)) => {
                key == b"key".as_slice()
                    && branch == b"branch".as_slice()
                    && article == b"article".as_slice()
                    && qty == b"qty".as_slice()
            }
            None => false,
        }
    }

    fn command_of(row: &ByteRecord) -> Option<(Key, Command)> {
        delivery_of(row)
    }
}

/// Reads a delivery file, and returns its deliveries, each under its key. The first record must be exactly
/// `key,branch,article,qty`, and each further one a `deliver` in the spelling of commands. `BadRecord` names the first
/// record at fault: 0 is the header, also where it is missing, and the records after it count from 1. Records are those
/// of the crate `csv`: a blank line is no record, and no value is trimmed.
pub fn read_deliveries<R: Read + Drop>(alloc: Global, reader: R) -> Result<Vec<Request>, FileFault>
    ensures ok { IfOk result (λ requests. IfSome (R.remaining reader) (λ bytes.
        IsFile delivery_header SayDeliveries bytes requests.items)) }
    ensures bad { IfErr result (λ fault. IfSome (R.remaining reader) (λ bytes.
        NamesFirst delivery_header SayDeliveries bytes fault)) }
{
    read_singles(alloc, reader, Deliveries)
}
