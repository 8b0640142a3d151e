//! A file, record by record.

ghost use Rattle.std.specs.Prelude.{◌≡◌, ◌↔◌, ◌∷◌, ◌++◌, [], List, ℕ, IfErr, IfOk, IfSome, IsTrue, OnOk, length};
ghost use Rattle.csv.specs.Records.{fields_of};
ghost use Rattle.files.specs.Files.{AreRecordsOf, BeginsFile, Breaks, FaultsAt, NamesFirst, Record};
ghost use Rattle.words.specs.declared.command.Request.{Request};

use crate::fault::{FileFault, fault_of};
use csv::{ByteRecord, ReaderBuilder};
use std::alloc::Global;
use std::io::Read;
use words::{Memory, Request};

/// What a kind of file makes of its records, one after the other.
pub trait Intake: Sized + Drop {
    /// The header.
    ghost header: { Record };

    /// The requests that the records after the header say.
    ghost says: { List Record → List Request → Type 0 };

    /// The records after the header that were taken in.
    ghost took: { Self → List Record → Type 0 };

    /// Returns whether the record is the header.
    fn is_header(row: &ByteRecord) -> bool
        ensures { IsTrue result ↔ (fields_of row.now ≡ header) };

    /// Takes in the next record, or says that it is at fault.
    fn take(&mut self, row: &ByteRecord) -> Result<bool, Memory>
        ensures good { IfOk result (λ good. IsTrue good → (rows : List Record) → took self.old rows
            → took self.new (rows ++ fields_of row.now ∷ [])) }
        ensures fault { IfOk result (λ good. (IsTrue good → ⊥) → (rows : List Record) → took self.old rows
            → Breaks says rows (fields_of row.now)) };
}

/// Takes in the record of that number, or names it where it is at fault.
fn admit<I: Intake>(intake: &mut I, number: u64, row: &ByteRecord) -> Result<(), FileFault>
    ensures good { OnOk result ((records : List Record) → length records ≡ number
        → BeginsFile I.header (I.took intake.old) records
        → BeginsFile I.header (I.took intake.new) (records ++ fields_of row.now ∷ [])) }
    ensures bad { IfErr result (λ fault. (records : List Record) → length records ≡ number
        → BeginsFile I.header (I.took intake.old) records
        → FaultsAt I.header I.says (records ++ fields_of row.now ∷ []) fault) }
{
    if number == 0 {
        return if I::is_header(row) {
            Ok(())
        } else {
            Err(FileFault::BadRecord(0))
        };
    }
    match intake.take(row) {
        Ok(true) => Ok(()),
        Ok(false) => Err(FileFault::BadRecord(number)),
        Err(Memory) => Err(FileFault::Memory),
    }
}

/// Takes in all records of a file, to the first at fault.
pub fn read_file<R: Read + Drop, I: Intake>(
    alloc: Global,
    reader: R,
    mut intake: I,
) -> Result<I, FileFault>
    requires { I.took intake [] }
    ensures ok { IfOk result (λ taken. IfSome (R.remaining reader) (λ bytes. (rows : List Record)
        × AreRecordsOf bytes (I.header ∷ rows) × I.took taken rows)) }
    ensures bad { IfErr result (λ fault. IfSome (R.remaining reader) (λ bytes.
        NamesFirst I.header I.says bytes fault)) }
{
    let mut records = ReaderBuilder::new()
        .has_headers(false)
        .flexible(true)
        .from_reader(alloc, reader);
    let mut record = ByteRecord::new(alloc);
    for number in 0..u64::MAX {
        match records.read_byte_record(&mut record) {
            Ok(true) => admit(&mut intake, number, &record)?,
            Ok(false) if number == 0 => return Err(FileFault::BadRecord(0)),
            Ok(false) => return Ok(intake),
            Err(error) => return Err(fault_of(&error)),
        }
    }
    Err(FileFault::Io)
}
