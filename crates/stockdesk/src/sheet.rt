//! A stock sheet of a desk.

ghost use Rattle.std.specs.Prelude.{◌≡◌, ◌⊎◌, IfErr, OnOk};
ghost use Rattle.stockdesk.specs.Sheets.{SheetCut, SheetWritten};

use crate::session::Fault;
use book::Book;
use command_line::SheetOf;
use files::{SheetFault, article_sheet, branch_sheet};
use std::alloc::Global;
use std::io::Write;

impl From<SheetFault> for Fault {
    ghost use Rattle.std.specs.Prelude.{◌≡◌, ◌⊎◌};
    ghost use Rattle.files.specs.declared.fault.SheetFault.{SheetFault};
    ghost use Rattle.stockdesk.specs.declared.session.Fault.{Fault};

    ghost from_gives = { λ cause fault. ((cause ≡ SheetFault.Memory) × (fault ≡ Fault.Memory))
        ⊎ ((cause ≡ SheetFault.Io) × (fault ≡ Fault.Write)) };

    fn from(cause: SheetFault) -> Fault {
        match cause {
            SheetFault::Memory => Fault::Memory,
            SheetFault::Io => Fault::Write,
        }
    }
}

/// Writes a sheet of a book. Where memory is refused, nothing is written; where a write fails, a beginning is.
pub fn write_sheet<W: Write>(
    alloc: Global,
    book: &Book,
    of: &SheetOf,
    writer: &mut W,
) -> Result<(), Fault>
    ensures whole { OnOk result (SheetWritten of.now book.now.ledger (W.contents writer.old)
        (W.contents writer.new)) }
    ensures cut { IfErr result (λ fault. SheetCut of.now fault book.now.ledger (W.contents writer.old)
        (W.contents writer.new)) }
    ensures fault { IfErr result (λ fault. (fault ≡ Fault.Memory) ⊎ (fault ≡ Fault.Write)) }
{
    match of {
        SheetOf::Branch(branch) => Ok(branch_sheet(alloc, book, *branch, writer)?),
        SheetOf::Article(article) => Ok(article_sheet(alloc, book, *article, writer)?),
    }
}
