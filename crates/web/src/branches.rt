//! The branches that have a field.

ghost use Rattle.std.specs.Prelude.{◌≡◌, ◌++◌, IfOk, OnOk};
ghost use Rattle.web.specs.Branches.{AreBranches, is_again, listed};

use book::Book;
use escrow::Branch;
use std::alloc::{AllocError, Global};

/// Returns whether the branch is the one that came just before.
fn is_again(before: Option<Branch>, branch: &Branch) -> bool
    ensures { result ≡ is_again before branch.now }
{
    match before {
        Some(one) => one.as_bytes() == branch.as_bytes(),
        None => false,
    }
}

/// Appends the branch, unless it came just before.
fn push_new(
    branches: &mut Vec<Branch>,
    before: Option<Branch>,
    branch: Branch,
) -> Result<(), AllocError>
    ensures { OnOk result (branches.new.items ≡ branches.old.items ++ listed before branch) }
{
    if is_again(before, &branch) {
        return Ok(());
    }
    branches.push(branch)?;
    Ok(())
}

/// Returns the branches that have a field in the book, each once, in the order of their bytes.
pub fn branches_of(alloc: Global, book: &Book) -> Result<Vec<Branch>, AllocError>
    ensures { IfOk result (λ branches. AreBranches book.now.ledger.fields branches.items) }
{
    let mut branches = Vec::new(alloc);
    let mut before = None;
    for index in 0..book.field_count() {
        let Some(view) = book.field_at(index) else {
            unreachable!()
        };
        push_new(&mut branches, before, view.branch)?;
        before = Some(view.branch);
    }
    Ok(branches)
}
