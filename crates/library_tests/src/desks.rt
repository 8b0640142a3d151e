//! Desks, and calls without their clauses, so that a test's proof need not know them.

use desk::{CallFault, Desk, OpenFault, Run};
use keep::{Keep, KeepFault, PlainKeep};
use ledger::Tables;
use std::alloc::Global;
use std::test::Fail;
use words::{Item, Reply, Request, read_item};

/// Returns a keeper in memory of a new desk; its commit with this number fails, and lands or does not.
pub(crate) fn plain(alloc: Global, fail_at: Option<u64>, lands: bool) -> PlainKeep {
    PlainKeep::start(alloc, fail_at, lands)
}

/// Returns what the keeper loads.
pub(crate) fn load<K: Keep>(alloc: Global, keep: &mut K) -> Result<Tables, KeepFault> {
    keep.load(alloc)
}

/// Opens the desk whose rows the keeper holds.
pub(crate) fn open<K: Keep>(alloc: Global, keep: K) -> Result<Desk<K>, (OpenFault, K)> {
    Desk::open(alloc, keep)
}

/// Returns the desk whose rows the keeper holds.
pub(crate) fn opened<K: Keep + Drop>(alloc: Global, keep: K) -> Result<Desk<K>, Fail> {
    match open(alloc, keep) {
        Ok(desk) => Ok(desk),
        Err((fault, _)) => Err(fault)?,
    }
}

/// Answers a request.
pub(crate) fn call<K: Keep>(
    alloc: Global,
    desk: &mut Desk<K>,
    request: &Request,
) -> Result<Reply, CallFault> {
    desk.call(alloc, request)
}

/// Answers requests one after the other.
pub(crate) fn run<K: Keep>(alloc: Global, desk: &mut Desk<K>, requests: &[Request]) -> Run {
    desk.run(alloc, requests)
}

/// Returns the requests of these lines.
pub(crate) fn requests(alloc: Global, lines: &[&str]) -> Result<Vec<Request>, Fail> {
    let mut requests = Vec::new(alloc);
    for line in lines {
        match read_item(alloc, line.as_bytes())? {
            Item::Request(request) => requests.push(request)?,
            _ => Err("no request")?,
        }
    }
    Ok(requests)
}
