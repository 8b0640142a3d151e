//! Orders that are open, used, firm and committed, and a request that is refused: the reply to each, and the rows after
//! it.

use crate::desks::requests;
use crate::of_keep::loaded;
use desk::{Ending, Run};
use keep::Keep;
use std::alloc::Global;
use std::test::Fail;
use words::{Refusal, Reply, Request};

/// How many requests there are.
pub(super) const COUNT: usize = 8;

static LINES: [&str; COUNT] = [
    "H1 field N1 A-1 0 100 40",
    "H2 open 7 500 take N1 A-1 10",
    "H3 open 8 500 take N1 A-1 12",
    "H4 use 8 N1 A-1 5",
    "H5 open 9 500 add N1 A-1 20",
    "H6 firm 9",
    "H7 writeoff N1 A-1 19",
    "H8 commit 8",
];

pub(super) static REPLIES: [Reply; COUNT] = [
    Reply::Done(1),
    Reply::Done(2),
    Reply::Done(3),
    Reply::Done(4),
    Reply::Done(5),
    Reply::Done(6),
    Reply::Refused(Refusal::TooLittle, 0),
    Reply::Done(7),
];

/// The requests as a script, and its answers.
pub(super) const SCRIPT: &str =
    "H1 field N1 A-1 0 100 40\nH2 open 7 500 take N1 A-1 10\nH3 open 8 500 take N1 A-1 12\nH4 use 8 N1 A-1 5\nH5 open 9 500 add N1 A-1 20\nH6 firm 9\nH7 writeoff N1 A-1 19\nH8 commit 8\n";

pub(super) const ANSWERS: &str =
    "H1 done 1\nH2 done 2\nH3 done 3\nH4 done 4\nH5 done 5\nH6 done 6\nH7 refused 13 TooLittle 0\nH8 done 7\n";

/// Returns how many lines of the answers are whole in a beginning of this length.
pub(super) fn lines_in(length: usize) -> usize {
    match length {
        0..10 => 0,
        10..20 => 1,
        20..30 => 2,
        30..40 => 3,
        40..50 => 4,
        50..60 => 5,
        60..86 => 6,
        86..96 => 7,
        _ => 8,
    }
}

/// All rows before the first request, and after each of them.
pub(crate) static ROWS: [&str; 9] = [
    "Tables { desk: DeskRow { one: 1, version: 2, clock: 0, places: 0 }, fields: Rows { rows: [] }, moves: Rows { rows: [] }, orders: Rows { rows: [] }, lines: Rows { rows: [] }, kept: Rows { rows: [] }, firms: Rows { rows: [] } }",
    "Tables { desk: DeskRow { one: 1, version: 2, clock: 0, places: 1 }, fields: Rows { rows: [FieldRow { branch: \"N1\", article: \"A-1\", lo: 0, hi: 100, start: 40, value: 40, inf: 40, sup: 40 }] }, moves: Rows { rows: [] }, orders: Rows { rows: [] }, lines: Rows { rows: [] }, kept: Rows { rows: [KeptRow { reqkey: \"H1\", place: 1, words: \"field N1 A-1 0 100 40\" }] }, firms: Rows { rows: [] } }",
    "Tables { desk: DeskRow { one: 1, version: 2, clock: 0, places: 2 }, fields: Rows { rows: [FieldRow { branch: \"N1\", article: \"A-1\", lo: 0, hi: 100, start: 40, value: 40, inf: 30, sup: 40 }] }, moves: Rows { rows: [] }, orders: Rows { rows: [OrderRow { number: 7, kind: 0, until: 500, state: 0 }] }, lines: Rows { rows: [LineRow { number: 7, nr: 1, branch: \"N1\", article: \"A-1\", way: 0, held: 10, used: 0 }] }, kept: Rows { rows: [KeptRow { reqkey: \"H1\", place: 1, words: \"field N1 A-1 0 100 40\" }, KeptRow { reqkey: \"H2\", place: 2, words: \"open 7 500 take N1 A-1 10\" }] }, firms: Rows { rows: [] } }",
    "Tables { desk: DeskRow { one: 1, version: 2, clock: 0, places: 3 }, fields: Rows { rows: [FieldRow { branch: \"N1\", article: \"A-1\", lo: 0, hi: 100, start: 40, value: 40, inf: 18, sup: 40 }] }, moves: Rows { rows: [] }, orders: Rows { rows: [OrderRow { number: 7, kind: 0, until: 500, state: 0 }, OrderRow { number: 8, kind: 0, until: 500, state: 0 }] }, lines: Rows { rows: [LineRow { number: 7, nr: 1, branch: \"N1\", article: \"A-1\", way: 0, held: 10, used: 0 }, LineRow { number: 8, nr: 1, branch: \"N1\", article: \"A-1\", way: 0, held: 12, used: 0 }] }, kept: Rows { rows: [KeptRow { reqkey: \"H1\", place: 1, words: \"field N1 A-1 0 100 40\" }, KeptRow { reqkey: \"H2\", place: 2, words: \"open 7 500 take N1 A-1 10\" }, KeptRow { reqkey: \"H3\", place: 3, words: \"open 8 500 take N1 A-1 12\" }] }, firms: Rows { rows: [] } }",
    "Tables { desk: DeskRow { one: 1, version: 2, clock: 0, places: 4 }, fields: Rows { rows: [FieldRow { branch: \"N1\", article: \"A-1\", lo: 0, hi: 100, start: 40, value: 40, inf: 18, sup: 40 }] }, moves: Rows { rows: [] }, orders: Rows { rows: [OrderRow { number: 7, kind: 0, until: 500, state: 0 }, OrderRow { number: 8, kind: 0, until: 500, state: 0 }] }, lines: Rows { rows: [LineRow { number: 7, nr: 1, branch: \"N1\", article: \"A-1\", way: 0, held: 10, used: 0 }, LineRow { number: 8, nr: 1, branch: \"N1\", article: \"A-1\", way: 0, held: 12, used: 5 }] }, kept: Rows { rows: [KeptRow { reqkey: \"H1\", place: 1, words: \"field N1 A-1 0 100 40\" }, KeptRow { reqkey: \"H2\", place: 2, words: \"open 7 500 take N1 A-1 10\" }, KeptRow { reqkey: \"H3\", place: 3, words: \"open 8 500 take N1 A-1 12\" }, KeptRow { reqkey: \"H4\", place: 4, words: \"use 8 N1 A-1 5\" }] }, firms: Rows { rows: [] } }",
    "Tables { desk: DeskRow { one: 1, version: 2, clock: 0, places: 5 }, fields: Rows { rows: [FieldRow { branch: \"N1\", article: \"A-1\", lo: 0, hi: 100, start: 40, value: 40, inf: 18, sup: 60 }] }, moves: Rows { rows: [] }, orders: Rows { rows: [OrderRow { number: 7, kind: 0, until: 500, state: 0 }, OrderRow { number: 8, kind: 0, until: 500, state: 0 }, OrderRow { number: 9, kind: 0, until: 500, state: 0 }] }, lines: Rows { rows: [LineRow { number: 7, nr: 1, branch: \"N1\", article: \"A-1\", way: 0, held: 10, used: 0 }, LineRow { number: 8, nr: 1, branch: \"N1\", article: \"A-1\", way: 0, held: 12, used: 5 }, LineRow { number: 9, nr: 1, branch: \"N1\", article: \"A-1\", way: 1, held: 20, used: 0 }] }, kept: Rows { rows: [KeptRow { reqkey: \"H1\", place: 1, words: \"field N1 A-1 0 100 40\" }, KeptRow { reqkey: \"H2\", place: 2, words: \"open 7 500 take N1 A-1 10\" }, KeptRow { reqkey: \"H3\", place: 3, words: \"open 8 500 take N1 A-1 12\" }, KeptRow { reqkey: \"H4\", place: 4, words: \"use 8 N1 A-1 5\" }, KeptRow { reqkey: \"H5\", place: 5, words: \"open 9 500 add N1 A-1 20\" }] }, firms: Rows { rows: [] } }",
    "Tables { desk: DeskRow { one: 1, version: 2, clock: 0, places: 6 }, fields: Rows { rows: [FieldRow { branch: \"N1\", article: \"A-1\", lo: 0, hi: 100, start: 40, value: 40, inf: 18, sup: 60 }] }, moves: Rows { rows: [] }, orders: Rows { rows: [OrderRow { number: 7, kind: 0, until: 500, state: 0 }, OrderRow { number: 8, kind: 0, until: 500, state: 0 }, OrderRow { number: 9, kind: 0, until: 500, state: 0 }] }, lines: Rows { rows: [LineRow { number: 7, nr: 1, branch: \"N1\", article: \"A-1\", way: 0, held: 10, used: 0 }, LineRow { number: 8, nr: 1, branch: \"N1\", article: \"A-1\", way: 0, held: 12, used: 5 }, LineRow { number: 9, nr: 1, branch: \"N1\", article: \"A-1\", way: 1, held: 20, used: 0 }] }, kept: Rows { rows: [KeptRow { reqkey: \"H1\", place: 1, words: \"field N1 A-1 0 100 40\" }, KeptRow { reqkey: \"H2\", place: 2, words: \"open 7 500 take N1 A-1 10\" }, KeptRow { reqkey: \"H3\", place: 3, words: \"open 8 500 take N1 A-1 12\" }, KeptRow { reqkey: \"H4\", place: 4, words: \"use 8 N1 A-1 5\" }, KeptRow { reqkey: \"H5\", place: 5, words: \"open 9 500 add N1 A-1 20\" }, KeptRow { reqkey: \"H6\", place: 6, words: \"firm 9\" }] }, firms: Rows { rows: [FirmRow { number: 9 }] } }",
    "Tables { desk: DeskRow { one: 1, version: 2, clock: 0, places: 6 }, fields: Rows { rows: [FieldRow { branch: \"N1\", article: \"A-1\", lo: 0, hi: 100, start: 40, value: 40, inf: 18, sup: 60 }] }, moves: Rows { rows: [] }, orders: Rows { rows: [OrderRow { number: 7, kind: 0, until: 500, state: 0 }, OrderRow { number: 8, kind: 0, until: 500, state: 0 }, OrderRow { number: 9, kind: 0, until: 500, state: 0 }] }, lines: Rows { rows: [LineRow { number: 7, nr: 1, branch: \"N1\", article: \"A-1\", way: 0, held: 10, used: 0 }, LineRow { number: 8, nr: 1, branch: \"N1\", article: \"A-1\", way: 0, held: 12, used: 5 }, LineRow { number: 9, nr: 1, branch: \"N1\", article: \"A-1\", way: 1, held: 20, used: 0 }] }, kept: Rows { rows: [KeptRow { reqkey: \"H1\", place: 1, words: \"field N1 A-1 0 100 40\" }, KeptRow { reqkey: \"H2\", place: 2, words: \"open 7 500 take N1 A-1 10\" }, KeptRow { reqkey: \"H3\", place: 3, words: \"open 8 500 take N1 A-1 12\" }, KeptRow { reqkey: \"H4\", place: 4, words: \"use 8 N1 A-1 5\" }, KeptRow { reqkey: \"H5\", place: 5, words: \"open 9 500 add N1 A-1 20\" }, KeptRow { reqkey: \"H6\", place: 6, words: \"firm 9\" }] }, firms: Rows { rows: [FirmRow { number: 9 }] } }",
    "Tables { desk: DeskRow { one: 1, version: 2, clock: 0, places: 7 }, fields: Rows { rows: [FieldRow { branch: \"N1\", article: \"A-1\", lo: 0, hi: 100, start: 40, value: 35, inf: 25, sup: 55 }] }, moves: Rows { rows: [] }, orders: Rows { rows: [OrderRow { number: 7, kind: 0, until: 500, state: 0 }, OrderRow { number: 8, kind: 0, until: 500, state: 1 }, OrderRow { number: 9, kind: 0, until: 500, state: 0 }] }, lines: Rows { rows: [LineRow { number: 7, nr: 1, branch: \"N1\", article: \"A-1\", way: 0, held: 10, used: 0 }, LineRow { number: 8, nr: 1, branch: \"N1\", article: \"A-1\", way: 0, held: 12, used: 5 }, LineRow { number: 9, nr: 1, branch: \"N1\", article: \"A-1\", way: 1, held: 20, used: 0 }] }, kept: Rows { rows: [KeptRow { reqkey: \"H1\", place: 1, words: \"field N1 A-1 0 100 40\" }, KeptRow { reqkey: \"H2\", place: 2, words: \"open 7 500 take N1 A-1 10\" }, KeptRow { reqkey: \"H3\", place: 3, words: \"open 8 500 take N1 A-1 12\" }, KeptRow { reqkey: \"H4\", place: 4, words: \"use 8 N1 A-1 5\" }, KeptRow { reqkey: \"H5\", place: 5, words: \"open 9 500 add N1 A-1 20\" }, KeptRow { reqkey: \"H6\", place: 6, words: \"firm 9\" }, KeptRow { reqkey: \"H8\", place: 7, words: \"commit 8\" }] }, firms: Rows { rows: [FirmRow { number: 9 }] } }",
];

/// Returns the requests.
pub(super) fn three_orders(alloc: Global) -> Result<Vec<Request>, Fail> {
    requests(alloc, &LINES)
}

/// The rows that the keeper holds must be those after `done` requests, or those after `most`.
pub(super) fn expect_rows<K: Keep>(
    alloc: Global,
    keep: &mut K,
    done: usize,
    most: usize,
) -> Result<(), Fail> {
    let rows = loaded(alloc, keep)?;
    let found = Some(rows.as_str());
    if found == ROWS.get(done).copied() || found == ROWS.get(most).copied() {
        Ok(())
    } else {
        Err("other rows than behind what was answered, or what was to be committed")?
    }
}

/// The replies must be those to the requests after the first `before`, to all of them exactly where the run ended
/// `All`. Returns how many they are.
pub(super) fn expect_replies(run: &Run, before: usize) -> Result<usize, Fail> {
    let replies = REPLIES.get(before..).ok_or("no such number")?;
    let count = run.replies.len();
    if replies.get(..count) != Some(run.replies.as_slice()) {
        Err("another reply")?;
    }
    if (run.ending == Ending::All) != (count == replies.len()) {
        Err("ended before its end")?;
    }
    Ok(count)
}
