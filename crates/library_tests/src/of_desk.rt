//! Desks: laws, a desk that is stopped, and what is found wherever a session stops.

mod headline;
pub(crate) mod three_orders;

use crate::desks::{call, open, opened, plain, run};
use desk::{CallFault, Desk, Ending, OpenFault};
use keep::Keep;
use std::alloc::Global;
use std::test::Fail;
use three_orders::{REPLIES, three_orders};
use words::Request;

/// The laws hold of every desk; a call of one costs nothing.
#[test]
fn laws_can_be_called() {
    desk::exactly_one_text();
    desk::resuming_is_invisible();
    desk::any_number_of_cuts();
    desk::batches_come_again();
    desk::batches_are_invisible();
}

/// Returns whether a run of these requests ends at a commit that fails, behind so many replies.
fn is_cut<K: Keep>(alloc: Global, desk: &mut Desk<K>, requests: &[Request], told: usize) -> bool {
    let cut = run(alloc, desk, requests);
    cut.ending == Ending::Stopped && Some(cut.replies.as_slice()) == REPLIES.get(..told)
}

/// Returns whether the third commit fails, and then nothing is answered, also not to what was done.
fn is_stopped<K: Keep>(alloc: Global, desk: &mut Desk<K>, requests: &[Request]) -> bool {
    let Some(first) = requests.first() else {
        return false;
    };
    call(alloc, desk, first) == Ok(REPLIES[0])
        && is_cut(alloc, desk, requests, 2)
        && is_cut(alloc, desk, requests, 0)
        && call(alloc, desk, first) == Err(CallFault::Stopped)
        && desk.is_stopped()
}

/// Returns whether the desk that the keeper holds is stopped so, and no desk is then opened over the keeper, with a
/// fault of the store.
fn is_closed<K: Keep + Drop>(alloc: Global, keep: K) -> Result<bool, Fail> {
    let requests = three_orders(alloc)?;
    let mut desk = opened(alloc, keep)?;
    let is_so = is_stopped(alloc, &mut desk, &requests);
    match open(alloc, desk.into_keep()) {
        Ok(desk) => {
            drop(desk.into_keep());
            Ok(false)
        }
        Err((fault, _)) => Ok(is_so && matches!(fault, OpenFault::Store)),
    }
}

#[test]
fn a_stopped_desk_answers_nothing(rt: HostRuntime) -> Result<(), Fail> {
    assert!(rt; is_closed(rt.alloc(), plain(rt.alloc(), Some(3), false))?);
    Ok(())
}
