//! Lines: their laws, and the streams that they are read from and written to.

use crate::streams::{Drip, Sink};
use std::alloc::Global;
use std::io::Read;
use words::{
    ReadFault, WriteFault, cuts_do_not_matter, exactly_one_item, no_request_is_too_long,
    read_piece, write_whole,
};

/// The laws hold of every line; a call of one costs nothing.
#[test]
fn laws_can_be_called() {
    exactly_one_item();
    no_request_is_too_long();
    cuts_do_not_matter();
}

/// Returns whether a read into eight bytes takes these, or fails.
fn is_read<I: Read>(reader: &mut I, want: Option<&[u8]>) -> bool {
    let mut buffer = [0; 8];
    match (read_piece(reader, &mut buffer), want) {
        (Ok(size), Some(bytes)) => size == bytes.len() && buffer.starts_with(bytes),
        (Err(ReadFault), None) => true,
        _ => false,
    }
}

#[test]
fn a_read_is_a_piece_or_a_fault(rt: HostRuntime) {
    let mut drip = Drip {
        bytes: b"K1 commit 7\n",
        piece: 9,
        before_fault: 1,
        is_interrupted: true,
    };
    assert!(rt; is_read(&mut drip, Some(b"K1 commi")));
    assert!(rt; is_read(&mut drip, None));
    assert!(rt; is_read(&mut drip, Some(b"t 7\n")));
    assert!(rt; is_read(&mut drip, Some(b"")));
}

/// Returns how the writing of a text ends where the write with this number fails, or takes nothing; and how much of the
/// text is then written, where that is a beginning.
fn written_until(
    alloc: Global,
    text: &[u8],
    before_fault: usize,
    takes_none: bool,
) -> (Result<(), WriteFault>, Option<usize>) {
    let mut sink = Sink {
        taken: Vec::new(alloc),
        piece: 1,
        before_fault,
        takes_none,
    };
    let ended = write_whole(&mut sink, text);
    let is_beginning = text.starts_with(sink.taken.as_slice());
    (
        ended,
        if is_beginning {
            Some(sink.taken.len())
        } else {
            None
        },
    )
}

#[test]
fn a_text_is_written_whole_or_a_beginning(rt: HostRuntime) {
    let text = b"K1 done 7\n".as_slice();
    for number in 0..10usize {
        let failed = written_until(rt.alloc(), text, number, false);
        assert!(rt; failed == (Err(WriteFault), Some(number)), "{number}");
        let stuck = written_until(rt.alloc(), text, number, true);
        assert!(rt; stuck == (Err(WriteFault), Some(number)), "{number}");
    }
    assert!(rt; written_until(rt.alloc(), text, 10, false) == (Ok(()), Some(10)));
}
