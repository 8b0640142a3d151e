//! Rounds: their law, and connections that are a reader and a writer.

use rounds::Stream;
use std::test::Fail;
use web::HttpDialogue;

/// The law holds of every dialogue; a call of it costs nothing.
#[test]
fn laws_can_be_called() {
    rounds::rounds_are_one_order::<HttpDialogue>();
}

/// Returns whether a read into eight bytes takes these.
fn is_read<S: Stream>(stream: &mut S, want: &[u8]) -> bool {
    let mut piece = [0; 8];
    match stream.read_piece(&mut piece) {
        Ok(size) => size == want.len() && piece.starts_with(want),
        Err(_) => false,
    }
}

#[test]
fn a_reader_and_a_writer_are_a_connection(rt: HostRuntime) -> Result<(), Fail> {
    let mut stream = (b"K1 commit 7\n".as_slice(), Vec::new(rt.alloc()));
    assert!(rt; is_read(&mut stream, b"K1 commi"));
    assert!(rt; stream.write_some(b"K1 done 7\n")? == 10);
    assert!(rt; is_read(&mut stream, b"t 7\n"));
    assert!(rt; stream.1.as_slice() == b"K1 done 7\n".as_slice());
    Ok(())
}
