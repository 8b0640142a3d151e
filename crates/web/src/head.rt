//! The head at the front of a buffer.

ghost use Rattle.web.specs.Intake.{IsFront};

use httparse::Status;
use httparse::spans::{EMPTY_HEADER_SPAN, HeaderSpan, Span, parse_request};

/// How many header lines a head may have, at the most.
const MAX_HEADER_LINES: usize = 32;

/// A head, by where its parts stand.
#[derive(Clone, Copy)]
pub struct Head {
    pub length: usize,
    pub method: Span,
    pub target: Span,
    pub minor: u8,
    pub headers: [HeaderSpan; MAX_HEADER_LINES],
    pub count: usize,
}

/// What the front of a buffer is.
#[derive(Clone, Copy)]
pub enum Front {
    /// A head.
    Whole(Head),
    /// No head is there yet, and more bytes may make one.
    Cut,
    /// Whatever follows, no head is there that has few enough header lines.
    Unreadable,
}

/// Reads the head at the front of a buffer.
pub fn read_head(buffer: &[u8]) -> Front
    ensures { IsFront buffer.now result }
{
    let mut headers = [EMPTY_HEADER_SPAN; MAX_HEADER_LINES];
    match parse_request(buffer, &mut headers) {
        Ok(Status::Complete(spans)) => Front::Whole(Head {
            length: spans.len,
            method: spans.method,
            target: spans.path,
            minor: spans.version,
            headers,
            count: spans.headers,
        }),
        Ok(Status::Partial) => Front::Cut,
        Err(_) => Front::Unreadable,
    }
}
