//! Answers that are the same each time.

ghost use Rattle.std.specs.Prelude.{◌≡◌};
ghost use Rattle.desk.specs.Dialogue.{bytes_of};
ghost use Rattle.web.specs.Answers.{answer_bytes};
ghost use Rattle.web.specs.Fixed.{fixed_answer};

use desk::Answer;

/// An answer that is the same each time.
#[derive(Clone, Copy)]
pub enum Fixed {
    /// Nothing is there under that target.
    Nothing,
    /// What came is no message.
    NoMessage,
    /// The desk is stopped.
    Stopped,
    /// Memory was refused for the answer.
    Memory,
    /// The body is no command.
    BadCommand,
}

const NOTHING: &[u8] =
    b"HTTP/1.1 404 Not Found\r\ncontent-type: application/json\r\ncontent-length: 16\r\n\r\n{\"error\":\"none\"}";

const NO_MESSAGE: &[u8] =
    b"HTTP/1.1 400 Bad Request\r\ncontent-type: application/json\r\ncontent-length: 19\r\n\r\n{\"error\":\"message\"}";

const STOPPED: &[u8] =
    b"HTTP/1.1 503 Service Unavailable\r\ncontent-type: application/json\r\ncontent-length: 19\r\n\r\n{\"error\":\"stopped\"}";

const MEMORY: &[u8] =
    b"HTTP/1.1 503 Service Unavailable\r\ncontent-type: application/json\r\ncontent-length: 18\r\n\r\n{\"error\":\"memory\"}";

const BAD_COMMAND: &[u8] =
    b"HTTP/1.1 400 Bad Request\r\ncontent-type: application/json\r\ncontent-length: 43\r\n\r\n{\"code\":20,\"line\":0,\"refused\":\"BadCommand\"}";

impl Fixed {
    /// Returns the answer, so that it can be sent.
    pub fn answer(self) -> Answer
        ensures { bytes_of result ≡ answer_bytes (fixed_answer self) }
    {
        Answer::Fixed(self.bytes())
    }

    /// Returns the bytes of the answer.
    fn bytes(self) -> &'static [u8]
        ensures { result.now ≡ answer_bytes (fixed_answer self) }
    {
        match self {
            Fixed::Nothing => NOTHING,
            Fixed::NoMessage => NO_MESSAGE,
            Fixed::Stopped => STOPPED,
            Fixed::Memory => MEMORY,
            Fixed::BadCommand => BAD_COMMAND,
        }
    }
}
