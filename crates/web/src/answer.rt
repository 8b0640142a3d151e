//! Answers, as bytes.

ghost use Rattle.std.specs.Prelude.{◌≡◌, ◌++◌, IfOk, OnOk};
ghost use Rattle.std.specs.Str.{IsUtf8};
ghost use Rattle.ledger.specs.Ledger.{Order};
ghost use Rattle.book.specs.Views.{ShowsOrder};
ghost use Rattle.web.specs.Answers.{Answer, answer_bytes, header_line, json_answer, json_of, reply_answer, status_line, text_answer};
ghost use Rattle.web.specs.Objects.{branches_object, desk_object, field_object, listed_object, order_object, place_object, placed_object, refused_object};

use crate::objects::{
    branches_json, desk_json, field_json, kept_json, order_json, orders_json, place_json,
    refused_json,
};
use book::{Book, FieldView, KeptView, OrderView};
use escrow::{Branch, OrderNo};
use http::StatusCode;
use itoa::Buffer;
use std::alloc::{AllocError, Global};
use words::{Refusal, Reply};

/// Returns the status line.
fn status_line(alloc: Global, status: StatusCode) -> Result<Vec<u8>, AllocError>
    ensures { IfOk result (λ out. out.items ≡ status_line status) }
{
    let mut out = Vec::new(alloc);
    out.extend_from_slice(b"HTTP/1.1 ")?;
    out.extend_from_slice(status.as_str().as_bytes())?;
    out.push(b' ')?;
    out.extend_from_slice(status.canonical_reason().unwrap_or("").as_bytes())?;
    out.extend_from_slice(b"\r\n")?;
    Ok(out)
}

/// Appends a header line.
fn push_header(out: &mut Vec<u8>, name: &[u8], value: &[u8]) -> Result<(), AllocError>
    ensures { OnOk result (out.new.items ≡ out.old.items ++ header_line name.now value.now) }
{
    out.extend_from_slice(name)?;
    out.extend_from_slice(b": ")?;
    out.extend_from_slice(value)?;
    out.extend_from_slice(b"\r\n")?;
    Ok(())
}

/// Returns the answer with this status and this body, which is of this type.
pub fn answer_of(
    alloc: Global,
    status: StatusCode,
    kind: &[u8],
    body: &[u8],
) -> Result<Vec<u8>, AllocError>
    ensures { IfOk result (λ out. out.items ≡ answer_bytes
        (record { status = status; kind = kind.now; body = body.now })) }
{
    let mut buffer = Buffer::new();
    let mut out = status_line(alloc, status)?;
    push_header(&mut out, b"content-type", kind)?;
    push_header(
        &mut out,
        b"content-length",
        buffer.format(body.len()).as_bytes(),
    )?;
    out.extend_from_slice(b"\r\n")?;
    out.extend_from_slice(body)?;
    Ok(out)
}

/// Returns the answer with this status whose body is this JSON.
pub fn json_answer(alloc: Global, status: StatusCode, text: &[u8]) -> Result<Vec<u8>, AllocError>
    ensures { IfOk result (λ out. out.items ≡ answer_bytes (json_of status text.now)) }
{
    answer_of(alloc, status, b"application/json", text)
}

/// Returns the answer whose body is this plain text.
pub fn text_answer(alloc: Global, text: &[u8]) -> Result<Vec<u8>, AllocError>
    ensures { IfOk result (λ out. out.items ≡ answer_bytes (text_answer text.now)) }
{
    answer_of(alloc, StatusCode::OK, b"text/plain", text)
}

/// Returns the answer that shows how a desk stands.
pub fn desk_answer(alloc: Global, book: &Book) -> Result<Vec<u8>, AllocError>
    ensures { IfOk result (λ out. out.items ≡ answer_bytes (json_answer 200 (desk_object book.now.ledger))) }
{
    json_answer(alloc, StatusCode::OK, &desk_json(alloc, book)?)
}

/// Returns the answer that shows branches.
pub fn branches_answer(alloc: Global, branches: &[Branch]) -> Result<Vec<u8>, AllocError>
    ensures { IfOk result (λ out. out.items ≡ answer_bytes (json_answer 200 (branches_object branches.now))) }
{
    json_answer(alloc, StatusCode::OK, &branches_json(alloc, branches)?)
}

/// Returns the answer that shows a field.
pub fn field_answer(alloc: Global, view: &FieldView) -> Result<Vec<u8>, AllocError>
    ensures { IfOk result (λ out. out.items ≡ answer_bytes (json_answer 200 (field_object view.now))) }
{
    json_answer(alloc, StatusCode::OK, &field_json(alloc, view)?)
}

/// Returns the answer that shows an order, made from its view.
pub fn order_answer(alloc: Global, view: &OrderView) -> Result<Vec<u8>, AllocError>
    ensures { (order : Order) → ShowsOrder order view.now → IfOk result
        (λ out. out.items ≡ answer_bytes (json_answer 200 (order_object order))) }
{
    json_answer(alloc, StatusCode::OK, &order_json(alloc, view)?)
}

/// Returns the answer that shows the orders of these numbers.
pub fn orders_answer(alloc: Global, book: &Book, numbers: &[OrderNo]) -> Result<Vec<u8>, AllocError>
    ensures { IfOk result (λ out. out.items ≡ answer_bytes
        (json_answer 200 (listed_object book.now.ledger numbers.now))) }
{
    json_answer(alloc, StatusCode::OK, &orders_json(alloc, book, numbers)?)
}

/// Returns the answer that shows what is kept under a key.
pub fn kept_answer(alloc: Global, view: &KeptView) -> Result<Vec<u8>, AllocError>
    requires { IsUtf8 view.now.words.now }
    ensures { IfOk result (λ out. out.items ≡ answer_bytes
        (json_answer 200 (placed_object view.now.words.now view.now.place))) }
{
    json_answer(alloc, StatusCode::OK, &kept_json(alloc, view)?)
}

/// Returns the answer to a command that is done.
fn done_answer(alloc: Global, place: u64) -> Result<Vec<u8>, AllocError>
    ensures { IfOk result (λ out. out.items ≡ answer_bytes (json_answer 200 (place_object place))) }
{
    json_answer(alloc, StatusCode::OK, &place_json(alloc, place)?)
}

/// Returns the answer to a command that is refused.
fn refused_answer(alloc: Global, refusal: Refusal, line: u64) -> Result<Vec<u8>, AllocError>
    ensures { IfOk result (λ out. out.items ≡ answer_bytes (json_answer 409 (refused_object refusal line))) }
{
    json_answer(
        alloc,
        StatusCode::CONFLICT,
        &refused_json(alloc, refusal, line)?,
    )
}

/// Returns the answer to a command.
pub fn reply_answer(alloc: Global, reply: Reply) -> Result<Vec<u8>, AllocError>
    ensures { IfOk result (λ out. out.items ≡ answer_bytes (reply_answer reply)) }
{
    match reply {
        Reply::Done(place) => done_answer(alloc, place),
        Reply::Refused(refusal, line) => refused_answer(alloc, refusal, line),
    }
}
