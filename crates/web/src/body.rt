//! Bodies of commands.

ghost use Rattle.std.specs.Prelude.{[], ◌≡◌, ◌≢◌, ℕ, List, Some, None, Ok, IfNone, IfOk, IfSome, OnErr};
ghost use Rattle.serde_json.specs.View.{view};
ghost use Rattle.web.specs.Bodies.{IsBodyOf, IsObjectOf};
ghost use Rattle.web.specs.Objects.{command_object};
ghost use Rattle.words.specs.declared.command.Request.{Request};

use escrow::Key;
use serde_json::Value;
use serde_json::error::Category;
use std::alloc::{AllocError, Global};
use words::{Request, SpelledCommand, WordsFault};

/// Returns the key and the text of the command, where the value is an object with these two members and no other.
fn command_parts(value: &Value) -> Option<(&str, &str)>
    ensures some { IfSome result (λ parts. view value.now ≡ command_object parts.0.now parts.1.now) }
    ensures none { result ≡ None → (key : List ℕ) (command : List ℕ) → view value.now ≢ command_object key command }
{
    let Value::Object(members) = value else {
        return None;
    };
    if members.len() != 2 {
        return None;
    }
    match (value.get("key"), value.get("command")) {
        (Some(Value::String(key)), Some(Value::String(command))) => {
            Some((key.as_str(), command.as_str()))
        }
        _ => None,
    }
}

/// Returns the request whose object the value is, or `None` exactly where it is no request's.
fn request_of(alloc: Global, value: &Value) -> Result<Option<Request>, AllocError>
    ensures some { IfOk result (λ found. IfSome found (λ request. IsObjectOf request (view value.now))) }
    ensures none { result ≡ Ok None → (request : Request) → IsObjectOf request (view value.now) → ⊥ }
{
    let Some(parts) = command_parts(value) else {
        return Ok(None);
    };
    let Ok(key) = Key::read(parts.0.as_bytes()) else {
        return Ok(None);
    };
    match SpelledCommand::read(alloc, parts.1.as_bytes()) {
        Ok(command) => Ok(Some(Request { key, command })),
        Err(WordsFault::BadCommand) => Ok(None),
        Err(WordsFault::Memory) => Err(AllocError),
    }
}

/// Returns the request whose JSON text the body is (RFC 8259, as `serde_json` reads it), or `None` exactly where it is
/// no request's. Memory is wanted only where there is a body.
pub fn read_request(alloc: Global, body: &[u8]) -> Result<Option<Request>, AllocError>
    ensures some { IfOk result (λ found. IfSome found (λ request. IsBodyOf request body.now)) }
    ensures none { result ≡ Ok None → (request : Request) → IsBodyOf request body.now → ⊥ }
    ensures memory { OnErr result (body.now ≢ []) }
{
    match Value::from_slice(alloc, body) {
        Ok(value) => request_of(alloc, &value),
        Err(error) if matches!(error.classify(), Category::Memory) => Err(AllocError),
        Err(_) => Ok(None),
    }
}
