//! What a message asks for.

ghost use Rattle.std.specs.Prelude.{◌≡◌, IfOk};
ghost use Rattle.web.specs.Asks.{AsksFor};
ghost use Rattle.web.specs.Intake.{IsMessageAt, IsMessageWithin};
ghost use Rattle.web.specs.Messages.{Message};
ghost use Rattle.web.specs.Reads.{IsCallOf};

use crate::body::read_request;
use crate::intake::Found;
use crate::route::Routes;
use crate::target::{takes_commands, view_of};
use escrow::{Article, Branch, Key, Moment, OrderNo};
use std::alloc::{AllocError, Global};
use std::str;
use words::Request;

/// What a message asks for.
#[derive(Drop)]
pub enum Ask {
    /// A request to be called.
    Call(Request),
    /// A command in a body that is no request.
    BadCall,
    /// How the desk stands: its clock, and how many fields, open orders, orders and taken places it has.
    Desk,
    /// The branches that have a field.
    Branches,
    /// A field.
    Field(Branch, Article),
    /// An order.
    Order(OrderNo),
    /// The sheet of a branch.
    Sheet(Branch),
    /// The sheet of an article.
    Article(Article),
    /// What is kept under a key.
    Kept(Key),
    /// The first open orders above a number, which is 0 or an order's.
    Open(u64),
    /// The first orders that are due at a moment.
    Due(Moment),
    /// Nothing that is there.
    Nothing,
}

/// Returns what a body asks for that is posted as a command.
fn call_of(alloc: Global, body: &[u8]) -> Result<Ask, AllocError>
    ensures { IfOk result (λ ask. IsCallOf body.now ask) }
{
    match read_request(alloc, body)? {
        Some(request) => Ok(Ask::Call(request)),
        None => Ok(Ask::BadCall),
    }
}

/// Returns what the message at the front of the held bytes asks for. Memory is wanted only for a body that is posted.
pub fn ask_of(alloc: Global, routes: &Routes, held: &[u8], found: &Found) -> Result<Ask, AllocError>
    requires { IsMessageWithin held.now found.now }
    ensures { IfOk result (λ ask. (m : Message) → IsMessageAt held.now found.now m → AsksFor m ask) }
{
    let method = &held[found.method.start..found.method.end];
    let Ok(target) = str::from_utf8(&held[found.target.start..found.target.end]) else {
        return Ok(Ask::Nothing);
    };
    if method == b"GET".as_slice() {
        return Ok(view_of(routes.router(), target).unwrap_or(Ask::Nothing));
    }
    if method == b"POST".as_slice() && takes_commands(routes.router(), target) {
        return call_of(alloc, &held[found.start..found.end]);
    }
    Ok(Ask::Nothing)
}
