//! The texts of objects. The JSON is written by `serde_json`.

ghost use Rattle.std.specs.Prelude.{◌≡◌, IfOk};
ghost use Rattle.std.specs.Str.{IsUtf8};
ghost use Rattle.serde_json.specs.View.{view as data_of};
ghost use Rattle.serde_json.specs.Written.{compact_text};
ghost use Rattle.ledger.specs.Ledger.{Order};
ghost use Rattle.book.specs.Views.{ShowsOrder};
ghost use Rattle.web.specs.Objects.{branches_object, desk_object, field_object, line_object, line_objects, listed_object, listed_objects, numbered_object, order_object, view_object, place_object, placed_object, refused_object, texts};

use crate::word::{kind_text, state_text, utf8_text, way_text};
use book::{Book, FieldView, KeptView, OrderView};
use escrow::{Branch, OrderNo};
use ledger::Line;
use serde_json::{Value, json};
use std::alloc::{AllocError, Global};
use words::Refusal;

/// Returns the object of a desk.
fn desk_value(alloc: Global, book: &Book) -> Result<Value, AllocError>
    ensures { IfOk result (λ value. data_of value ≡ desk_object book.now.ledger) }
{
    json!(in alloc; {
        "clock": book.clock().get(),
        "fields": book.field_count(),
        "open": book.open_count(),
        "orders": book.order_count(),
        "places": book.places(),
    })
}

/// Returns the text of a desk's object.
pub fn desk_json(alloc: Global, book: &Book) -> Result<Vec<u8>, AllocError>
    ensures { IfOk result (λ text. text.items ≡ compact_text (desk_object book.now.ledger)) }
{
    desk_value(alloc, book)?.to_vec(alloc)
}

/// Returns the list of the branches' codes.
fn branch_texts(alloc: Global, branches: &[Branch]) -> Result<Value, AllocError>
    ensures { IfOk result (λ value. data_of value ≡ texts branches.now) }
{
    let mut values = Vec::new(alloc);
    for branch in branches {
        values.push(json!(in alloc; branch.as_str())?)?;
    }
    Ok(Value::Array(values))
}

/// Returns the object of branches.
fn branches_value(alloc: Global, branches: &[Branch]) -> Result<Value, AllocError>
    ensures { IfOk result (λ value. data_of value ≡ branches_object branches.now) }
{
    let codes = branch_texts(alloc, branches)?;
    json!(in alloc; {"branches": codes})
}

/// Returns the text of the object of branches.
pub fn branches_json(alloc: Global, branches: &[Branch]) -> Result<Vec<u8>, AllocError>
    ensures { IfOk result (λ text. text.items ≡ compact_text (branches_object branches.now)) }
{
    branches_value(alloc, branches)?.to_vec(alloc)
}

/// Returns the object of a field.
fn field_value(alloc: Global, view: &FieldView) -> Result<Value, AllocError>
    ensures { IfOk result (λ value. data_of value ≡ field_object view.now) }
{
    json!(in alloc; {
        "article": view.article.as_str(),
        "branch": view.branch.as_str(),
        "hi": view.hi.get(),
        "inf": view.inf.get(),
        "lo": view.lo.get(),
        "sup": view.sup.get(),
        "value": view.value.get(),
    })
}

/// Returns the text of a field's object.
pub fn field_json(alloc: Global, view: &FieldView) -> Result<Vec<u8>, AllocError>
    ensures { IfOk result (λ text. text.items ≡ compact_text (field_object view.now)) }
{
    field_value(alloc, view)?.to_vec(alloc)
}

/// Returns the object of what is kept under a key.
fn kept_value(alloc: Global, view: &KeptView) -> Result<Value, AllocError>
    requires { IsUtf8 view.now.words.now }
    ensures { IfOk result (λ value. data_of value ≡ placed_object view.now.words.now view.now.place) }
{
    json!(in alloc; {"command": utf8_text(view.words), "place": view.place})
}

/// Returns the text of the object of what is kept under a key.
pub fn kept_json(alloc: Global, view: &KeptView) -> Result<Vec<u8>, AllocError>
    requires { IsUtf8 view.now.words.now }
    ensures { IfOk result (λ text. text.items ≡ compact_text (placed_object view.now.words.now view.now.place)) }
{
    kept_value(alloc, view)?.to_vec(alloc)
}

/// Returns the object of a command that is done.
fn place_value(alloc: Global, place: u64) -> Result<Value, AllocError>
    ensures { IfOk result (λ value. data_of value ≡ place_object place) }
{
    json!(in alloc; {"place": place})
}

/// Returns the text of the object of a command that is done.
pub fn place_json(alloc: Global, place: u64) -> Result<Vec<u8>, AllocError>
    ensures { IfOk result (λ text. text.items ≡ compact_text (place_object place)) }
{
    place_value(alloc, place)?.to_vec(alloc)
}

/// Returns the object of a command that is refused.
fn refused_value(alloc: Global, refusal: Refusal, line: u64) -> Result<Value, AllocError>
    ensures { IfOk result (λ value. data_of value ≡ refused_object refusal line) }
{
    json!(in alloc; {"code": refusal.code(), "line": line, "refused": refusal.name()})
}

/// Returns the text of the object of a command that is refused.
pub fn refused_json(alloc: Global, refusal: Refusal, line: u64) -> Result<Vec<u8>, AllocError>
    ensures { IfOk result (λ text. text.items ≡ compact_text (refused_object refusal line)) }
{
    refused_value(alloc, refusal, line)?.to_vec(alloc)
}

/// Returns the object of an order line.
fn line_value(alloc: Global, line: &Line) -> Result<Value, AllocError>
    ensures { IfOk result (λ value. data_of value ≡ line_object line.now) }
{
    json!(in alloc; {
        "article": line.article.as_str(),
        "branch": line.branch.as_str(),
        "held": line.held.get(),
        "used": line.used.get(),
        "way": way_text(line.way),
    })
}

/// Returns the objects of order lines.
fn line_values(alloc: Global, lines: &[Line]) -> Result<Value, AllocError>
    ensures { IfOk result (λ value. data_of value ≡ line_objects lines.now) }
{
    let mut values = Vec::new(alloc);
    for line in lines {
        values.push(line_value(alloc, line)?)?;
    }
    Ok(Value::Array(values))
}

/// Returns the object of an order, made from its view.
fn order_value(alloc: Global, view: &OrderView) -> Result<Value, AllocError>
    ensures { IfOk result (λ value. data_of value ≡ view_object view.now) }
{
    let lines = line_values(alloc, view.lines)?;
    json!(in alloc; {
        "kind": kind_text(view.kind),
        "lines": lines,
        "number": view.number.get(),
        "state": state_text(view.state),
        "until": view.until.get(),
    })
}

/// Returns the text of the object of an order, made from its view.
pub fn order_json(alloc: Global, view: &OrderView) -> Result<Vec<u8>, AllocError>
    ensures { (order : Order) → ShowsOrder order view.now → IfOk result
        (λ text. text.items ≡ compact_text (order_object order)) }
{
    order_value(alloc, view)?.to_vec(alloc)
}

/// Returns the object of the order of that number, or `null` where there is none.
fn numbered_value(alloc: Global, book: &Book, number: OrderNo) -> Result<Value, AllocError>
    ensures { IfOk result (λ value. data_of value ≡ numbered_object book.now.ledger number) }
{
    match book.order(number) {
        Some(view) => order_value(alloc, &view),
        None => Ok(Value::Null),
    }
}

/// Returns the objects of the orders of these numbers.
fn listed_values(alloc: Global, book: &Book, numbers: &[OrderNo]) -> Result<Value, AllocError>
    ensures { IfOk result (λ value. data_of value ≡ listed_objects book.now.ledger numbers.now) }
{
    let mut values = Vec::new(alloc);
    for number in numbers {
        values.push(numbered_value(alloc, book, *number)?)?;
    }
    Ok(Value::Array(values))
}

/// Returns the object of a list of orders.
fn listed_value(alloc: Global, book: &Book, numbers: &[OrderNo]) -> Result<Value, AllocError>
    ensures { IfOk result (λ value. data_of value ≡ listed_object book.now.ledger numbers.now) }
{
    let orders = listed_values(alloc, book, numbers)?;
    json!(in alloc; {"orders": orders})
}

/// Returns the text of the object of a list of the orders of these numbers.
pub fn orders_json(alloc: Global, book: &Book, numbers: &[OrderNo]) -> Result<Vec<u8>, AllocError>
    ensures { IfOk result (λ text. text.items ≡ compact_text (listed_object book.now.ledger numbers.now)) }
{
    listed_value(alloc, book, numbers)?.to_vec(alloc)
}
