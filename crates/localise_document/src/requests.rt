ghost use Rattle.std.specs.Prelude.{◌≡◌, Err, Ok, IfErr, IfOk};
ghost use Rattle.serde_json.specs.View.{view};
ghost use Rattle.localise_document.specs.Misread.{IsFaultOf};
ghost use Rattle.localise_document.specs.Objects.{IsRequestObject};
ghost use Rattle.localise_document.specs.Requests.{request_of};

use crate::Field;
use crate::error::Misread;
use crate::members::members_by_name;
use crate::rows::RowReader;
use crate::values::{needed_count, needed_text, optional_text, text_list_or_empty, text_or_empty};
use localise_texts::Request;
use serde_json::Value;
use std::alloc::Global;

/// What reads requests.
pub(crate) struct RequestReader;

impl RowReader for RequestReader {
    type Row = Request;

    ghost row_of = { λ _ d. request_of d };

    fn read(&self, alloc: Global, value: Value) -> Result<Request, Misread<Field>> {
        request_from(alloc, value)
    }
}

/// A request's members.
#[derive(Drop)]
pub(crate) struct RequestMembers {
    tag: Option<Value>,
    context: Option<Value>,
    singular: Option<Value>,
    plural: Option<Value>,
    count: Option<Value>,
    placeholder: Option<Value>,
    items: Option<Value>,
}

/// The members of the request that a value is.
#[tactic(auto, unfolding(crate::specs::Requests::request_of))]
fn members_from(value: Value) -> Result<RequestMembers, Field>
    ensures ok { IfOk result (IsRequestObject (view value)) }
    ensures err { IfErr result (λ field. request_of (view value) ≡ Err field) }
{
    let Value::Object(members) = value else {
        return Err(Field::Whole);
    };
    let names = [
        "context",
        "count",
        "items",
        "placeholder",
        "plural",
        "singular",
        "tag",
    ];
    let Some(mut slots) = members_by_name::<7>(members, &names) else {
        return Err(Field::Unknown);
    };
    Ok(RequestMembers {
        tag: slots[6].take(),
        context: slots[0].take(),
        singular: slots[5].take(),
        plural: slots[4].take(),
        count: slots[1].take(),
        placeholder: slots[3].take(),
        items: slots[2].take(),
    })
}

/// The request that a value is.
#[tactic(auto, unfolding(crate::specs::Requests::request_of, crate::specs::Requests::request_in))]
fn request_from(alloc: Global, value: Value) -> Result<Request, Misread<Field>>
    ensures ok { IfOk result (λ request. request_of (view value) ≡ Ok request) }
    ensures err { IfErr result (IsFaultOf (request_of (view value))) }
{
    let members = members_from(value)?;
    Ok(Request {
        tag: needed_text(members.tag, Field::Tag)?,
        context: optional_text(members.context, Field::Context)?,
        singular: needed_text(members.singular, Field::Singular)?,
        plural: needed_text(members.plural, Field::Plural)?,
        count: needed_count(members.count, Field::Count)?,
        placeholder: text_or_empty(alloc, members.placeholder, Field::Placeholder)?,
        items: text_list_or_empty(alloc, members.items, Field::Items)??,
    })
}
