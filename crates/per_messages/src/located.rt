//! Where JSON tells no value of a type.

ghost use Rattle.std.specs.Prelude.{◌≡◌, ◌≤◌, ℕ, suc, true, false, length, decimal, None, Some, is_some, option_map};
ghost use Rattle.std.specs.Prelude.{string_bytes, IfErr, IfOk, IfSome, MatchResult, OnOk};
ghost use Rattle.std.specs.Option.{option_and_then};
ghost use Rattle.json.specs.Find.{as_object};
ghost use Rattle.json.specs.Json.{Json as a_json, max_depth};
ghost use Rattle.json.specs.Value.{items_view, members_view, value_view};
ghost use Rattle.rasn_dynamic.specs.Values.{slot_of};
ghost use Rattle.rasn_dynamic.specs.declared.types.Kind.{Kind as a_kind};
ghost use Rattle.per_messages.specs.Paths.{IsFaultOf, IsPlaced, IsRefused, IsRefusedItem, IsRefusedMember};
ghost use Rattle.per_messages.specs.Paths.{ItemsAreTold, lacking, Leads, LeadsOn, MembersAreTold, added_type};
ghost use Rattle.per_messages.specs.Paths.{addition_type, component_type, element_type, is_missing, member_type};
ghost use Rattle.per_messages.specs.Paths.{members_read, missing_in, only_member, onward};
ghost use Rattle.rasn_dynamic_jer.specs.Shown.{group_in};
ghost use Rattle.rasn_dynamic_jer.specs.FromJson.{IsNoText, IsTextOf, IsUntold, told_at};

use json::{MAX_DEPTH, Reader, Scratch, Value as Json};
use rasn_dynamic::types::{Component, Kind, Presence, Types, kind_within};
use rasn_dynamic::values::Value;
use rasn_dynamic_jer::from_json_error::FromJsonError;
use rasn_dynamic_jer::json_parts::{items_of, member_count, members_of};
use rasn_dynamic_jer::names::{alternative_place, row_place};
use rasn_dynamic_jer::read::{parse, read_at};
use rasn_dynamic_jer::table::group_in;
use std::alloc::{AllocError, Global};
use std::slice;

/// Why JSON tells no value of a type, and where.
#[derive(Debug, Drop, PartialEq, Eq)]
pub struct Fault {
    /// Why it tells none.
    pub error: FromJsonError,
    /// The names of members and the numbers of items, from 1 on, from the whole text to the innermost part that is
    /// refused, with a full stop between two of them (X.680 15), such as `protocolIEs.3.value`; empty for the whole
    /// text. Of more parts that are refused it is the first that is for that reason. The name of a member that an
    /// object's type doesn't have comes last, and so does that of a component of the root that lacks.
    pub path: String,
    /// Of a text that is no JSON, how many octets are in front of where its reader stopped.
    pub octet: Option<usize>,
}

/// The value that `from_json` reads, or where it is refused: the error is one of those that `from_json` answers of the
/// text, and each part of it on the path is refused too. It then takes as many times as long as parts nest on the path.
/// Where memory runs out, the error says that, and the path and the octet may say less.
pub fn from_json_located(
    alloc: Global,
    types: &Types,
    place: usize,
    text: &[u8],
) -> Result<Value, Fault>
    ensures read { IfOk result (IsTextOf types.now.kinds.items place text.now) }
    ensures refused { IfErr result (λ f. IsNoText types.now.kinds.items place text.now f.error) }
    ensures located { IfErr result (IsFaultOf types.now.kinds.items place text.now) }
    ensures within { IfErr result (λ f. IfSome f.octet (λ n. n ≤ length text.now)) }
{
    let mut scratch = Scratch::new(alloc);
    match parse(alloc, text, &mut scratch) {
        Ok(json) => read_whole(alloc, &types.kinds, place, &json),
        Err(error) => Err(Fault {
            error,
            path: String::new(alloc),
            octet: octets_passed(alloc, text),
        }),
    }
}

/// How many octets are in front of where the reader of JSON stops in a text that is none, where memory lasts.
fn octets_passed(alloc: Global, text: &[u8]) -> Option<usize>
    ensures { IfSome result (λ n. n ≤ length text.now) }
{
    let passed = match str::from_utf8(text) {
        Ok(text) => passed_in(alloc, text)?,
        Err(error) => error.valid_up_to(),
    };
    Some(passed.min(text.len()))
}

/// The same of a text in UTF-8.
fn passed_in(alloc: Global, text: &str) -> Option<usize> {
    let mut scratch = Scratch::new(alloc);
    let mut reader = Reader::new(text, &mut scratch).ok()?;
    if Json::read(alloc, &mut reader, MAX_DEPTH).is_ok() && reader.next().is_none() {
        return None;
    }
    Some(reader.offset())
}

/// The value of the type at a place that JSON tells, or where it tells none.
fn read_whole(alloc: Global, kinds: &[Kind], place: usize, json: &Json<'_>) -> Result<Value, Fault>
    ensures told { MatchResult result
        (λ x. option_map Some (told_at kinds.now max_depth place (value_view json.now)) ≡ Some (slot_of x))
        (λ f. IsUntold (told_at kinds.now max_depth place (value_view json.now)) f.error) }
    ensures located { IfErr result (IsPlaced kinds.now place (value_view json.now)) }
    ensures within { IfErr result (λ f. f.octet ≡ None) }
{
    let reason = match read_at(alloc, kinds, MAX_DEPTH, place, json) {
        Ok(value) => return Ok(value),
        Err(error) => error,
    };
    let mut path = String::new(alloc);
    let located = locate(
        &mut path,
        alloc,
        kinds,
        MAX_DEPTH,
        Some(place),
        json,
        reason,
    );
    let error = match located {
        Ok(()) => reason,
        Err(_) => FromJsonError::OutOfMemory,
    };
    Err(Fault {
        error,
        path,
        octet: None,
    })
}

/// Appends to the path of JSON of the type at a place, if there is one, the way to the innermost part that is refused:
/// each time to one that is refused for this reason, or where none is, for another.
#[cycle(locating)]
fn locate(
    path: &mut String,
    alloc: Global,
    kinds: &[Kind],
    levels: usize,
    place: Option<usize>,
    json: &Json<'_>,
    error: FromJsonError,
) -> Result<(), AllocError>
    ensures { OnOk result (LeadsOn kinds.now levels place (value_view json.now)
        (string_bytes path.old) (string_bytes path.new)) }
{
    let Some(place) = place else {
        return Ok(());
    };
    let Some(kind) = kind_within(kinds, place) else {
        return Ok(());
    };
    match (levels.checked_sub(1), element_type(kind)) {
        (Some(below), Some(of)) => locate_item(path, alloc, kinds, below, of, json, error),
        (Some(below), None) => locate_member(path, alloc, kinds, below, kind, json, error),
        (None, _) => Ok(()),
    }
}

/// The same of an array whose items are of the type at a place.
#[cycle(locating)]
fn locate_item(
    path: &mut String,
    alloc: Global,
    kinds: &[Kind],
    levels: usize,
    of: usize,
    json: &Json<'_>,
    error: FromJsonError,
) -> Result<(), AllocError>
    ensures { (k : a_kind) → element_type k ≡ Some of → OnOk result (Leads kinds.now (suc levels) (Some k)
        (value_view json.now) (string_bytes path.old) (string_bytes path.new)) }
{
    let Some(items) = items_of(json) else {
        return Ok(());
    };
    match item_to_name(alloc, kinds, levels, of, items, error)? {
        Some((number, item)) => {
            push_number(path, alloc, number)?;
            locate(path, alloc, kinds, levels, Some(of), item, error)
        }
        None => Ok(()),
    }
}

/// The number, from 1 on, and the JSON of the first item that is refused for this reason, or where none is, for
/// another.
fn item_to_name<'json, 'text>(
    alloc: Global,
    kinds: &[Kind],
    levels: usize,
    of: usize,
    items: &'json [Json<'text>],
    error: FromJsonError,
) -> Result<Option<(usize, &'json Json<'text>)>, AllocError>
    ensures found { IfOk result (λ o. IfSome o (λ x. IsRefusedItem kinds.now levels of (items_view items.now)
        x.0 (value_view x.1.now))) }
    ensures none { IfOk result (λ o. o ≡ None → ItemsAreTold kinds.now levels of (items_view items.now)) }
{
    match refused_item(alloc, kinds, levels, of, items, Some(error))? {
        Some(found) => Ok(Some(found)),
        None => refused_item(alloc, kinds, levels, of, items, None),
    }
}

/// The number and the JSON of the first item that is refused for a reason, or for any.
fn refused_item<'json, 'text>(
    alloc: Global,
    kinds: &[Kind],
    levels: usize,
    of: usize,
    items: &'json [Json<'text>],
    reason: Option<FromJsonError>,
) -> Result<Option<(usize, &'json Json<'text>)>, AllocError>
    ensures found { IfOk result (λ o. IfSome o (λ x. IsRefusedItem kinds.now levels of (items_view items.now)
        x.0 (value_view x.1.now))) }
    ensures none { reason ≡ None →
        IfOk result (λ o. o ≡ None → ItemsAreTold kinds.now levels of (items_view items.now)) }
{
    for (index, item) in items.iter().enumerate() {
        if is_refused(alloc, kinds, levels, Some(of), item, reason)? {
            return Ok(Some((index + 1, item)));
        }
    }
    Ok(None)
}

/// The same of an object: to a member that is refused for this reason, or else to a component that lacks, or else to a
/// member that is refused for another reason.
#[cycle(locating)]
fn locate_member(
    path: &mut String,
    alloc: Global,
    kinds: &[Kind],
    levels: usize,
    kind: &Kind,
    json: &Json<'_>,
    error: FromJsonError,
) -> Result<(), AllocError>
    ensures { element_type kind.now ≡ None → OnOk result (Leads kinds.now (suc levels) (Some kind.now)
        (value_view json.now) (string_bytes path.old) (string_bytes path.new)) }
{
    let Some(members) = members_read(kind, json) else {
        return Ok(());
    };
    if let Some(member) = refused_member(alloc, kinds, levels, kind, members, Some(error))? {
        return locate_in(path, alloc, kinds, levels, kind, member, error);
    }
    if let Some(component) = lacking(kind, json) {
        return push_part(path, component.name.as_str());
    }
    match refused_member(alloc, kinds, levels, kind, members, None)? {
        Some(member) => locate_in(path, alloc, kinds, levels, kind, member, error),
        None => Ok(()),
    }
}

/// Appends the name of a member that is refused, and goes on in it.
#[cycle(locating)]
fn locate_in(
    path: &mut String,
    alloc: Global,
    kinds: &[Kind],
    levels: usize,
    kind: &Kind,
    member: &(&str, Json<'_>),
    error: FromJsonError,
) -> Result<(), AllocError>
    ensures { (j : a_json) → IsRefusedMember kinds.now levels kind.now j member.now.0.now (value_view member.now.1)
        → OnOk result (Leads kinds.now (suc levels) (Some kind.now) j (string_bytes path.old)
        (string_bytes path.new)) }
{
    let of = member_type(kinds, kind, member.0);
    push_part(path, member.0)?;
    locate(path, alloc, kinds, levels, of, &member.1, error)
}

/// The first member that is refused for a reason, or for any.
fn refused_member<'json, 'text>(
    alloc: Global,
    kinds: &[Kind],
    levels: usize,
    kind: &Kind,
    members: &'json [(&'text str, Json<'text>)],
    reason: Option<FromJsonError>,
) -> Result<Option<&'json (&'text str, Json<'text>)>, AllocError>
    ensures found { IfOk result (λ o. IfSome o (λ x. (j : a_json) → as_object j ≡ Some (members_view members.now)
        → IsRefusedMember kinds.now levels kind.now j x.now.0.now (value_view x.now.1))) }
    ensures none { reason ≡ None →
        IfOk result (λ o. o ≡ None → MembersAreTold kinds.now levels kind.now (members_view members.now)) }
{
    for member in members {
        let of = member_type(kinds, kind, member.0);
        if is_refused(alloc, kinds, levels, of, &member.1, reason)? {
            return Ok(Some(member));
        }
    }
    Ok(None)
}

/// The members of an object that are read by the types of their names: all of a record's, and the only one of a
/// CHOICE's and an open type's.
fn members_read<'json, 'text>(
    kind: &Kind,
    json: &'json Json<'text>,
) -> Option<&'json [(&'text str, Json<'text>)]>
    ensures { option_map (λ s. members_view s.now) result ≡ members_read kind.now (value_view json.now) }
{
    match kind {
        Kind::Record(_) => members_of(json),
        Kind::Choice(_) | Kind::Open(_) => only_member(json),
        _ => None,
    }
}

/// The members of an object that has just one.
fn only_member<'json, 'text>(json: &'json Json<'text>) -> Option<&'json [(&'text str, Json<'text>)]>
    ensures { option_map (λ s. members_view s.now) result ≡ only_member (value_view json.now) }
{
    if member_count(json) == 1 {
        return members_of(json);
    }
    None
}

/// The first root component of a record that has to be there, and lacks in an object.
fn lacking<'kinds>(kind: &'kinds Kind, json: &Json<'_>) -> Option<&'kinds Component>
    ensures { option_map (λ c. c.now) result ≡ lacking (value_view json.now) kind.now }
{
    match kind {
        Kind::Record(record) => missing_in(record.root(), json),
        _ => None,
    }
}

/// The first of some components that has to be there and lacks in an object.
fn missing_in<'kinds>(components: &'kinds [Component], json: &Json<'_>) -> Option<&'kinds Component>
    ensures { option_map (λ c. c.now) result ≡ missing_in (value_view json.now) components.now }
{
    match components {
        [] => None,
        [component, others @ ..] => {
            if is_missing(component, json) {
                return Some(component);
            }
            missing_in(others, json)
        }
    }
}

/// Whether a component has to be there, and lacks in an object.
fn is_missing(component: &Component, json: &Json<'_>) -> bool
    ensures { result ≡ is_missing (value_view json.now) component.now }
{
    matches!(component.presence, Presence::Required) && json.get(component.name.as_str()).is_none()
}

/// Whether JSON tells no value of the type at a place for a reason, or for any; where there is no type for its name,
/// for the reasons that say so.
fn is_refused(
    alloc: Global,
    kinds: &[Kind],
    levels: usize,
    place: Option<usize>,
    json: &Json<'_>,
    reason: Option<FromJsonError>,
) -> Result<bool, AllocError>
    ensures yes { IfOk result (λ b. b ≡ true → IsRefused kinds.now levels place (value_view json.now)) }
    ensures no { reason ≡ None → IfOk result (λ b. b ≡ false →
        is_some (option_and_then (λ i. told_at kinds.now levels i (value_view json.now)) place) ≡ true) }
{
    let Some(place) = place else {
        return Ok(tells_of_names(reason));
    };
    match read_at(alloc, kinds, levels, place, json) {
        Ok(_) => Ok(false),
        Err(FromJsonError::OutOfMemory) => Err(AllocError),
        Err(own) => Ok(is_for(own, reason)),
    }
}

/// Whether a reason, or any, may be that a member has another name than those of a type.
fn tells_of_names(reason: Option<FromJsonError>) -> bool
    ensures { reason ≡ None → result ≡ true }
{
    match reason {
        None => true,
        Some(FromJsonError::UnknownMember) => true,
        Some(FromJsonError::UnknownAlternative) => true,
        Some(_) => false,
    }
}

/// Whether an error is a reason, or any.
fn is_for(error: FromJsonError, reason: Option<FromJsonError>) -> bool
    ensures { reason ≡ None → result ≡ true }
{
    match reason {
        None => true,
        Some(reason) => error == reason,
    }
}

/// The place of the type of an array's items.
fn element_type(kind: &Kind) -> Option<usize>
    ensures { result ≡ element_type kind.now }
{
    match kind {
        Kind::List(of, _) | Kind::SetOf(of, _) => Some(*of),
        _ => None,
    }
}

/// The place of the type of an object's member with a name.
fn member_type(kinds: &[Kind], kind: &Kind, name: &str) -> Option<usize>
    ensures { result ≡ member_type kinds.now kind.now name.now }
{
    match kind {
        Kind::Record(record) => match component_type(record.root(), name) {
            Some(of) => Some(of),
            None => added_type(kinds, record.behind(), name),
        },
        Kind::Choice(choice) => Some(choice.at(alternative_place(choice, name)?)?.of),
        Kind::Open(set) => Some(set.row(row_place(set, name)?)?.of),
        _ => None,
    }
}

/// The place of the type of the first of some components that has a name.
fn component_type(components: &[Component], name: &str) -> Option<usize>
    ensures { result ≡ component_type components.now name.now }
{
    match components {
        [] => None,
        [component, others @ ..] => {
            if component.name.as_str() == name {
                return Some(component.of);
            }
            component_type(others, name)
        }
    }
}

/// The same of additions, of groups by their components.
fn added_type(kinds: &[Kind], additions: &[Component], name: &str) -> Option<usize>
    ensures { result ≡ added_type kinds.now additions.now name.now }
{
    match additions {
        [] => None,
        [addition, others @ ..] => match addition_type(kinds, addition, name) {
            Some(of) => Some(of),
            None => added_type(kinds, others, name),
        },
    }
}

/// The same of an addition.
fn addition_type(kinds: &[Kind], addition: &Component, name: &str) -> Option<usize>
    ensures { result ≡ addition_type (group_in kinds.now addition.now) addition.now name.now }
{
    match group_in(kinds, addition) {
        Some(group) => component_type(group.root(), name),
        None => component_type(slice::from_ref(addition), name),
    }
}

/// Appends the number of an item to a path.
fn push_number(path: &mut String, alloc: Global, number: usize) -> Result<(), AllocError>
    ensures { OnOk result (string_bytes path.new ≡ onward (string_bytes path.old) (decimal number)) }
{
    let text = format!(in alloc; "{number}")?;
    push_part(path, text.as_str())
}

/// Appends the name or the number of a part to a path.
fn push_part(path: &mut String, part: &str) -> Result<(), AllocError>
    ensures { OnOk result (string_bytes path.new ≡ onward (string_bytes path.old) part.now) }
{
    if !path.is_empty() {
        path.push('.')?;
    }
    path.push_str(part)
}
