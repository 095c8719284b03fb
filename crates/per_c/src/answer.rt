//! What a call answers, before it is put where C has it.

ghost use Rattle.std.specs.Prelude.{◌≡◌, ◌<◌, ◌≤◌, length, take, drop, IfOk, IfErr, true, false};
ghost use Rattle.per_c.specs.Answers.{AreRecoded, HasNoJson, IsJson, IsRefused};

use crate::json::shown;
use crate::refusal::Refusal;
use crate::request::options_of;
use per_lines::recode::Recoding;
use per_lines::types::{NamedType, done};
use std::alloc::Global;

/// The canonical octets of the value that octets spell, of the type and with the options that these numbers stand for.
pub fn answer(
    alloc: Global,
    options: u32,
    type_number: u32,
    octets: &[u8],
) -> Result<Vec<u8>, Refusal>
    ensures ok { IfOk result (λ canonical. AreRecoded options type_number octets.now canonical.items) }
    ensures err { IfErr result (λ refusal. IsRefused options type_number octets.now refusal) }
{
    let (codec, padding) = options_of(options).ok_or(Refusal::UnknownOptions)?;
    let type_name = NamedType::at(type_number as usize).ok_or(Refusal::UnknownType)?;
    let recoding = Recoding {
        codec,
        padding,
        octets,
    };
    Ok(done(alloc, type_name, &recoding)?)
}

/// The JSON text of the value that octets spell, of the type and with the options that these numbers stand for.
pub fn json(
    alloc: Global,
    options: u32,
    type_number: u32,
    octets: &[u8],
) -> Result<Vec<u8>, Refusal>
    ensures ok { IfOk result (λ text. IsJson options type_number octets.now text.items) }
    ensures err { IfErr result (λ refusal. HasNoJson options type_number octets.now refusal) }
{
    let (codec, padding) = options_of(options).ok_or(Refusal::UnknownOptions)?;
    match NamedType::at(type_number as usize) {
        Some(type_name) => shown(alloc, codec, padding, type_name, octets),
        None => Err(Refusal::UnknownType),
    }
}

/// Puts octets in the front of a room, if they fit. Answers whether they do.
pub fn put(octets: &[u8], room: &mut [u8]) -> bool
    ensures fits { result ≡ true → length octets.now ≤ length room.old }
    ensures lacks { result ≡ false → length room.old < length octets.now }
    ensures front { result ≡ true → take (length octets.now) room.new ≡ octets.now }
    ensures behind { result ≡ true → drop (length octets.now) room.new ≡ drop (length octets.now) room.old }
    ensures kept { result ≡ false → room.new ≡ room.old }
{
    if octets.len() > room.len() {
        return false;
    }
    room[..octets.len()].copy_from_slice(octets);
    true
}
