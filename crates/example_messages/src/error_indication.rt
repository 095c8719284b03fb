//! An NGAP message (TS 38.413) is shown to its leaves by a schema file, its Cause is changed, and it is written again.

use anyhow::{Context, Result};
use per_dynamic::aper;
use per_dynamic::open_types::{read_open_types, write_open_types};
use rasn_dynamic::types::Types;
use rasn_dynamic_jer::read::from_json;
use rasn_dynamic_jer::write::to_json;
use rasn_types::types::Codec;
use schema_file::load::load;
use std::alloc::Global;
use std::fs;
use std::rt::Files;

const PDU: &str = "NGAP-PDU-Descriptions.NGAP-PDU";

const MESSAGE: &[u8] = b"00094014000003000a40020000005540020000000f400160";

/// The JSON of the message that octets spell, whose open types are read by their object sets.
fn shown(alloc: Global, types: &Types, place: usize, octets: &[u8]) -> Result<Vec<u8>> {
    let message = aper::decode(alloc, types, place, octets)?;
    let opened = read_open_types(alloc, Codec::Aper, types, place, message)?;
    Ok(to_json(alloc, types, place, &opened)?)
}

/// The octets of the message that JSON tells.
fn made(alloc: Global, types: &Types, place: usize, json: &str) -> Result<Vec<u8>> {
    let opened = from_json(alloc, types, place, json.as_bytes())?;
    let message = write_open_types(alloc, Codec::Aper, types, place, opened)?;
    Ok(aper::encode(alloc, types, place, &message)?)
}

/// The text with another Cause.
fn changed(alloc: Global, json: &str) -> Result<String> {
    let (before, after) = json
        .split_once("transfer-syntax-error")
        .context("another Cause")?;
    Ok(format!(in alloc; "{before}semantic-error{after}")?)
}

/// Prints the message as JSON, and the octets of the message that was changed.
pub fn run(rt: &(impl Files + Print + AllocGlobal)) -> Result<()> {
    let alloc = rt.alloc();
    let types = load(alloc, fs::read(rt, "ngap.schema")?.as_slice())?;
    let place = types.place(PDU).context("no such type")?;
    let octets = hex::decode(alloc, MESSAGE)?;
    let text = shown(alloc, &types, place, octets.as_slice())?;
    let json = str::from_utf8(text.as_slice())?;
    println!(rt; "{json}")?;
    let other = changed(alloc, json)?;
    let octets = made(alloc, &types, place, other.as_str())?;
    println!(rt; "{}", hex::encode(alloc, octets.as_slice())?)?;
    Ok(())
}
