//! The calls that `include/per.h` declares.

ghost use Rattle.std.specs.Prelude.{◌≡◌, ◌≢◌, ◌<◌, [], ℕ, List, length, slice_get, Some, None};
ghost use Rattle.per_lines.specs.declared.types.NamedType.{NamedType as a_type};
ghost use Rattle.per_c.specs.Answers.{AreRecoded, HasNoJson, IsAnswerPut, IsAnswerUnput, IsJson, IsRefused};
ghost use Rattle.per_c.specs.Answers.{IsRefusedBy, IsUnputBy, Puts};
ghost use Rattle.per_lines.specs.Types.{types, word_of};
ghost use Rattle.per_c.specs.Numbers.{code_of, last_code, name_of, in_c};
ghost use Rattle.per_c.specs.declared.refusal.Refusal.{Refusal as a_refusal};

use crate::answer::{answer, json, put};
use crate::name::Name;
use crate::refusal::Refusal;
use per_lines::types::NamedType;
use std::alloc::Global;

/// Whether octets spell a value of a type that has a canonical encoding: 0, or the code of a refusal.
#[unsafe(no_mangle)]
pub extern "C" fn per_check(alloc: Global, options: u32, type_number: u32, octets: &[u8]) -> u32
    ensures answered { result ≡ 0 →
        (canonical : List ℕ) × AreRecoded options type_number octets.now canonical }
    ensures refused { result ≢ 0 → IsRefusedBy options type_number octets.now result }
{
    match answer(alloc, options, type_number, octets) {
        Ok(_) => 0,
        Err(refusal) => refusal.code(),
    }
}

/// Puts the canonical encoding of the value that octets spell in `out`, and how many octets it has in `written`. Where
/// `out` is too small, it stays as it is. Answers 0, or the code of a refusal.
#[unsafe(no_mangle)]
pub extern "C" fn per_recode(
    alloc: Global,
    options: u32,
    type_number: u32,
    octets: &[u8],
    out: &mut [u8],
    written: &mut usize,
) -> u32
    ensures answered { result ≡ 0 → Puts (AreRecoded options type_number octets.now) out.old out.new written.new }
    ensures refused { result ≢ 0 → IsUnputBy (AreRecoded options type_number octets.now)
        (IsRefused options type_number octets.now) (length out.old) written.new result }
    ensures kept { result ≢ 0 → out.new ≡ out.old }
{
    let canonical = answer(alloc, options, type_number, octets);
    put_answer(canonical, out, written)
}

/// Puts the JSON text of the value that octets spell (X.697) in `out`, and how many octets it has in `written`. Where
/// `out` is too small, it stays as it is. Answers 0, or the code of a refusal.
#[unsafe(no_mangle)]
pub extern "C" fn per_json(
    alloc: Global,
    options: u32,
    type_number: u32,
    octets: &[u8],
    out: &mut [u8],
    written: &mut usize,
) -> u32
    ensures answered { result ≡ 0 → Puts (IsJson options type_number octets.now) out.old out.new written.new }
    ensures refused { result ≢ 0 → IsUnputBy (IsJson options type_number octets.now)
        (HasNoJson options type_number octets.now) (length out.old) written.new result }
    ensures kept { result ≢ 0 → out.new ≡ out.old }
{
    let text = json(alloc, options, type_number, octets);
    put_answer(text, out, written)
}

/// Puts an answer in `out`, if it fits, and how many octets it has in `written`. Answers 0, or the code of a refusal.
pub(crate) fn put_answer(
    answer: Result<Vec<u8>, Refusal>,
    out: &mut [u8],
    written: &mut usize,
) -> u32
    ensures answered { result ≡ 0 → IsAnswerPut (λ octets. octets.items) answer out.old out.new written.new }
    ensures refused { result ≢ 0 →
        IsAnswerUnput (λ octets. octets.items) answer (length out.old) written.new result }
    ensures kept { result ≢ 0 → out.new ≡ out.old }
{
    match answer {
        Ok(octets) => {
            *written = octets.len();
            if put(octets.as_slice(), out) {
                0
            } else {
                Refusal::NoRoom.code()
            }
        }
        Err(refusal) => {
            *written = 0;
            refusal.code()
        }
    }
}

/// The word that names a type, by its number; no octets where there is no such type.
#[unsafe(no_mangle)]
pub extern "C" fn per_type_name(type_number: u32) -> Name
    ensures known { (t : a_type) → slice_get types type_number ≡ Some t → result.text ≡ in_c (word_of t) }
    ensures unknown { slice_get types type_number ≡ None → result.text ≡ in_c [] }
{
    match NamedType::at(type_number as usize) {
        Some(type_name) => Name::new(type_name.word()),
        None => Name::new(""),
    }
}

/// The name of a refusal, by its code; no octets where there is no such refusal.
#[unsafe(no_mangle)]
pub extern "C" fn per_refusal_name(code: u32) -> Name
    ensures known { (refusal : a_refusal) → code ≡ code_of refusal → result.text ≡ in_c (name_of refusal) }
    ensures none { code ≡ 0 → result.text ≡ in_c [] }
    ensures unknown { last_code < code → result.text ≡ in_c [] }
{
    match Refusal::of_code(code) {
        Some(refusal) => Name::new(refusal.name()),
        None => Name::new(""),
    }
}
