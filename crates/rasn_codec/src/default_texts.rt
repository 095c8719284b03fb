//! Defaults of character strings (X.680 41).

ghost use Rattle.std.specs.Prelude.{◌≡◌, nat_lt, IfOk};
ghost use Rattle.rasn_types.specs.Alphabets.{has, numeric, printable, visible};
ghost use Rattle.rasn_types.specs.Values.{characters, octets};
ghost use Rattle.rasn_codec.specs.AtDefault.{are_all, kept};

use crate::defaults::DefaultOf;
use rasn_schema::schema::Constraints;
use rasn_strings::strings::{
    Ia5String, NumericString, PrintableString, StaticPermittedAlphabet, VisibleString,
};
use rasn_types::octet_strings::Utf8String;
use std::alloc::{AllocError, Global};

/// Characters, each an octet, as a default of a character string: `Text(*b"none")`. Where one isn't of the type, they
/// stand for none.
#[derive(Clone, Copy, Debug)]
pub struct Text<const N: usize>(pub [u8; N]);

/// Characters, as a default of UTF8String.
#[derive(Clone, Copy, Debug)]
pub struct Utf8Text(pub &'static str);

impl DefaultOf<Utf8String> for Utf8Text {
    ghost default = { λ d. octets d.0.now };

    fn stands_for(&self, component: &Utf8String, _constraints: &Constraints) -> bool {
        component.as_str() == self.0
    }

    fn made(&self, alloc: Global) -> Result<Utf8String, AllocError> {
        String::from_str(alloc, self.0)
    }
}

impl<const N: usize> DefaultOf<Ia5String> for Text<N> {
    ghost default = { λ d. characters (kept (λ c. nat_lt c 128) d.0) };

    fn stands_for(&self, component: &Ia5String, _constraints: &Constraints) -> bool {
        component.as_iso646_bytes() == own::<Ia5String>(&self.0)
    }

    fn made(&self, alloc: Global) -> Result<Ia5String, AllocError> {
        string_of::<Ia5String>(alloc, &self.0)
    }
}

impl<const N: usize> DefaultOf<VisibleString> for Text<N> {
    ghost default = { λ d. characters (kept (has visible) d.0) };

    fn stands_for(&self, component: &VisibleString, _constraints: &Constraints) -> bool {
        component.as_iso646_bytes() == own::<VisibleString>(&self.0)
    }

    fn made(&self, alloc: Global) -> Result<VisibleString, AllocError> {
        string_of::<VisibleString>(alloc, &self.0)
    }
}

impl<const N: usize> DefaultOf<PrintableString> for Text<N> {
    ghost default = { λ d. characters (kept (has printable) d.0) };

    fn stands_for(&self, component: &PrintableString, _constraints: &Constraints) -> bool {
        component.as_bytes() == own::<PrintableString>(&self.0)
    }

    fn made(&self, alloc: Global) -> Result<PrintableString, AllocError> {
        string_of::<PrintableString>(alloc, &self.0)
    }
}

impl<const N: usize> DefaultOf<NumericString> for Text<N> {
    ghost default = { λ d. characters (kept (has numeric) d.0) };

    fn stands_for(&self, component: &NumericString, _constraints: &Constraints) -> bool {
        component.as_bytes() == own::<NumericString>(&self.0)
    }

    fn made(&self, alloc: Global) -> Result<NumericString, AllocError> {
        string_of::<NumericString>(alloc, &self.0)
    }
}

/// The characters, where each is one of a type, else none.
fn own<S: StaticPermittedAlphabet>(characters: &[u8]) -> &[u8]
    ensures { result.now ≡ kept (has S.alphabet) characters.now }
{
    if are_own::<S>(characters) {
        characters
    } else {
        &[]
    }
}

/// Whether each character is one of a type.
fn are_own<S: StaticPermittedAlphabet>(characters: &[u8]) -> bool
    ensures { result ≡ are_all (has S.alphabet) characters.now }
{
    for character in characters {
        if !S::contains_character(u32::from(*character)) {
            return false;
        }
    }
    true
}

/// The string of the characters, where each is one of its type, else the empty one. The only error is want of memory.
fn string_of<S: StaticPermittedAlphabet>(alloc: Global, characters: &[u8]) -> Result<S, AllocError>
    ensures { IfOk result (λ s. S.characters s ≡ kept (has S.alphabet) characters.now) }
{
    let mut string = S::new(alloc);
    string.push_octets(own::<S>(characters))?;
    Ok(string)
}
