//! The types of the library, and those of one value under constraints, are lawful (X.680, 51).
#![tactic(auto)]

ghost use Rattle.rasn_schema.specs.Lawful.{IsLawfulType};

use per_laws::computed::is_lawful;
use per_samples_a::bounded::{MinusOneTo254, OneToTenExtensible, ZeroTo65536};
use per_samples_a::half_bounded::{FromMinusOne, Natural, UpTo65535};
use per_samples_a::strings::{LettersAToE, OnlyX, ShortVisible};
use rasn_below::AsnType;
use rasn_below::types::{
    BitString, Contains, Date, Integer, NamedBits, OctetString, SetOf, UtcTime,
};

/// BOOLEAN, NULL, INTEGER, BIT STRING with and without names, OCTET STRING, UTCTime, DATE, a SET OF, and an OCTET
/// STRING that contains one.
pub fn library_types_are_lawful()
    ensures truth { let own = ⟦<bool as AsnType>⟧ in IsLawfulType (own.schema own.CONSTRAINTS) }
    ensures null { let own = ⟦<() as AsnType>⟧ in IsLawfulType (own.schema own.CONSTRAINTS) }
    ensures integer { let own = ⟦<Integer as AsnType>⟧ in IsLawfulType (own.schema own.CONSTRAINTS) }
    ensures bits { let own = ⟦<BitString as AsnType>⟧ in IsLawfulType (own.schema own.CONSTRAINTS) }
    ensures named_bits { let own = ⟦<NamedBits as AsnType>⟧ in IsLawfulType (own.schema own.CONSTRAINTS) }
    ensures octets { let own = ⟦<OctetString as AsnType>⟧ in IsLawfulType (own.schema own.CONSTRAINTS) }
    ensures time { let own = ⟦<UtcTime as AsnType>⟧ in IsLawfulType (own.schema own.CONSTRAINTS) }
    ensures date { let own = ⟦<Date as AsnType>⟧ in IsLawfulType (own.schema own.CONSTRAINTS) }
    ensures bag { let own = ⟦<SetOf<Integer> as AsnType>⟧ in IsLawfulType (own.schema own.CONSTRAINTS) }
    ensures contents { let own = ⟦<Contains<SetOf<Integer>> as AsnType>⟧ in
        IsLawfulType (own.schema own.CONSTRAINTS) }
{
    is_lawful::<bool>();
    is_lawful::<()>();
    is_lawful::<Integer>();
    is_lawful::<BitString>();
    is_lawful::<NamedBits>();
    is_lawful::<OctetString>();
    is_lawful::<UtcTime>();
    is_lawful::<Date>();
    is_lawful::<SetOf<Integer>>();
    is_lawful::<Contains<SetOf<Integer>>>();
}

/// INTEGER under each form of bounds.
pub fn bounded_numbers_are_lawful()
    ensures up_to { let own = ⟦<UpTo65535 as AsnType>⟧ in IsLawfulType (own.schema own.CONSTRAINTS) }
    ensures from { let own = ⟦<FromMinusOne as AsnType>⟧ in IsLawfulType (own.schema own.CONSTRAINTS) }
    ensures natural { let own = ⟦<Natural as AsnType>⟧ in IsLawfulType (own.schema own.CONSTRAINTS) }
    ensures extensible { let own = ⟦<OneToTenExtensible as AsnType>⟧ in IsLawfulType (own.schema own.CONSTRAINTS) }
    ensures wide { let own = ⟦<ZeroTo65536 as AsnType>⟧ in IsLawfulType (own.schema own.CONSTRAINTS) }
    ensures held { let own = ⟦<MinusOneTo254 as AsnType>⟧ in IsLawfulType (own.schema own.CONSTRAINTS) }
{
    is_lawful::<UpTo65535>();
    is_lawful::<FromMinusOne>();
    is_lawful::<Natural>();
    is_lawful::<OneToTenExtensible>();
    is_lawful::<ZeroTo65536>();
    is_lawful::<MinusOneTo254>();
}

/// Strings under sizes and alphabets.
pub fn strings_are_lawful()
    ensures short { let own = ⟦<ShortVisible as AsnType>⟧ in IsLawfulType (own.schema own.CONSTRAINTS) }
    ensures letters { let own = ⟦<LettersAToE as AsnType>⟧ in IsLawfulType (own.schema own.CONSTRAINTS) }
    ensures one { let own = ⟦<OnlyX as AsnType>⟧ in IsLawfulType (own.schema own.CONSTRAINTS) }
{
    is_lawful::<ShortVisible>();
    is_lawful::<LettersAToE>();
    is_lawful::<OnlyX>();
}
