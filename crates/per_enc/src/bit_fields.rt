//! Small numbers in one field, so that several of them are written at once.

ghost use Rattle.std.specs.Prelude.{◌≡◌, ◌+◌, ◌^◌, ◌<◌, ◌≤◌, ◌++◌, [], length, false, true, OnOk, OnErr, IfErr, IsTrue};
ghost use Rattle.std.specs.Prelude.{◌↔◌};
ghost use Rattle.rasn_types.specs.Bits.{to_bits};
ghost use Rattle.per_core.specs.Writers.{just};
ghost use Rattle.per_write.specs.Faults.{IsMemory};
ghost use Rattle.per_write.specs.Unwritten.{Remains};
ghost use Rattle.per_write.specs.WriterState.{Puts};

use per_write::Writer;
use per_write::error::EncodeError;
use per_write::items::FIELD_BITS;
use std::alloc::Allocator;
use std::marker::Model;

/// Bits that are still to be written, as many as one field has at most.
#[derive(Drop)]
pub(crate) struct BitField {
    /// The number that the bits mean, the first bit the highest.
    value: u64,
    width: u32,
}

impl Model for BitField {
    ghost use Rattle.std.specs.Prelude.{◌^◌, ◌<◌, ◌≤◌, List, Bool};
    ghost use Rattle.rasn_types.specs.Bits.{to_bits};

    ghost Value = { List Bool };

    ghost view = { λ a. to_bits a.width a.value };

    ghost invariant = { λ a. record { few : a.width ≤ 56; fits : a.value < 2 ^ a.width } };
}

impl BitField {
    /// No bits.
    pub(crate) fn new() -> Self
        ensures { result ≡ [] }
    {
        BitField { value: 0, width: 0 }
    }

    /// Whether there is room for so many bits more.
    fn has_room(&self, width: u32) -> bool
        requires { width ≤ FIELD_BITS }
        ensures { IsTrue result ↔ (length self.now + width ≤ FIELD_BITS) }
    {
        self.width + width <= FIELD_BITS
    }

    /// Appends a number in `width` bits, highest first (X.691 11.3).
    fn push(&mut self, number: u32, width: u32)
        requires room { length self.old + width ≤ FIELD_BITS }
        requires fits { number < 2 ^ width }
        ensures { self.new ≡ self.old ++ to_bits width number }
    {
        self.value = self.value << width | u64::from(number);
        self.width += width;
    }
}

/// Appends a number in `width` bits to those that are gathered. Where there is no room for them, these are written
/// first.
pub(crate) fn push_to_field<A: Allocator + Clone>(
    writer: &mut Writer<A>,
    gathered: &mut BitField,
    number: u32,
    width: u32,
) -> Result<(), EncodeError>
    requires begun { writer.old.failed ≡ false }
    requires few { width ≤ FIELD_BITS }
    requires fits { number < 2 ^ width }
    ensures ok { let all = just (gathered.old ++ to_bits width number) in
        OnOk result (Remains writer.old all writer.new (just gathered.new)) }
    ensures err { IfErr result (λ e. IsMemory e writer.old) }
    ensures fails { OnErr result (writer.new.failed ≡ true) }
    ensures kept { writer.new.codec ≡ writer.old.codec }
{
    if gathered.has_room(width) {
        gathered.push(number, width);
        return Ok(());
    }
    put_bit_field(writer, gathered)?;
    *gathered = BitField::new();
    gathered.push(number, width);
    Ok(())
}

/// Writes the bits that are gathered.
pub(crate) fn put_bit_field<A: Allocator + Clone>(
    writer: &mut Writer<A>,
    gathered: &BitField,
) -> Result<(), EncodeError>
    requires { writer.old.failed ≡ false }
    ensures { Puts IsMemory (just gathered.now) writer.old result writer.new }
{
    writer.put_bits(u128::from(gathered.value), u128::from(gathered.width))
}
