//! The end of a complete encoding (X.691 11.1).

ghost use Rattle.std.specs.Prelude.{◌≡◌, ◌%◌, ◌≤◌, OnOk, OnErr, IfErr, length};
ghost use Rattle.per_core.specs.Ends.{IsOfSpare, IsWhy, Ends, spare};
ghost use Rattle.per_core.specs.Spellings.{ZeroIf};

use crate::BitReader;
pub use per_core::ends::Surplus;

/// Whether bits end as a complete encoding does: `left` is what is left of `total` bits after a value.
///
/// Fewer than eight bits may be left, whatever they are, or zero bits where `zero_padding` asks for these; they are
/// looked at before whole octets that are left over. A value of no bits takes one octet, which is zero.
#[inline(always)]
pub fn ended(left: &BitReader<'_>, total: u128, zero_padding: bool) -> Result<(), Surplus>
    requires fits { length left.now.bits ≤ total }
    requires octets { total % 8 ≡ 0 }
    ensures ok { OnOk result (Ends zero_padding left.now.bits total) }
    ensures none { OnErr result (Ends zero_padding left.now.bits total → ⊥) }
    ensures why { IfErr result (IsWhy zero_padding left.now.bits total) }
{
    let count = left.len();
    if count < total {
        check_spare_bits(left, zero_padding)?;
        if count >= 8 {
            return Err(Surplus::ExtraOctets(count / 8));
        }
        return Ok(());
    }
    if count < 8 {
        return Err(Surplus::Missing(8 - count));
    }
    if left.first_bits(8) != 0 {
        return Err(Surplus::NonzeroOctet);
    }
    if count >= 16 {
        return Err(Surplus::ExtraOctets(count / 8 - 1));
    }
    Ok(())
}

/// Refuses spare bits that aren't zero, where they must be (X.691 11.1).
fn check_spare_bits(left: &BitReader<'_>, zero_padding: bool) -> Result<(), Surplus>
    ensures ok { OnOk result (ZeroIf zero_padding (spare left.now.bits)) }
    ensures err { IfErr result (λ why. IsOfSpare zero_padding left.now.bits why) }
{
    if !zero_padding {
        return Ok(());
    }
    if left.first_bits(left.len() % 8) != 0 {
        return Err(Surplus::NonzeroSpareBits);
    }
    Ok(())
}
