//! Constrained whole numbers (X.691 11.5): the form in which the aligned variant has one.

ghost use Rattle.std.specs.Prelude.{◌≡◌, ◌<◌, ◌≤◌};
ghost use Rattle.per_core.specs.declared.number_forms.NumberForm.TheVariants.{Bits, Octet, TwoOctets, Counted};

/// How the aligned variant has one of the numbers from 0 to a greatest one (X.691 11.5.7).
#[derive(Clone, Copy)]
pub enum NumberForm {
    /// In the fewest bits that tell these numbers apart.
    Bits,
    /// In an octet, on a boundary.
    Octet,
    /// In two octets, on a boundary.
    TwoOctets,
    /// In its fewest octets, on a boundary, which their count precedes.
    Counted,
}

impl NumberForm {
    /// The form of the numbers from 0 to `greatest`: 255 numbers or fewer are in bits, 256 in an octet, 65536 or fewer
    /// in two, and more are counted.
    #[inline(always)]
    pub const fn of(greatest: u128) -> Self
        ensures bits { result ≡ Bits → greatest < 255 }
        ensures octet { result ≡ Octet → greatest ≡ 255 }
        ensures two { result ≡ TwoOctets → (255 < greatest) × (greatest < 65536) }
        ensures counted { result ≡ Counted → 65536 ≤ greatest }
    {
        match greatest {
            0..=254 => NumberForm::Bits,
            255 => NumberForm::Octet,
            256..=65535 => NumberForm::TwoOctets,
            _ => NumberForm::Counted,
        }
    }
}
