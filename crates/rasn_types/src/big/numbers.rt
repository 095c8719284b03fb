//! Numbers of Rust's types as whole numbers of any size, and back.

ghost use Rattle.std.specs.Prelude.{◌≡◌, pos, FitsSigned, unsigned_abs};
ghost use Rattle.std.specs.Int.{w8, w16, w32, w64, FitsUnsignedBits};
ghost use Rattle.std.specs.Result.{OkIff};

use crate::big::Integer;
use thiserror::Error;

/// A number is outside the number type that it was to become.
#[derive(Clone, Copy, Debug, PartialEq, Eq, Error)]
#[error("the number is outside its type's range")]
pub struct TryFromIntegerError;

impl From<i8> for Integer {
    ghost from_gives = { λ number whole. whole ≡ number };

    fn from(number: i8) -> Integer {
        Integer::from(i128::from(number))
    }
}

impl From<i16> for Integer {
    ghost from_gives = { λ number whole. whole ≡ number };

    fn from(number: i16) -> Integer {
        Integer::from(i128::from(number))
    }
}

impl From<i32> for Integer {
    ghost from_gives = { λ number whole. whole ≡ number };

    fn from(number: i32) -> Integer {
        Integer::from(i128::from(number))
    }
}

impl From<i64> for Integer {
    ghost from_gives = { λ number whole. whole ≡ number };

    fn from(number: i64) -> Integer {
        Integer::from(i128::from(number))
    }
}

impl From<u8> for Integer {
    ghost from_gives = { λ number whole. whole ≡ pos number };

    fn from(number: u8) -> Integer {
        Integer::from(i128::from(number))
    }
}

impl From<u16> for Integer {
    ghost from_gives = { λ number whole. whole ≡ pos number };

    fn from(number: u16) -> Integer {
        Integer::from(i128::from(number))
    }
}

impl From<u32> for Integer {
    ghost from_gives = { λ number whole. whole ≡ pos number };

    fn from(number: u32) -> Integer {
        Integer::from(i128::from(number))
    }
}

impl From<u64> for Integer {
    ghost from_gives = { λ number whole. whole ≡ pos number };

    fn from(number: u64) -> Integer {
        Integer::from(i128::from(number))
    }
}

impl TryFrom<&Integer> for i8 {
    type Error = TryFromIntegerError;

    ghost try_from_gives = { λ number held. OkIff held (FitsSigned w8 number.now) number.now };

    fn try_from(number: &Integer) -> Result<i8, TryFromIntegerError> {
        let Some(value) = number.to_i128() else {
            return Err(TryFromIntegerError);
        };
        i8::try_from(value).map_err(|_| TryFromIntegerError)
    }
}

impl TryFrom<&Integer> for i16 {
    type Error = TryFromIntegerError;

    ghost try_from_gives = { λ number held. OkIff held (FitsSigned w16 number.now) number.now };

    fn try_from(number: &Integer) -> Result<i16, TryFromIntegerError> {
        let Some(value) = number.to_i128() else {
            return Err(TryFromIntegerError);
        };
        i16::try_from(value).map_err(|_| TryFromIntegerError)
    }
}

impl TryFrom<&Integer> for i32 {
    type Error = TryFromIntegerError;

    ghost try_from_gives = { λ number held. OkIff held (FitsSigned w32 number.now) number.now };

    fn try_from(number: &Integer) -> Result<i32, TryFromIntegerError> {
        let Some(value) = number.to_i128() else {
            return Err(TryFromIntegerError);
        };
        i32::try_from(value).map_err(|_| TryFromIntegerError)
    }
}

impl TryFrom<&Integer> for i64 {
    type Error = TryFromIntegerError;

    ghost try_from_gives = { λ number held. OkIff held (FitsSigned w64 number.now) number.now };

    fn try_from(number: &Integer) -> Result<i64, TryFromIntegerError> {
        let Some(value) = number.to_i128() else {
            return Err(TryFromIntegerError);
        };
        i64::try_from(value).map_err(|_| TryFromIntegerError)
    }
}

impl TryFrom<&Integer> for u8 {
    type Error = TryFromIntegerError;

    ghost try_from_gives = { λ number held. OkIff held (FitsUnsignedBits 8 number.now) (unsigned_abs number.now) };

    fn try_from(number: &Integer) -> Result<u8, TryFromIntegerError> {
        let Some(value) = number.to_i128() else {
            return Err(TryFromIntegerError);
        };
        u8::try_from(value).map_err(|_| TryFromIntegerError)
    }
}

impl TryFrom<&Integer> for u16 {
    type Error = TryFromIntegerError;

    ghost try_from_gives = { λ number held. OkIff held (FitsUnsignedBits 16 number.now) (unsigned_abs number.now) };

    fn try_from(number: &Integer) -> Result<u16, TryFromIntegerError> {
        let Some(value) = number.to_i128() else {
            return Err(TryFromIntegerError);
        };
        u16::try_from(value).map_err(|_| TryFromIntegerError)
    }
}

impl TryFrom<&Integer> for u32 {
    type Error = TryFromIntegerError;

    ghost try_from_gives = { λ number held. OkIff held (FitsUnsignedBits 32 number.now) (unsigned_abs number.now) };

    fn try_from(number: &Integer) -> Result<u32, TryFromIntegerError> {
        let Some(value) = number.to_i128() else {
            return Err(TryFromIntegerError);
        };
        u32::try_from(value).map_err(|_| TryFromIntegerError)
    }
}

impl TryFrom<&Integer> for u64 {
    type Error = TryFromIntegerError;

    ghost try_from_gives = { λ number held. OkIff held (FitsUnsignedBits 64 number.now) (unsigned_abs number.now) };

    fn try_from(number: &Integer) -> Result<u64, TryFromIntegerError> {
        let Some(value) = number.to_i128() else {
            return Err(TryFromIntegerError);
        };
        u64::try_from(value).map_err(|_| TryFromIntegerError)
    }
}
