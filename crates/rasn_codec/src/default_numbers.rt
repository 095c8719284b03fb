//! Defaults of BOOLEAN (X.680 18) and INTEGER (X.680 19): values of the type, and for one that holds every number an
//! `i128`.

ghost use Rattle.std.specs.Prelude.{pos};
ghost use Rattle.rasn_types.specs.Values.{truth, whole};

use crate::defaults::DefaultOf;
use rasn_schema::schema::Constraints;
use rasn_types::big::Integer;
use std::alloc::{AllocError, Global};

impl DefaultOf<bool> for bool {
    ghost default = { truth };

    fn stands_for(&self, component: &bool, _constraints: &Constraints) -> bool {
        *self == *component
    }

    fn made(&self, _alloc: Global) -> Result<bool, AllocError> {
        Ok(*self)
    }
}

impl DefaultOf<u8> for u8 {
    ghost default = { λ d. whole (pos d) };

    fn stands_for(&self, component: &u8, _constraints: &Constraints) -> bool {
        *self == *component
    }

    fn made(&self, _alloc: Global) -> Result<u8, AllocError> {
        Ok(*self)
    }
}

impl DefaultOf<u16> for u16 {
    ghost default = { λ d. whole (pos d) };

    fn stands_for(&self, component: &u16, _constraints: &Constraints) -> bool {
        *self == *component
    }

    fn made(&self, _alloc: Global) -> Result<u16, AllocError> {
        Ok(*self)
    }
}

impl DefaultOf<u32> for u32 {
    ghost default = { λ d. whole (pos d) };

    fn stands_for(&self, component: &u32, _constraints: &Constraints) -> bool {
        *self == *component
    }

    fn made(&self, _alloc: Global) -> Result<u32, AllocError> {
        Ok(*self)
    }
}

impl DefaultOf<u64> for u64 {
    ghost default = { λ d. whole (pos d) };

    fn stands_for(&self, component: &u64, _constraints: &Constraints) -> bool {
        *self == *component
    }

    fn made(&self, _alloc: Global) -> Result<u64, AllocError> {
        Ok(*self)
    }
}

impl DefaultOf<i8> for i8 {
    ghost default = { whole };

    fn stands_for(&self, component: &i8, _constraints: &Constraints) -> bool {
        self == component
    }

    fn made(&self, _alloc: Global) -> Result<i8, AllocError> {
        Ok(*self)
    }
}

impl DefaultOf<i16> for i16 {
    ghost default = { whole };

    fn stands_for(&self, component: &i16, _constraints: &Constraints) -> bool {
        self == component
    }

    fn made(&self, _alloc: Global) -> Result<i16, AllocError> {
        Ok(*self)
    }
}

impl DefaultOf<i32> for i32 {
    ghost default = { whole };

    fn stands_for(&self, component: &i32, _constraints: &Constraints) -> bool {
        self == component
    }

    fn made(&self, _alloc: Global) -> Result<i32, AllocError> {
        Ok(*self)
    }
}

impl DefaultOf<i64> for i64 {
    ghost default = { whole };

    fn stands_for(&self, component: &i64, _constraints: &Constraints) -> bool {
        self == component
    }

    fn made(&self, _alloc: Global) -> Result<i64, AllocError> {
        Ok(*self)
    }
}

impl DefaultOf<i128> for i128 {
    ghost default = { whole };

    fn stands_for(&self, component: &i128, _constraints: &Constraints) -> bool {
        self == component
    }

    fn made(&self, _alloc: Global) -> Result<i128, AllocError> {
        Ok(*self)
    }
}

impl DefaultOf<Integer> for i128 {
    ghost default = { whole };

    fn stands_for(&self, component: &Integer, _constraints: &Constraints) -> bool {
        Integer::from(*self) == *component
    }

    fn made(&self, _alloc: Global) -> Result<Integer, AllocError> {
        Ok(Integer::from(*self))
    }
}
