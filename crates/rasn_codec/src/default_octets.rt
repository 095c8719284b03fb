//! Defaults of OCTET STRING (X.680 23).

ghost use Rattle.rasn_types.specs.Values.{octets};

use crate::defaults::DefaultOf;
use rasn_schema::schema::Constraints;
use rasn_types::octet_strings::OctetString;
use std::alloc::{AllocError, Global};

/// Octets, as a default of OCTET STRING: `Octets([1, 2])`.
#[derive(Clone, Copy, Debug)]
pub struct Octets<const N: usize>(pub [u8; N]);

impl<const N: usize> DefaultOf<OctetString> for Octets<N> {
    ghost default = { λ d. octets d.0 };

    fn stands_for(&self, component: &OctetString, _constraints: &Constraints) -> bool {
        component.as_bytes() == &self.0[..]
    }

    fn made(&self, alloc: Global) -> Result<OctetString, AllocError> {
        let octets = Vec::from_slice(alloc, &self.0)?;
        Ok(OctetString::new(octets))
    }
}
