//! The errors of decoders, and the octets that they answer.

ghost use Rattle.std.specs.Prelude.{◌≡◌, ℕ, List, IfOk};
ghost use Rattle.std.specs.Cow.{cow_slice_items, IsBorrowedSlice};

pub use rasn_schema::de::Error;
use std::alloc::{AllocError, Global};
use std::borrow::CowSlice;

/// The octets of an OCTET STRING, as a decoder answers them: lent where it can, and else as a copy.
pub trait Octets: Sized + Drop {
    // Which octets they are.
    ghost octets: { Self → List ℕ };

    // They are lent, and no copy.
    ghost lent: { Self → Type 0 };

    /// The octets themselves. Takes no memory.
    fn as_octets(&self) -> &[u8]
        ensures { result.now ≡ octets self.now };

    /// The octets as a vector of their own. Octets that are lent are copied into memory of the allocator: an error says
    /// that it gave none.
    fn into_owned(self, alloc: Global) -> Result<Vec<u8>, AllocError>
        ensures { IfOk result (λ v. v.items ≡ octets self) };
}

impl<'input> Octets for CowSlice<'input, u8> {
    ghost octets = { cow_slice_items };

    ghost lent = { IsBorrowedSlice };

    #[inline(always)]
    fn as_octets(&self) -> &[u8] {
        self.as_slice()
    }

    #[inline(always)]
    fn into_owned(self, alloc: Global) -> Result<Vec<u8>, AllocError> {
        match self {
            CowSlice::Borrowed(octets) => Vec::from_slice(alloc, octets),
            CowSlice::Owned(octets) => Ok(octets),
        }
    }
}
