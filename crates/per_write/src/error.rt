//! Why a value was not encoded.

pub use per_core::encode_error::{EncodeError, EncodeErrorKind};
