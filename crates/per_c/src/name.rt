//! Names as C has them.

ghost use Rattle.std.specs.Prelude.{◌≡◌, ◌<◌, length};
ghost use Rattle.per_c.specs.Numbers.{in_c};

/// A text that ends with an octet of zero, and has more of them after it.
#[repr(C)]
#[derive(Clone, Copy)]
pub struct Name {
    /// The octets of the text, and zeros.
    pub text: [u8; 32],
}

impl Name {
    /// The text as C has it.
    pub fn new(text: &str) -> Name
        requires { length text.now < 32 }
        ensures { result.text ≡ in_c text.now }
    {
        let mut octets = [0; 32];
        octets[..text.len()].copy_from_slice(text.as_bytes());
        Name { text: octets }
    }
}
