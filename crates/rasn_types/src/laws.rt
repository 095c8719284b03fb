//! Laws of the contents octets of OBJECT IDENTIFIER (X.690 8.19). Each law is the contract of a function that does
//! nothing.

ghost use Rattle.std.specs.Prelude.{◌≡◌, ℕ, List};
ghost use Rattle.rasn_types.specs.Contents.{is_identifier};
ghost use Rattle.rasn_types.specs.Identifiers.{are_arcs, contents, OneContents};

/// Numbers have contents octets exactly where they are the arcs of an object, and these are lawful.
pub fn arcs_have_contents()
    ensures { (numbers : List ℕ) → is_identifier (contents numbers) ≡ are_arcs numbers }
{}

/// Each object has contents octets of its own.
pub fn contents_are_of_one_object()
    ensures { OneContents }
{}
