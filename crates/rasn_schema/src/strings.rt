//! The schemas of character strings (X.680 41).

ghost use Rattle.std.specs.Prelude.{◌≡◌, ℕ, List, true, refl, Some};
ghost use Rattle.std.specs.String.{string_bytes};
ghost use Rattle.rasn_types.specs.Alphabets.{has};
ghost use Rattle.rasn_types.specs.Variants.{variant_of};
ghost use Rattle.rasn_types.specs.Contents.{utf8};
ghost use Rattle.rasn_types.specs.Values.{characters, octets};
ghost use Rattle.rasn_types.specs.declared.types.TheConstants.Tag.{BMP_STRING, IA5_STRING, NUMERIC_STRING};
ghost use Rattle.rasn_types.specs.declared.types.TheConstants.Tag.{PRINTABLE_STRING, UTF8_STRING, VISIBLE_STRING};
ghost use Rattle.rasn_schema.specs.Fields.{tagged};
ghost use Rattle.rasn_schema.specs.Schemas.{Schema};
ghost use Rattle.rasn_constraints.specs.Ranges.{no_constraints};
ghost use Rattle.rasn_schema.specs.Forms.{alphabet_of, character_schema, always};
ghost use Rattle.rasn_schema.specs.Levels.{simple_levelled};
ghost use Rattle.rasn_schema.specs.Tags.{IsTagOf};

use crate::fields::{TagTree, TypeTree};
use crate::schema::{AsnType, Constraints};
use rasn_strings::alphabet::CharacterAlphabet;
use rasn_strings::strings::{
    BmpKind, CharacterKind, CharactersOf, Ia5Kind, NumericKind, PrintableKind,
    StaticPermittedAlphabet, VisibleKind,
};
use rasn_types::octet_strings::Utf8String;
use rasn_types::types::{Codec, Tag};

/// The alphabet of a string type under the first permitted alphabet of constraints: those of its characters that are
/// permitted, with their codes. An extensible one isn't visible (X.691 30.4).
pub fn alphabet_under<'list, S: StaticPermittedAlphabet>(
    constraints: &Constraints<'list>,
    codec: Codec,
) -> CharacterAlphabet<'list>
    ensures variant { result.variant ≡ variant_of codec }
    ensures characters { result.characters ≡ alphabet_of S.alphabet constraints.now }
    ensures own { (character : ℕ) → has result.characters character ≡ true → has S.alphabet character ≡ true }
{
    let permitted = match constraints.permitted_alphabet() {
        Some(permitted) if !permitted.extensible => Some(permitted.constraint),
        _ => None,
    };
    CharacterAlphabet::new::<S>(permitted, codec == Codec::Aper)
}

/// The kind of a type of characters, with the type's tag.
pub trait TaggedCharacters: CharacterKind {
    ghost use Rattle.rasn_types.specs.declared.types.Tag.{Tag};
    ghost use Rattle.rasn_constraints.specs.declared.constraints.Constraints.{Constraints};

    /// The tag of the type (X.680 8.4).
    const TAG: Tag;

    ghost TAG: { Tag };

    // The tag is one of a string of characters.
    ghost tag_fits: { (own : List ℕ) (c : Constraints) → IsTagOf TAG (always (character_schema own c)) };
}

impl TaggedCharacters for VisibleKind {
    const TAG: Tag = Tag::VISIBLE_STRING;

    ghost TAG = { VISIBLE_STRING };

    ghost tag_fits = { λ _ _ _. refl };
}

impl TaggedCharacters for Ia5Kind {
    const TAG: Tag = Tag::IA5_STRING;

    ghost TAG = { IA5_STRING };

    ghost tag_fits = { λ _ _ _. refl };
}

impl TaggedCharacters for PrintableKind {
    const TAG: Tag = Tag::PRINTABLE_STRING;

    ghost TAG = { PRINTABLE_STRING };

    ghost tag_fits = { λ _ _ _. refl };
}

impl TaggedCharacters for NumericKind {
    const TAG: Tag = Tag::NUMERIC_STRING;

    ghost TAG = { NUMERIC_STRING };

    ghost tag_fits = { λ _ _ _. refl };
}

impl TaggedCharacters for BmpKind {
    const TAG: Tag = Tag::BMP_STRING;

    ghost TAG = { BMP_STRING };

    ghost tag_fits = { λ _ _ _. refl };
}

impl<K: TaggedCharacters> AsnType for CharactersOf<K> {
    const TAG: Tag = K::TAG;

    ghost TAG = { K.TAG };

    const TAG_TREE: TypeTree = TypeTree(TagTree::Leaf(K::TAG));

    ghost TAG_TREE = { Some (tagged K.TAG) };

    const IS_CHOICE: bool = false;

    const CONSTRAINTS: Constraints<'static> = Constraints::NONE;

    ghost CONSTRAINTS = { no_constraints };

    ghost schema = { λ c. always (character_schema K.alphabet c) };

    ghost value = { characters };

    ghost levelled = { λ c. simple_levelled (character_schema K.alphabet c) tt };

    ghost tag_fits = { K.tag_fits K.alphabet };

    ghost tree_fits = { λ _ _. (refl, refl) };
}

impl AsnType for Utf8String {
    const TAG: Tag = Tag::UTF8_STRING;

    ghost TAG = { UTF8_STRING };

    const TAG_TREE: TypeTree = TypeTree(TagTree::Leaf(Tag::UTF8_STRING));

    ghost TAG_TREE = { Some (tagged UTF8_STRING) };

    const IS_CHOICE: bool = false;

    const CONSTRAINTS: Constraints<'static> = Constraints::NONE;

    ghost CONSTRAINTS = { no_constraints };

    ghost schema = { λ _. always (Schema.text utf8) };

    ghost value = { λ s. octets (string_bytes s) };

    ghost levelled = { λ _. simple_levelled (Schema.text utf8) tt };

    ghost tag_fits = { λ _ _. refl };

    ghost tree_fits = { λ _ _. (refl, refl) };
}
