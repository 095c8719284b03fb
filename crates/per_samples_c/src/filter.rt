//! A CHOICE of lists of its own type, of one value of it, and of octets.

ghost use Rattle.std.specs.Prelude.{[], None, refl, true};
ghost use Rattle.rasn_below.specs.Page.{chosen, octets, root_parts, variants_listed};
ghost use Rattle.rasn_below.specs.Types.{EOC, no_constraints, tree_with};
ghost use Rattle.per_samples_c.specs.Filters.{filter, filter_is_choice, filter_levelled, filter_levels};
ghost use Rattle.per_samples_c.specs.Filters.{filter_schema, filter_tag, filter_tree, filter_value};

use rasn_below::codec::{Decode, Encode};
use rasn_below::context_tag;
use rasn_below::page::*;
use rasn_below::schema::{Choice, TagTree, TypeTree, Variants};
use rasn_below::types::Identifier;
use rasn_constructed::read::{HoldsAlternatives, Same, Unconstrained, decode};
use rasn_constructed::write::write_alternative;
use rasn_constructed::{decode_recursive_alternative, names_of_alternatives, tags_of_alternatives};

/// Filter ::= CHOICE { and SEQUENCE OF Filter, or SEQUENCE OF Filter, not Filter, present OCTET STRING }
#[derive(Debug, Drop, PartialEq)]
pub enum Filter {
    And(Vec<Filter>),
    Or(Vec<Filter>),
    Not(Box<Filter>),
    Present(OctetString),
}

macro_rules! alternatives { ($to:ident $($with:ident)*) => { $to! { [$($with)*]
    0 "and" And: Vec<Filter> [RECURSIVE];
    1 "or" Or: Vec<Filter> [RECURSIVE];
    2 "not" Not: Box<Filter> [RECURSIVE];
    3 "present" Present: OctetString [];
} }; }

const TAGS: &[TagTree] = alternatives!(tags_of_alternatives);

const NAMES: &[&str] = alternatives!(names_of_alternatives);

const BOUNDS: Bounds = alternatives!(alternative_bounds);

impl AsnType for Filter {
    const TAG: Tag = Tag::EOC;

    ghost TAG = { EOC };

    const TAG_TREE: TypeTree = TypeTree(TagTree::Choice(TAGS));

    ghost TAG_TREE = { tree_with (variants_listed filter).before };

    const IS_CHOICE: bool = true;

    ghost IS_CHOICE = { true };

    const CONSTRAINTS: Constraints<'static> = Constraints::NONE;

    ghost CONSTRAINTS = { no_constraints };

    ghost schema = { λ _. filter_schema };

    ghost value = { filter_value };

    ghost levels = { filter_levels };

    ghost levelled = { λ _. filter_levelled };

    ghost tag_fits = { λ _. filter_tag };

    ghost tree_fits = { λ _. filter_tree };
}

impl Choice for Filter {
    const VARIANTS: Variants = Variants { list: TAGS };

    ghost VARIANTS = { (variants_listed filter).before };

    const EXTENDED_VARIANTS: Option<Variants> = None;

    ghost EXTENDED_VARIANTS = { None };

    const IDENTIFIERS: &'static [&'static str] = NAMES;

    ghost alternatives = { root_parts filter };

    ghost described = { λ _. refl };

    ghost extends = { λ _. refl };

    ghost are_variants = { record { distinct = refl; few = refl } };

    ghost is_choice = { λ _. filter_is_choice };
}

impl Unconstrained for Filter {
    ghost same_schema = { λ _ _. refl };
}

/// The alternatives of `Filter`, without a value: by these it is written, since the toolchain takes no `Choice` of the
/// type itself in its `Encode`.
pub struct Listing {}

impl OfKind for Listing {
    type Kind = ChoiceKind;
}

impl Alternatives for Listing {
    const ALTERNATIVES: VariantLists = VariantLists {
        root: TAGS,
        added: None,
        identifiers: NAMES,
    };

    ghost ALTERNATIVES = { variants_listed filter };

    ghost alternatives = { (filter, refl) };

    ghost chosen = { λ _. chosen 3 (octets []) };

    ghost are_variants = { record { distinct = refl; few = refl } };
}

impl Encode for Filter {
    #[cycle(write)]
    fn encode_with_tag_and_constraints<E: Encoder>(
        &self,
        encoder: &mut E,
        tag: Tag,
        _: &Constraints,
        identifier: Identifier,
    ) -> Result<(), E::Error> {
        match self {
            Self::And(value) => write_alternative::<Listing, Vec<Filter>, _>(
                value,
                0,
                context_tag!(0),
                encoder,
                tag,
                identifier,
            ),
            Self::Or(value) => write_alternative::<Listing, Vec<Filter>, _>(
                value,
                1,
                context_tag!(1),
                encoder,
                tag,
                identifier,
            ),
            Self::Not(value) => write_alternative::<Listing, Box<Filter>, _>(
                value,
                2,
                context_tag!(2),
                encoder,
                tag,
                identifier,
            ),
            Self::Present(value) => write_alternative::<Listing, OctetString, _>(
                value,
                3,
                context_tag!(3),
                encoder,
                tag,
                identifier,
            ),
        }
    }
}

impl HoldsAlternatives<Filter> for Filter {
    fn decode_alternative<H: Same<Filter>, D: Decoder, F: Fn(&mut D, Tag) -> Result<H, D::Error>>(
        decoder: &mut D,
        tag: Tag,
        held: &F,
    ) -> Result<Filter, D::Error> {
        alternatives!(decode_recursive_alternative decoder tag held Filter)
    }
}

impl Decode for Filter {
    fn decode_with_tag_and_constraints<D: Decoder>(
        decoder: &mut D,
        tag: Tag,
        _: &Constraints,
    ) -> Result<Filter, D::Error> {
        decode::<Filter, Filter, D>(decoder, tag)
    }
}
