//! CHOICE types that are stated by one list of their alternatives.

ghost use Rattle.std.specs.Prelude.{◌≡◌, ℕ, suc, true};
ghost use Rattle.std.proofs.Common.{◌∙◌, ap, sym};
ghost use Rattle.rasn_types.specs.declared.types.TheConstants.Tag.{EOC};
ghost use Rattle.rasn_schema.specs.Choices.{AreVariants, VariantShapes, tree_with, variants_after};
ghost use Rattle.rasn_schema.specs.Components.{TypeLists, Chosen, chosen_value, added_parts, root_parts};
ghost use Rattle.rasn_schema.specs.Components.{components_after};
ghost use Rattle.rasn_schema.specs.Components.{alternatives_at, alternatives_levelled, alternatives_of};
ghost use Rattle.rasn_schema.specs.Components.{added_variants, added_described, variants_listed, variants_described};
ghost use Rattle.rasn_schema.specs.Tags.{choice_tag, choice_stated};

use crate::choices::{Choice, VariantLists, Variants};
use crate::fields::{TagTree, TypeTree};
use crate::kinds::{Kind, OfKind};
use rasn_types::types::Tag;

/// The alternatives of a CHOICE (X.680 29).
pub trait Alternatives {
    /// The alternatives, in the order of their indexes (X.691 23.5, 23.8).
    const ALTERNATIVES: VariantLists;

    ghost ALTERNATIVES: { VariantShapes };

    // The alternatives, each as a component, and that the variants are theirs.
    ghost alternatives: { (cs : TypeLists) × (ALTERNATIVES ≡ variants_listed cs) };

    // The alternative that a value is.
    ghost chosen: { Self → Chosen };

    // How many levels the alternative takes.
    ghost depth: { Self → ℕ } = { λ _. 0 };

    // No two alternatives go by one tag, and there aren't too many.
    ghost are_variants: { AreVariants ALTERNATIVES.before ALTERNATIVES.behind };
}

/// The kind of a CHOICE (X.680 29).
pub struct ChoiceKind {}

impl<T: Alternatives> Kind<T> for ChoiceKind {
    const TAG: Tag = Tag::EOC;

    ghost TAG = { EOC };

    const TAG_TREE: TypeTree = TypeTree(TagTree::Choice(T::ALTERNATIVES.root));

    ghost TAG_TREE = { tree_with T.ALTERNATIVES.before };

    const IS_CHOICE: bool = true;

    ghost IS_CHOICE = { true };

    ghost schema = { alternatives_at T.alternatives.0.before T.alternatives.0.behind };

    ghost value = { λ x. chosen_value (T.chosen x) };

    ghost levels = { λ x. suc (T.depth x) };

    ghost levelled = { alternatives_levelled T.alternatives.0.before T.alternatives.0.behind };

    ghost tag_fits = { let cs = T.alternatives.0 in
        choice_tag (root_parts cs) (added_variants cs.behind) (added_parts cs) };

    ghost tree_fits = { let cs = T.alternatives.0 in choice_stated (root_parts cs)
        (λ n. ap (λ (s : VariantShapes). s.before) T.alternatives.1 ∙ variants_described cs.before n)
        (added_variants cs.behind) (added_parts cs) };
}

impl<T: Alternatives + OfKind<Kind = ChoiceKind>> Choice for T {
    const VARIANTS: Variants = Variants {
        list: T::ALTERNATIVES.root,
    };

    ghost VARIANTS = { T.ALTERNATIVES.before };

    const EXTENDED_VARIANTS: Option<Variants> = match T::ALTERNATIVES.added {
        Some(list) => Some(Variants { list }),
        None => None,
    };

    ghost EXTENDED_VARIANTS = { T.ALTERNATIVES.behind };

    const IDENTIFIERS: &'static [&'static str] = T::ALTERNATIVES.identifiers;

    ghost alternatives = { root_parts T.Alternatives.alternatives.0 };

    ghost added = { added_parts T.Alternatives.alternatives.0 };

    ghost described = { λ n. ap (λ (s : VariantShapes). s.before) T.Alternatives.alternatives.1
        ∙ variants_described T.Alternatives.alternatives.0.before n };

    ghost extends = { λ n. ap (λ (s : VariantShapes). variants_after s.behind) T.Alternatives.alternatives.1
        ∙ added_described T.Alternatives.alternatives.0.behind n };

    ghost are_variants = { T.Alternatives.are_variants };

    ghost is_choice = { λ _. let cs = T.Alternatives.alternatives.0 in
        ap (λ (s : VariantShapes). alternatives_of cs.before (components_after cs.behind) s.behind)
        (sym T.Alternatives.alternatives.1) };
}
