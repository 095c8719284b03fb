//! How tags, classes and identifiers are printed (X.680 31.2).

use crate::expected::expect_text;
use rasn_types::types::{Class, Identifier, Tag};
use std::alloc::AllocError;

#[test]
fn prints_tags(rt: HostRuntime) -> Result<(), AllocError> {
    let (own, private) = (Tag::new(Class::Context, 5), Tag::new(Class::Private, 31));
    let (universal, application) = (Tag::INTEGER, Tag::new(Class::Application, 0));
    let printed = format!(in rt.alloc(); "{own} {private} {universal} {application}")?;
    expect_text(
        &rt,
        printed.as_str(),
        "[5] [PRIVATE 31] [UNIVERSAL 2] [APPLICATION 0]",
    );
    Ok(())
}

#[test]
fn prints_classes_and_identifiers(rt: HostRuntime) -> Result<(), AllocError> {
    let (class, named, unnamed) = (Class::Context, Identifier(Some("speed")), Identifier::EMPTY);
    let printed = format!(in rt.alloc(); "{class}, {named}, {unnamed}.")?;
    expect_text(&rt, printed.as_str(), "CONTEXT, speed, .");
    Ok(())
}
