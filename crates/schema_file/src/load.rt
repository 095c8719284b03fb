//! From a schema file's text to a table of types.

ghost use Rattle.std.specs.Prelude.{◌≡◌, ◌≤◌, ◌<◌, ◌+◌, ℕ, length, IfOk, IfSome, OnOk, IfErr};
ghost use Rattle.std.specs.List.{All};
ghost use Rattle.rasn_schema.specs.Lawful.{IsLawfulType};
ghost use Rattle.rasn_dynamic.specs.Types.{schema_at};
ghost use Rattle.schema_file.specs.PlacesInside.{PlacesAreInside, KindIsInside};
ghost use Rattle.schema_file.specs.Lines.{line_feeds, IsAmong, IsLineOf};

use crate::error::{LoadError, Reason};
use crate::judge::{judge, judge_set};
use crate::kinds::kind;
use crate::order::order;
use crate::words::Words;
use rasn_dynamic::types::{Kind, Name, Types};
use std::alloc::{AllocError, Global};
use std::collections::BTreeSet;

/// How many lines follow the first one.
#[derive(Clone, Copy)]
struct Counts {
    /// Lines of modules.
    modules: usize,
    /// Lines of types.
    types: usize,
    /// Lines of names.
    roots: usize,
}

/// The table of types that a schema file's text says, each of which is lawful. Types are at the places that it gives
/// them, and have the names `MODULE.TYPE`.
///
/// Refuses any other text, by the number of a line and what is wrong there. Memory is in proportion to the text, and so
/// is time, but for the tags of each CHOICE, of which two are compared with one another.
pub fn load(alloc: Global, text: &[u8]) -> Result<Types, LoadError>
    ensures inside { IfOk result PlacesAreInside }
    ensures lawful { IfOk result (λ types. (place : ℕ) → IsLawfulType (schema_at types.kinds.items place)) }
    ensures err { IfErr result (λ e. IsLineOf text.now e.line) }
{
    let octets = text.len();
    let text = text_of(text)?;
    let lines = lines_of(alloc, text)?;
    let counts = counts_of(&lines)?;
    read_modules(&lines, counts)?;
    let mut kinds = read_kinds(alloc, &lines, counts)?;
    let names = read_roots(alloc, &lines, counts)?;
    let sets = sets_in(alloc, &lines, counts)?;
    if order(alloc, &mut kinds, &sets).is_err() {
        return Err(LoadError::out_of_memory());
    }
    judge_all(alloc, &kinds, counts, octets)?;
    judge_sets(alloc, &kinds, &sets, counts)?;
    let types = Types { kinds, names };
    judge_laws(&types, counts)?;
    Ok(types)
}

/// The text that octets are.
fn text_of(octets: &[u8]) -> Result<&str, LoadError>
    ensures ok { IfOk result (λ text. text.now ≡ octets.now) }
    ensures err { IfErr result (λ e. IsLineOf octets.now e.line) }
{
    match str::from_utf8(octets) {
        Ok(text) => Ok(text),
        Err(error) => {
            let feeds = feeds_in(&octets[..error.valid_up_to()]);
            Err(LoadError::at(feeds, Reason::NotUtf8))
        }
    }
}

/// How many line feeds there are.
fn feeds_in(octets: &[u8]) -> usize
    ensures { result ≡ line_feeds octets.now }
{
    octets.iter().filter(|octet| **octet == b'\n').count()
}

/// The lines of a text, and after them what is after the last line feed.
fn lines_of<'text>(alloc: Global, text: &'text str) -> Result<Vec<&'text str>, LoadError>
    ensures ok { IfOk result (λ lines. length lines.items ≡ line_feeds text.now + 1) }
    ensures err { IfErr result (λ e. e.line ≡ 1) }
{
    match cut(alloc, text) {
        Ok(lines) => Ok(lines),
        Err(_) => Err(LoadError::out_of_memory()),
    }
}

/// The parts of a text between its line feeds.
fn cut<'text>(alloc: Global, text: &'text str) -> Result<Vec<&'text str>, AllocError>
    ensures { IfOk result (λ lines. length lines.items ≡ line_feeds text.now + 1) }
{
    let mut lines = Vec::new(alloc);
    let mut rest = text;
    while let Some((line, behind)) = rest.split_once('\n') {
        lines.push(line)?;
        rest = behind;
    }
    lines.push(rest)?;
    Ok(lines)
}

/// How many lines follow the first one, where that is right.
fn counts_of(lines: &[&str]) -> Result<Counts, LoadError>
    ensures ok { IfOk result (λ counts. counts.modules + counts.types + counts.roots + 2 ≡ length lines.now) }
    ensures err { IfErr result (λ e. e.line ≡ 1) }
{
    let Some((first, behind)) = lines.split_first() else {
        return Err(LoadError::at(0, Reason::OtherVersion));
    };
    let counts = match read_counts(first) {
        Ok(counts) => counts,
        Err(reason) => return Err(LoadError::at(0, reason)),
    };
    if counts.sum() == Some(behind.len()) && behind.last() == Some(&"") {
        Ok(counts)
    } else {
        Err(LoadError::at(0, Reason::OtherCounts))
    }
}

/// The counts in a first line.
fn read_counts(line: &str) -> Result<Counts, Reason> {
    let Some(rest) = line.strip_prefix("per_schema 1 ") else {
        return Err(Reason::OtherVersion);
    };
    let mut words = Words::new(rest);
    let modules = words.count()?;
    let types = words.count()?;
    let roots = words.count()?;
    words.end()?;
    Ok(Counts {
        modules,
        types,
        roots,
    })
}

impl Counts {
    /// How many lines follow the first line, and one for the end of the text.
    fn sum(self) -> Option<usize>
        ensures { IfSome result (λ sum. sum ≡ self.modules + self.types + self.roots + 1) }
    {
        let counted = self.modules.checked_add(self.types)?;
        counted.checked_add(self.roots)?.checked_add(1)
    }
}

/// Reads the lines of modules.
fn read_modules(lines: &[&str], counts: Counts) -> Result<(), LoadError>
    requires { counts.modules + counts.types + counts.roots + 2 ≡ length lines.now }
    ensures { IfErr result (λ e. IsAmong (length lines.now) e.line) }
{
    for index in 1..1 + counts.modules {
        if let Err(reason) = read_module(lines[index]) {
            return Err(LoadError::at(index, reason));
        }
    }
    Ok(())
}

/// Reads a line of a module.
fn read_module(line: &str) -> Result<(), Reason> {
    let mut words = Words::new(line);
    words.expect("module")?;
    words.name()?;
    words.word()?;
    words.end()
}

/// The types that lines say.
fn read_kinds(alloc: Global, lines: &[&str], counts: Counts) -> Result<Vec<Kind>, LoadError>
    requires { counts.modules + counts.types + counts.roots + 2 ≡ length lines.now }
    ensures ok { IfOk result (λ kinds. length kinds.items ≡ counts.types) }
    ensures err { IfErr result (λ e. IsAmong (length lines.now) e.line) }
{
    let mut kinds = Vec::new(alloc);
    let first = 1 + counts.modules;
    for index in first..first + counts.types {
        if let Err(reason) = push_kind(alloc, lines[index], counts.types, &mut kinds) {
            return Err(LoadError::at(index, reason));
        }
    }
    Ok(kinds)
}

/// Puts what a line says of a type after others.
fn push_kind(alloc: Global, line: &str, types: usize, kinds: &mut Vec<Kind>) -> Result<(), Reason>
    ensures { OnOk result (length kinds.new.items ≡ length kinds.old.items + 1) }
{
    kinds.push(kind(alloc, line, types)?)?;
    Ok(())
}

/// The places of the lines of types that say a SET.
fn sets_in(alloc: Global, lines: &[&str], counts: Counts) -> Result<Vec<usize>, LoadError>
    requires { counts.modules + counts.types + counts.roots + 2 ≡ length lines.now }
    ensures ok { IfOk result (λ sets. All (λ place. place < counts.types) sets.items) }
    ensures err { IfErr result (λ e. e.line ≡ 1) }
{
    let mut sets = Vec::new(alloc);
    for place in 0..counts.types {
        if lines[1 + counts.modules + place].starts_with("set ") && sets.push(place).is_err() {
            return Err(LoadError::out_of_memory());
        }
    }
    Ok(sets)
}

/// The names that lines say.
fn read_roots(alloc: Global, lines: &[&str], counts: Counts) -> Result<Vec<Name>, LoadError>
    requires { counts.modules + counts.types + counts.roots + 2 ≡ length lines.now }
    ensures ok { IfOk result (λ names. All (λ name. name.place < counts.types) names.items) }
    ensures err { IfErr result (λ e. IsAmong (length lines.now) e.line) }
{
    let mut names = Vec::new(alloc);
    let mut known = BTreeSet::new(alloc);
    let first = 1 + counts.modules + counts.types;
    for index in first..first + counts.roots {
        let line = lines[index];
        if let Err(reason) = push_root(alloc, line, counts.types, &mut names, &mut known) {
            return Err(LoadError::at(index, reason));
        }
    }
    Ok(names)
}

/// Puts the name that a line says after others. `known` has the lines of these, without their places.
fn push_root<'text>(
    alloc: Global,
    line: &'text str,
    types: usize,
    names: &mut Vec<Name>,
    known: &mut BTreeSet<&'text str>,
) -> Result<(), Reason>
    ensures { OnOk result (All (λ name. name.place < types) names.old.items
        → All (λ name. name.place < types) names.new.items) }
{
    names.push(root(alloc, line, types)?)?;
    let Some((named, _)) = line.rsplit_once(' ') else {
        return Err(Reason::WordLacks);
    };
    if known.insert(named)? {
        Ok(())
    } else {
        Err(Reason::RootTwice)
    }
}

/// The name that a line says of one of so many types.
fn root(alloc: Global, line: &str, types: usize) -> Result<Name, Reason>
    ensures { IfOk result (λ name. name.place < types) }
{
    let mut words = Words::new(line);
    words.expect("root")?;
    let module = words.name()?;
    let name = words.name()?;
    let place = words.count()?;
    words.end()?;
    if place >= types {
        return Err(Reason::NoSuchPlace);
    }
    let name = format!(in alloc; "{module}.{name}")?;
    Ok(Name { name, place })
}

/// Judges each type of a table.
fn judge_all(alloc: Global, kinds: &[Kind], counts: Counts, octets: usize) -> Result<(), LoadError>
    requires { counts.modules + length kinds.now + 2 ≤ usize.MAX }
    ensures ok { OnOk result (All (KindIsInside (length kinds.now)) kinds.now) }
    ensures err { IfErr result (λ e. IsAmong (counts.modules + length kinds.now + 1) e.line) }
{
    let mut names = octets;
    for (place, kind) in kinds.iter().enumerate() {
        if let Err(reason) = judge(alloc, kinds, kind, &mut names) {
            return Err(LoadError::at(1 + counts.modules + place, reason));
        }
    }
    Ok(())
}

/// Judges the tags of the SETs, which are at some places of a table.
fn judge_sets(
    alloc: Global,
    kinds: &[Kind],
    sets: &[usize],
    counts: Counts,
) -> Result<(), LoadError>
    requires counted { counts.modules + counts.types + 2 ≤ usize.MAX }
    requires sets { All (λ place. place < counts.types) sets.now }
    ensures { IfErr result (λ e. IsAmong (counts.modules + counts.types + 1) e.line) }
{
    for place in sets {
        if let Some(Kind::Record(record)) = kinds.get(*place) {
            if let Err(reason) = judge_set(alloc, record) {
                return Err(LoadError::at(1 + counts.modules + *place, reason));
            }
        }
    }
    Ok(())
}

/// Refuses a table in which a type isn't lawful.
fn judge_laws(types: &Types, counts: Counts) -> Result<(), LoadError>
    requires { counts.modules + length types.now.kinds.items + 2 ≤ usize.MAX }
    ensures ok { OnOk result ((place : ℕ) → IsLawfulType (schema_at types.now.kinds.items place)) }
    ensures err { IfErr result (λ e. IsAmong (counts.modules + length types.now.kinds.items + 1) e.line) }
{
    match lawful_types::judge::judge(types) {
        Ok(()) => Ok(()),
        Err(fault) => {
            let line = 1 + counts.modules + fault.place;
            Err(LoadError::at(line, Reason::from(fault.reason)))
        }
    }
}
