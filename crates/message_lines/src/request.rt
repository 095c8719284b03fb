//! What words ask a program for.

use clap::{Arg, ArgAction, ArgMatches, Command, Error};
use line_replies::codecs::codec_of_word;
use rasn_types::types::Codec;
use std::alloc::Global;

/// What a program is told by the words after its name.
#[derive(Drop)]
pub struct Request<'words> {
    /// The names of schema files.
    pub schemas: Vec<&'words str>,
    /// The variant in which the messages are encoded (X.691 7), and the word that names their type; none where the
    /// names of types are asked for.
    pub of: Option<(Codec, &'words str)>,
    /// Which messages the input has.
    pub form: Form,
    /// Whether JSON is laid out in lines.
    pub is_pretty: bool,
    /// Whether it is told where a message departs from its object sets.
    pub is_checked: bool,
    /// Whether each line has a first column, which is copied to the reply.
    pub has_column: bool,
    /// Whether a line that was refused gives the status 1.
    pub is_strict: bool,
}

/// Which messages an input has.
#[derive(Clone, Copy, Debug, PartialEq, Eq)]
pub enum Form {
    /// One on the first line.
    FirstLine,
    /// One on each line.
    AllLines,
    /// One, by its octets.
    Octets,
}

/// The words that a program takes.
#[derive(Clone, Copy, Debug, PartialEq, Eq)]
pub enum Program {
    /// It shows messages.
    Show,
    /// It makes messages.
    Make,
}

/// What words, of which the first is the program's name, ask for. The error has the text of the help where that is
/// asked for, and else says which word is wrong.
pub fn request_of<'words>(
    alloc: Global,
    program: Program,
    words: &'words [String],
) -> Result<Request<'words>, Error> {
    let command = command(alloc, program)?;
    let matches = command.try_get_matches_from(words)?;
    Ok(Request {
        schemas: schemas_of(alloc, &matches)?,
        of: type_of(&matches),
        form: form_of(&matches),
        is_pretty: matches.get_flag("pretty"),
        is_checked: matches.get_flag("check"),
        has_column: matches.get_flag("column"),
        is_strict: matches.get_flag("strict"),
    })
}

/// The names of schema files.
fn schemas_of<'words>(
    alloc: Global,
    matches: &ArgMatches<'words>,
) -> Result<Vec<&'words str>, Error> {
    let mut names = Vec::new(alloc);
    if let Some(texts) = matches.get_strs("schema") {
        names.extend_from_slice(texts)?;
    }
    Ok(names)
}

/// The variant and the word that names a type.
fn type_of<'words>(matches: &ArgMatches<'words>) -> Option<(Codec, &'words str)> {
    let codec = codec_of_word(matches.get_str("VARIANT")?)?;
    Some((codec, matches.get_str("TYPE")?))
}

/// Which messages the input has.
fn form_of(matches: &ArgMatches<'_>) -> Form {
    if matches.get_flag("binary") {
        return Form::Octets;
    }
    match matches.get_str("lines") {
        Some(_) => Form::AllLines,
        None => Form::FirstLine,
    }
}

/// The words that a program takes.
fn command<'words>(alloc: Global, program: Program) -> Result<Command<'words>, Error> {
    let of_both = Command::new(alloc, name_of(program))
        .about(about(program))
        .version(VERSION)
        .arg(schema(alloc))?
        .arg(types(alloc))?
        .arg(variant(alloc)?)?
        .arg(type_word(alloc)?)?
        .arg(lines(alloc))?
        .arg(column(alloc)?)?
        .arg(flag(
            alloc,
            "strict",
            "End with status 1 where a line was refused",
        ))?;
    match program {
        Program::Make => Ok(of_both),
        Program::Show => Ok(
            of_both
                .arg(flag(alloc, "pretty", "A line for each item and member"))?
                .arg(check(alloc))?
                .arg(binary(alloc)?)?,
        ),
    }
}

/// The version of the programs.
const VERSION: &str = "0.30.0";

/// A program's name.
fn name_of<'words>(program: Program) -> &'words str {
    match program {
        Program::Show => "per_show",
        Program::Make => "per_make",
    }
}

/// What a program does.
fn about<'words>(program: Program) -> &'words str {
    match program {
        Program::Show => "Reads messages in hexadecimal (X.691) and prints them as JSON (X.697)",
        Program::Make => "Reads messages in JSON (X.697) and prints them in hexadecimal (X.691)",
    }
}

/// The name of a schema file.
fn schema<'words>(alloc: Global) -> Arg<'words> {
    Arg::new(alloc, "schema")
        .long("schema")
        .value_name("FILE")
        .required(true)
        .action(ArgAction::Append)
        .help("A schema file; more than one may be named")
}

/// Whether the names of types are asked for.
fn types<'words>(alloc: Global) -> Arg<'words> {
    flag(
        alloc,
        "types",
        "Print the names of the types in the schema files",
    )
}

/// The variant.
fn variant<'words>(alloc: Global) -> Result<Arg<'words>, Error> {
    let words = Arg::new(alloc, "VARIANT")
        .value_parser(["aper", "uper"].as_slice())
        .help("ALIGNED or UNALIGNED");
    Ok(words.required_unless_present("types")?)
}

/// The word that names a type.
fn type_word<'words>(alloc: Global) -> Result<Arg<'words>, Error> {
    let word = Arg::new(alloc, "TYPE").help("The messages' type, as MODULE.TYPE or TYPE");
    Ok(word.required_unless_present("types")?)
}

/// Whether each line has a message.
fn lines<'words>(alloc: Global) -> Arg<'words> {
    Arg::new(alloc, "lines")
        .value_parser(["lines"].as_slice())
        .help("Reply to each line of the input, and not just to the first")
}

/// Whether each line has a first column.
fn column<'words>(alloc: Global) -> Result<Arg<'words>, Error> {
    let word = flag(
        alloc,
        "column",
        "Each line has a first column, which is copied to the reply",
    );
    Ok(word.requires_arg("lines")?)
}

/// Whether it is told where a message departs from its object sets.
fn check<'words>(alloc: Global) -> Arg<'words> {
    flag(
        alloc,
        "check",
        "Behind the JSON a line for each mandatory element that lacks, each one twice, each other criticality",
    )
}

/// Whether the input is one message's octets.
fn binary<'words>(alloc: Global) -> Result<Arg<'words>, Error> {
    let word = flag(
        alloc,
        "binary",
        "Read one message's octets in place of hexadecimal",
    );
    Ok(word.conflicts_with("lines")?)
}

/// A word that is there or not.
fn flag<'words>(alloc: Global, name: &'static str, help: &'static str) -> Arg<'words> {
    Arg::new(alloc, name)
        .long(name)
        .action(ArgAction::SetTrue)
        .help(help)
}
