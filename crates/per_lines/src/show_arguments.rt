//! What the program is asked to do.

ghost use Rattle.std.specs.Prelude.{◌≡◌, ◌≢◌, ◌∷◌, [], IfErr, IfNone, IfOk, IfSome, length, map, string_bytes};
ghost use Rattle.line_replies.specs.declared.layout.Layout.{Layout as a_layout};
ghost use Rattle.per_lines.specs.Ends.{IsOfWords};
ghost use Rattle.per_lines.specs.Requests.{AskForNothing, form_words, request_words, shown_words};
ghost use Rattle.per_lines.specs.declared.show_arguments.Extent.{Extent as an_extent};
ghost use Rattle.per_lines.specs.declared.show_arguments.Showing.{Showing as a_showing};

use crate::show_fault::Fault;
use crate::show_names::nearest;
use crate::types::NamedType;
use line_replies::codecs::codec_of_word;
use line_replies::layout::Layout;
use rasn_below::types::Codec;
use std::alloc::Global;

/// Which lines of an input are shown.
#[derive(Clone, Copy, Debug, PartialEq, Eq)]
pub enum Extent {
    /// The first.
    FirstLine,
    /// All.
    AllLines,
}

/// What is shown of an input, and how.
#[derive(Clone, Copy, Debug, PartialEq, Eq)]
pub struct Showing {
    /// The variant in which the values are encoded (X.691 7).
    pub codec: Codec,
    /// Their type.
    pub type_name: NamedType,
    /// Which lines are shown.
    pub extent: Extent,
    /// How the JSON is laid out.
    pub layout: Layout,
}

/// What the program is asked to do.
#[derive(Clone, Copy, Debug, PartialEq, Eq)]
pub enum Request {
    /// To name its words and the types.
    Help,
    /// To show an input.
    Show(Showing),
}

impl Request {
    /// What the words after the program's name ask for. A word that is no type's is told with the nearest that is.
    pub fn of_words(alloc: Global, words: &[String]) -> Result<Request, Fault>
        ensures ok { IfOk result (λ q. map string_bytes words.now ≡ request_words q) }
        ensures err { IfErr result (IsOfWords (map string_bytes words.now)) }
    {
        match Request::named(words) {
            Some(request) => Ok(request),
            None => Err(fault_of_words(alloc, words)),
        }
    }

    /// What words ask for.
    fn named(words: &[String]) -> Option<Request>
        ensures some { IfSome result (λ q. map string_bytes words.now ≡ request_words q) }
        ensures none { IfNone result (AskForNothing (map string_bytes words.now)) }
    {
        match words {
            [word] => Request::of_word(word.as_str()),
            _ => Request::showing(words),
        }
    }

    /// What one word asks for.
    fn of_word(word: &str) -> Option<Request>
        ensures some { IfSome result (λ q. word.now ∷ [] ≡ request_words q) }
        ensures none { IfNone result (AskForNothing (word.now ∷ [])) }
    {
        match word {
            "--help" => Some(Request::Help),
            _ => None,
        }
    }

    /// What words ask to be shown, which aren't one word.
    fn showing(words: &[String]) -> Option<Request>
        requires { length words.now ≢ 1 }
        ensures some { IfSome result (λ q. map string_bytes words.now ≡ request_words q) }
        ensures none { IfNone result (AskForNothing (map string_bytes words.now)) }
    {
        Some(Request::Show(Showing::of_words(words)?))
    }
}

impl Showing {
    /// What words ask to be shown: a codec, a type, `lines` or nothing, and a layout.
    fn of_words(words: &[String]) -> Option<Showing>
        ensures some { IfSome result (λ a. map string_bytes words.now ≡ shown_words a) }
        ensures none { IfNone result ((a : a_showing) → map string_bytes words.now ≢ shown_words a) }
    {
        let [codec, name, form @ ..] = words else {
            return None;
        };
        let (extent, layout) = form_of_words(form)?;
        Some(Showing {
            codec: codec_of_word(codec.as_str())?,
            type_name: NamedType::of_word(name.as_str())?,
            extent,
            layout,
        })
    }
}

/// Which lines, and in which layout, the words after the type ask for.
fn form_of_words(words: &[String]) -> Option<(Extent, Layout)>
    ensures some { IfSome result (λ f. map string_bytes words.now ≡ form_words f.0 f.1) }
    ensures none { IfNone result ((e : an_extent) (l : a_layout) → map string_bytes words.now ≢ form_words e l) }
{
    match words {
        [] => Some((Extent::FirstLine, Layout::Compact)),
        [word] => form_of_word(word.as_str()),
        [lines, pretty] => form_of_two(lines.as_str(), pretty.as_str()),
        _ => None,
    }
}

/// What one word after the type asks for.
fn form_of_word(word: &str) -> Option<(Extent, Layout)>
    ensures some { IfSome result (λ f. word.now ∷ [] ≡ form_words f.0 f.1) }
    ensures none { IfNone result ((e : an_extent) (l : a_layout) → word.now ∷ [] ≢ form_words e l) }
{
    match word {
        "lines" => Some((Extent::AllLines, Layout::Compact)),
        "--pretty" => Some((Extent::FirstLine, Layout::Pretty)),
        _ => None,
    }
}

/// What two words after the type ask for.
fn form_of_two(lines: &str, pretty: &str) -> Option<(Extent, Layout)>
    ensures some { IfSome result (λ f. lines.now ∷ pretty.now ∷ [] ≡ form_words f.0 f.1) }
    ensures none { IfNone result ((e : an_extent) (l : a_layout) → lines.now ∷ pretty.now ∷ [] ≢ form_words e l) }
{
    match (lines, pretty) {
        ("lines", "--pretty") => Some((Extent::AllLines, Layout::Pretty)),
        _ => None,
    }
}

/// Why words ask for nothing.
fn fault_of_words(alloc: Global, words: &[String]) -> Fault
    requires { AskForNothing (map string_bytes words.now) }
    ensures { IsOfWords (map string_bytes words.now) result }
{
    let [_, name, ..] = words else {
        return Fault::WrongArguments;
    };
    if NamedType::of_word(name.as_str()).is_some() {
        return Fault::WrongArguments;
    }
    match nearest(alloc, name.as_str()) {
        Ok(name) => Fault::UnknownType(name),
        Err(error) => Fault::from(error),
    }
}
