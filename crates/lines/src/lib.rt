// The lines that the program `card` reads, and the text of its answers: docs/LINES.md has the grammar, specs/ says it formally.
#![tactic(auto)]

mod answers;
mod arguments;
mod asks;
mod faults;
mod help;
mod notations;
mod numbers;
mod requests;
mod verbs;
mod words;

ghost use Rattle.std.specs.Prelude.{◌≡◌, ◌==◌, slice_index, Some, Ok};
ghost use Rattle.lines.specs.Asks.{Asked, words_meant, parse_of};
ghost use Rattle.lines.specs.Lines.{AskedFits, line_of};
ghost use Rattle.lines.specs.Of.{Comes, words_in};
ghost use Rattle.lines.specs.Requests.{parsed_of};

pub use answers::print_reply;
use asks::asked;
pub use faults::{Fault, ParseError};
pub use help::help_text;
pub use notations::Notation;
pub use numbers::number;
pub use requests::Request;
use std::alloc::Global;
use verbs::Verb;
pub use words::split_words;

fn is_comment(word: &[u8]) -> bool
    ensures { result ≡ (slice_index word.now 0 == 35) }
{
    word.starts_with(b"#")
}

fn parse_words(heap: Global, words: &[&[u8]]) -> Result<Option<Request>, ParseError>
    ensures { Comes parsed_of result (words_meant (words_in words.now)) }
{
    let [word, args @ ..] = words else {
        return Ok(None);
    };
    if is_comment(word) {
        return Ok(None);
    }
    let verb = Verb::of(word).ok_or(Fault::UnknownWord)?;
    Ok(Some(asked(heap, verb, args)?))
}

// What a line, without its newline, asks for; a line with no word, or a comment, asks for nothing. Every request can be typed: the line that `line_of` gives is read as that request.
#[tactic(auto, using(crate::proofs::Typed::lines_back))]
pub fn parse(heap: Global, line: &[u8]) -> Result<Option<Request>, ParseError>
    ensures meant { Comes parsed_of result (parse_of line.now) }
    ensures typed { (q : Asked) → AskedFits q → line.now ≡ line_of q → Comes parsed_of result (Ok (Some q)) }
{
    let words = split_words(heap, line)?;
    parse_words(heap, words.as_slice())
}
