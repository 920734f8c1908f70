// The lines of a script: those of `card`, and those that only a rehearsal has.
ghost use Rattle.std.specs.Prelude.{◌≡◌, Ok, position};
ghost use Rattle.lines.specs.Asks.{and_then};
ghost use Rattle.lines.specs.Numbers.{number_of};
ghost use Rattle.rehearse.specs.Script.{is_newline, line_of, after_line};

use lines::{Fault, ParseError, Request};
use std::alloc::Global;

const NEWLINE: u8 = b'\n';

// The power fails when so many things more were asked of the device; the seed chooses what each sector then holds.
#[derive(Clone, Copy)]
pub struct Cut {
    pub askings: u64,
    pub seed: u64,
}

// What a desk is asked.
#[derive(Drop)]
pub enum Question {
    Request(Request),
    Tree,
    Count,
}

// What a line is about.
#[derive(Drop)]
pub enum Line {
    // A blank card of so many sectors.
    Card(u64),
    Cut(Cut),
    Ask(Question),
}

fn newline_in(text: &[u8]) -> Option<usize>
    ensures { result ≡ position is_newline text.now }
{
    text.iter().position(|byte| *byte == NEWLINE)
}

// The first line of a text, without its newline, and the text after it.
pub fn first_line(text: &[u8]) -> (&[u8], &[u8])
    ensures line { result.0.now ≡ line_of text.now }
    ensures rest { result.1.now ≡ after_line text.now }
{
    match newline_in(text) {
        Some(end) => (&text[..end], &text[end + 1..]),
        None => (text, b""),
    }
}

fn cut_after(askings: &[u8], seed: &[u8]) -> Result<Cut, Fault>
    ensures { result ≡ and_then (number_of askings.entry.now) (λ n. and_then (number_of seed.now) (λ s. Ok (record { askings = n; seed = s }))) }
{
    let askings = lines::number(askings)?;
    let seed = lines::number(seed)?;
    Ok(Cut { askings, seed })
}

fn asked(heap: Global, line: &[u8]) -> Result<Option<Line>, ParseError> {
    Ok(lines::parse(heap, line)?.map(|request| Line::Ask(Question::Request(request))))
}

// What a line, without its newline, is about; none where it asks for nothing.
pub fn read_line(heap: Global, line: &[u8]) -> Result<Option<Line>, ParseError> {
    let words = lines::split_words(heap, line)?;
    match words.as_slice() {
        [b"tree"] => Ok(Some(Line::Ask(Question::Tree))),
        [b"count"] => Ok(Some(Line::Ask(Question::Count))),
        [b"cut", askings, seed] => Ok(Some(Line::Cut(cut_after(askings, seed)?))),
        [word] => match lines::number(word) {
            Ok(sectors) => Ok(Some(Line::Card(sectors))),
            Err(_) => asked(heap, line),
        },
        _ => asked(heap, line),
    }
}
