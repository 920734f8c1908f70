// Bytes, as the words of a line and the answers have them.
ghost use Rattle.std.specs.Prelude.{◌≡◌, ◌+◌, ◌<◌, ◌≤◌, ◌++◌, take, length, Some, IfOk, vec_items, string_bytes};
ghost use Rattle.std.specs.Str.{IsUtf8};
ghost use Rattle.lines.specs.Bytes.{pair_value, first_pair, first_escaped, first_of, bytes_of, no_bytes, fault_of, hex_digit, hex_pair, is_plain, byte_text, all_text, text_of};
ghost use Rattle.lines.specs.Lines.{BytesBack};
ghost use Rattle.lines.specs.Of.{Comes, first_in};

use crate::faults::{Fault, ParseError};
use std::alloc::{AllocError, Global};
use std::fmt;
use std::fmt::Display;

const ESCAPE: u8 = b'\\';

const SPACE: u8 = b' ';

// So many bytes are written by one call, since a call costs more than a byte does.
const AT_ONCE: usize = 64;

// The text of a byte has at most three.
const ROOM: usize = 3 * AT_ONCE;

// How bytes are written: two hexadecimal digits for each, or as they stand but for those that are escaped.
#[derive(Clone, Copy, Debug, PartialEq, Eq)]
pub enum Notation {
    Hex,
    Path,
}

// The byte that two hexadecimal digits stand for, of either case.
fn pair_value(high: u8, low: u8) -> Option<u8>
    ensures { result ≡ pair_value high low }
{
    let high = char::from(high).to_digit(16)?;
    let low = char::from(low).to_digit(16)?;
    Some((16 * high + low) as u8)
}

// The byte that two digits stand for, and the text after them.
fn first_pair(text: &[u8]) -> Option<(u8, &[u8])>
    ensures { first_in result ≡ first_pair text.now }
{
    let [high, low, rest @ ..] = text else {
        return None;
    };
    let byte = pair_value(*high, *low)?;
    Some((byte, rest))
}

fn first_escaped(text: &[u8]) -> Option<(u8, &[u8])>
    ensures { first_in result ≡ first_escaped text.now }
{
    match text {
        [ESCAPE, rest @ ..] => first_pair(rest),
        [first, rest @ ..] if *first > SPACE => Some((*first, rest)),
        _ => None,
    }
}

fn hex_digit(value: u8) -> u8
    requires { value < 16 }
    ensures { result ≡ hex_digit value }
{
    if value < 10 {
        b'0' + value
    } else {
        b'a' - 10 + value
    }
}

// Puts the two digits of a byte at a place.
fn put_pair(text: &mut [u8; ROOM], at: usize, byte: u8)
    requires { at + 2 ≤ ROOM }
    ensures { take (at + 2) text.new ≡ take at text.old ++ hex_pair byte }
{
    text[at] = hex_digit(byte / 16);
    text[at + 1] = hex_digit(byte % 16);
}

// Whether a byte of a path is printed as it stands.
fn is_plain(byte: u8) -> bool
    ensures { result ≡ is_plain byte }
{
    byte.is_ascii_graphic() && byte != ESCAPE
}

impl Notation {
    fn fault(self) -> Fault
        ensures { result ≡ fault_of self }
    {
        match self {
            Notation::Hex => Fault::BadHex,
            Notation::Path => Fault::BadEscape,
        }
    }

    // How no bytes at all are written.
    fn no_bytes(self) -> &'static str
        ensures { result.now ≡ no_bytes self }
    {
        match self {
            Notation::Hex => "",
            Notation::Path => "\\.",
        }
    }

    // The byte that a text begins with, and the text after it.
    fn first<'a>(self, text: &'a [u8]) -> Option<(u8, &'a [u8])>
        ensures { first_in result ≡ first_of self text.now }
    {
        match self {
            Notation::Hex => first_pair(text),
            Notation::Path => first_escaped(text),
        }
    }

    // The bytes that a word stands for.
    pub(crate) fn read(self, heap: Global, word: &[u8]) -> Result<Vec<u8>, ParseError>
        ensures { Comes vec_items result (bytes_of self word.now) }
    {
        let mut bytes = Vec::new(heap);
        if word == self.no_bytes().as_bytes() {
            return Ok(bytes);
        }
        let mut rest = word;
        while let Some((byte, after)) = self.first(rest) {
            bytes.push(byte)?;
            rest = after;
        }
        if rest.is_empty() {
            Ok(bytes)
        } else {
            Err(self.fault().into())
        }
    }

    // Puts the text of a byte at a place, and says where it ends.
    fn put(self, text: &mut [u8; ROOM], at: usize, byte: u8) -> usize
        requires { at + 3 ≤ ROOM }
        ensures text { take result text.new ≡ take at text.old ++ byte_text self byte }
        ensures end { result ≤ at + 3 }
    {
        match self {
            Notation::Hex => {
                put_pair(text, at, byte);
                at + 2
            }
            Notation::Path if is_plain(byte) => {
                text[at] = byte;
                at + 1
            }
            Notation::Path => {
                text[at] = ESCAPE;
                put_pair(text, at + 1, byte);
                at + 3
            }
        }
    }

    // Puts the text of a few bytes at the front, and says where it ends.
    fn put_all(self, text: &mut [u8; ROOM], bytes: &[u8]) -> usize
        requires { length bytes.now ≤ AT_ONCE }
        ensures text { take result text.new ≡ all_text self bytes.now }
        ensures utf8 { IsUtf8 (take result text.new) }
        ensures end { result ≤ ROOM }
    {
        let mut end = 0;
        for byte in bytes {
            end = self.put(text, end, *byte);
        }
        end
    }

    // Bytes as they are printed.
    pub(crate) fn text(self, heap: Global, bytes: &[u8]) -> Result<String, AllocError>
        ensures text { IfOk result (λ s. string_bytes s ≡ text_of self bytes.now) }
        ensures back { IfOk result (λ s. BytesBack self bytes.now (string_bytes s)) }
    {
        let written = Written {
            bytes,
            notation: self,
        };
        written.to_string(heap)
    }
}

// Bytes, as they are printed.
#[derive(Clone, Copy)]
struct Written<'a> {
    bytes: &'a [u8],
    notation: Notation,
}

impl fmt::Display for Written<'_> {
    ghost output = { λ w. Some (text_of w.notation w.bytes.now) };

    fn fmt<W: fmt::Write>(&self, f: &mut fmt::Formatter<W>) -> fmt::Result {
        if self.bytes.is_empty() {
            return f.write_str(self.notation.no_bytes());
        }
        let mut text = [0; ROOM];
        for bytes in self.bytes.chunks(AT_ONCE) {
            let end = self.notation.put_all(&mut text, bytes);
            let Ok(text) = str::from_utf8(&text[..end]) else {
                unreachable!();
            };
            f.write_str(text)?;
        }
        Ok(())
    }
}
