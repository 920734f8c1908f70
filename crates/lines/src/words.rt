// A line cut into its words.
ghost use Rattle.std.specs.Prelude.{◌≡◌, ◌++◌, IfOk, OnOk};
ghost use Rattle.lines.specs.Words.{without_return, ended, words_of};
ghost use Rattle.lines.specs.Of.{words_in};

use std::alloc::{AllocError, Global};

const SPACE: u8 = b' ';

const RETURN: u8 = b'\r';

fn without_return(line: &[u8]) -> &[u8]
    ensures { result.now ≡ without_return line.now }
{
    match line {
        [front @ .., RETURN] => front,
        _ => line,
    }
}

// Adds a word that ends, if one was begun.
fn end_word<'a>(words: &mut Vec<&'a [u8]>, word: &'a [u8]) -> Result<(), AllocError>
    ensures { OnOk result (words_in words.new.items ≡ words_in words.old.items ++ ended word.now) }
{
    if word.is_empty() {
        return Ok(());
    }
    words.push(word)?;
    Ok(())
}

pub fn split_words<'a>(heap: Global, line: &'a [u8]) -> Result<Vec<&'a [u8]>, AllocError>
    ensures { IfOk result (λ v. words_in v.items ≡ words_of line.now) }
{
    let line = without_return(line);
    let mut words = Vec::new(heap);
    let mut start = 0;
    for (i, b) in line.iter().enumerate() {
        if *b == SPACE {
            end_word(&mut words, &line[start..i])?;
            start = i + 1;
        }
    }
    end_word(&mut words, &line[start..line.len()])?;
    Ok(words)
}
