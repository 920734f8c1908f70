// The words after the first: how many, and what those that are neither number nor bytes stand for.
ghost use Rattle.std.specs.Prelude.{◌≡◌, ◌<◌, ◌≤◌, length};
ghost use Rattle.model.specs.Of.{way_of};
ghost use Rattle.lines.specs.Arguments.{counted, way_for, access_for};
ghost use Rattle.lines.specs.Of.{words_in, told};

use crate::faults::Fault;
use model::Way;

// Why words are not as many as they should be.
#[tactic(auto, using(crate::proofs::Counts::too_few, crate::proofs::Counts::too_many))]
pub fn miscount(args: &[&[u8]], least: usize, most: usize) -> Fault
    requires { least ≤ length args.now → most < length args.now }
    ensures { Err result ≡ counted least most (words_in args.now) }
{
    if args.len() < least {
        Fault::TooFewWords
    } else {
        Fault::TooManyWords
    }
}

#[tactic(auto, unfolding(crate::specs::Arguments::way_for))]
pub fn way_for(word: &[u8]) -> Result<Way, Fault>
    ensures { told way_of result ≡ way_for word.now }
{
    match word {
        b"old" => Ok(Way::Old),
        b"may" => Ok(Way::May),
        b"new" => Ok(Way::New),
        _ => Err(Fault::BadWay),
    }
}

// Whether a file is opened for writing.
#[tactic(auto, unfolding(crate::specs::Arguments::access_for))]
pub fn access_for(word: &[u8]) -> Result<bool, Fault>
    ensures { result ≡ access_for word.now }
{
    match word {
        b"read" => Ok(false),
        b"write" => Ok(true),
        _ => Err(Fault::BadAccess),
    }
}
