// The words of a line, read as a request. `heap` and the words go along as two: a struct for the two would be taken apart again in each function.
ghost use Rattle.std.specs.Prelude.{◌≡◌, Ok};
ghost use Rattle.lines.specs.declared.verbs.Verb.TheVariants as verbs;
ghost use Rattle.lines.specs.Arguments.{counted};
ghost use Rattle.lines.specs.Asks.{and_then, asked_by};
ghost use Rattle.lines.specs.Of.{Comes, words_in};
ghost use Rattle.lines.specs.Requests.{request_of};

use crate::arguments::{access_for, miscount, way_for};
use crate::faults::ParseError;
use crate::notations::Notation;
use crate::numbers::number;
use crate::requests::Request;
use crate::verbs::{HandleVerb, PathVerb, PathsVerb, Verb};
use model::Call;
use std::alloc::Global;

#[tactic(auto, using(crate::proofs::Counts::so_many, crate::proofs::Counts::word_there))]
fn open(heap: Global, args: &[&[u8]]) -> Result<Request, ParseError>
    ensures { Comes request_of result (asked_by verbs.Open (words_in args.now)) }
{
    let [way, access, path] = args else {
        return Err(miscount(args, 3, 3).into());
    };
    Ok(Request::Call(Call::Open {
        way: way_for(way)?,
        write: access_for(access)?,
        path: Notation::Path.read(heap, path)?,
    }))
}

#[tactic(auto, using(crate::proofs::Counts::so_many, crate::proofs::Counts::word_there))]
fn read(args: &[&[u8]]) -> Result<Request, ParseError>
    ensures { Comes request_of result (asked_by verbs.Read (words_in args.now)) }
{
    let [handle, from, most] = args else {
        return Err(miscount(args, 3, 3).into());
    };
    Ok(Request::Call(Call::Read {
        handle: number(handle)?,
        from: number(from)?,
        most: number(most)?,
    }))
}

#[tactic(auto, using(crate::proofs::Counts::so_many, crate::proofs::Counts::word_there, crate::proofs::Counts::word_missing))]
fn write(heap: Global, args: &[&[u8]]) -> Result<Request, ParseError>
    ensures { Comes request_of result (asked_by verbs.Write (words_in args.now)) }
{
    let (handle, from, bytes) = match args {
        [handle, from] => (*handle, *from, b"".as_slice()),
        [handle, from, bytes] => (*handle, *from, *bytes),
        _ => return Err(miscount(args, 2, 3).into()),
    };
    Ok(Request::Call(Call::Write {
        handle: number(handle)?,
        from: number(from)?,
        bytes: Notation::Hex.read(heap, bytes)?,
    }))
}

#[tactic(auto, using(crate::proofs::Counts::so_many, crate::proofs::Counts::word_there))]
fn resize(args: &[&[u8]]) -> Result<Request, ParseError>
    ensures { Comes request_of result (asked_by verbs.Resize (words_in args.now)) }
{
    let [handle, size] = args else {
        return Err(miscount(args, 2, 2).into());
    };
    Ok(Request::Call(Call::Resize {
        handle: number(handle)?,
        size: number(size)?,
    }))
}

#[tactic(auto, using(crate::proofs::Counts::so_many, crate::proofs::Counts::word_there, crate::proofs::Counts::word_missing))]
fn next_name(heap: Global, args: &[&[u8]]) -> Result<Request, ParseError>
    ensures { Comes request_of result (asked_by verbs.NextName (words_in args.now)) }
{
    let (handle, after) = match args {
        [handle] => (*handle, b"".as_slice()),
        [handle, after] => (*handle, *after),
        _ => return Err(miscount(args, 1, 2).into()),
    };
    Ok(Request::Call(Call::NextName {
        handle: number(handle)?,
        after: Notation::Path.read(heap, after)?,
    }))
}

#[tactic(auto, using(crate::proofs::Counts::so_many, crate::proofs::Counts::word_there))]
fn of_handle(verb: HandleVerb, args: &[&[u8]]) -> Result<Request, ParseError>
    ensures { Comes request_of result (asked_by (verbs.OfHandle verb) (words_in args.now)) }
{
    let [handle] = args else {
        return Err(miscount(args, 1, 1).into());
    };
    let handle = number(handle)?;
    Ok(match verb {
        HandleVerb::Close => Request::Call(Call::Close { handle }),
        HandleVerb::StatOpen => Request::Call(Call::StatOpen { handle }),
        HandleVerb::List => Request::List { handle },
    })
}

#[tactic(auto, using(crate::proofs::Counts::so_many, crate::proofs::Counts::word_there))]
fn of_path(heap: Global, verb: PathVerb, args: &[&[u8]]) -> Result<Request, ParseError>
    ensures { Comes request_of result (asked_by (verbs.OfPath verb) (words_in args.now)) }
{
    let [path] = args else {
        return Err(miscount(args, 1, 1).into());
    };
    let path = Notation::Path.read(heap, path)?;
    Ok(Request::Call(match verb {
        PathVerb::Stat => Call::Stat { path },
        PathVerb::MakeFolder => Call::MakeFolder { path },
        PathVerb::Remove => Call::Remove { path },
        PathVerb::RemoveFolder => Call::RemoveFolder { path },
        PathVerb::ReadLink => Call::ReadLink { path },
    }))
}

#[tactic(auto, using(crate::proofs::Counts::so_many, crate::proofs::Counts::word_there))]
fn of_paths(heap: Global, verb: PathsVerb, args: &[&[u8]]) -> Result<Request, ParseError>
    ensures { Comes request_of result (asked_by (verbs.OfPaths verb) (words_in args.now)) }
{
    let [first, second] = args else {
        return Err(miscount(args, 2, 2).into());
    };
    let first = Notation::Path.read(heap, first)?;
    let second = Notation::Path.read(heap, second)?;
    Ok(Request::Call(match verb {
        PathsVerb::Rename => Call::Rename {
            old: first,
            new: second,
        },
        PathsVerb::Join => Call::Join {
            old: first,
            new: second,
        },
        PathsVerb::MakeLink => Call::MakeLink {
            to: first,
            path: second,
        },
    }))
}

#[tactic(auto, using(crate::proofs::Counts::so_many, crate::proofs::Counts::word_there))]
fn alone(request: Request, args: &[&[u8]]) -> Result<Request, ParseError>
    ensures { Comes request_of result (and_then (counted 0 0 (words_in args.now)) (λ _. Ok (request_of request))) }
{
    match args {
        [] => Ok(request),
        _ => Err(miscount(args, 0, 0).into()),
    }
}

// Each verb has words of its own, so this is a match; a table of functions would be no plainer.
pub fn asked(heap: Global, verb: Verb, args: &[&[u8]]) -> Result<Request, ParseError>
    ensures { Comes request_of result (asked_by verb (words_in args.now)) }
{
    match verb {
        Verb::Open => open(heap, args),
        Verb::Read => read(args),
        Verb::Write => write(heap, args),
        Verb::Resize => resize(args),
        Verb::NextName => next_name(heap, args),
        Verb::Sync => alone(Request::Call(Call::Sync), args),
        Verb::Help => alone(Request::Help, args),
        Verb::OfHandle(verb) => of_handle(verb, args),
        Verb::OfPath(verb) => of_path(heap, verb, args),
        Verb::OfPaths(verb) => of_paths(heap, verb, args),
    }
}
