// What a line asks for.
ghost use Rattle.std.specs.Prelude.{◌≡◌};
ghost use Rattle.std.specs.Option.{option_map};
ghost use Rattle.model.specs.Of.{call_of};
ghost use Rattle.lines.specs.Asks.{call_in, ShownAs};
ghost use Rattle.lines.specs.Requests.{request_of};

use crate::notations::Notation;
use model::Call;

// A call, which owns its bytes; or all names of a folder, or the grammar.
#[derive(Drop)]
pub enum Request {
    Call(Call<Vec<u8>>),
    List { handle: u64 },
    Help,
}

impl Request {
    // The call that is asked for, if it is one.
    pub fn as_call(&self) -> Option<Call<&[u8]>>
        ensures { option_map call_of result ≡ call_in (request_of self.now) }
    {
        match self {
            Request::Call(call) => Some(call.borrowed()),
            Request::List { .. } | Request::Help => None,
        }
    }

    // How the bytes are to be shown that the answer has.
    pub fn bytes_as(&self) -> Notation
        ensures { ShownAs (request_of self.now) result }
    {
        match self {
            Request::Call(Call::ReadLink { .. }) => Notation::Path,
            _ => Notation::Hex,
        }
    }
}
