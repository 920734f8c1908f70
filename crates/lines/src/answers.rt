// The text of an answer.
ghost use Rattle.std.specs.Prelude.{◌≡◌, IfOk, string_bytes};
ghost use Rattle.model.specs.Of.{reply_of};
ghost use Rattle.lines.specs.Lines.{ReadsBack};
ghost use Rattle.lines.specs.Answers.{reply_text};

use crate::notations::Notation;
use model::{Reply, Stat};
use std::alloc::{AllocError, Global};

// A match, and no Display of a reply with its notation: of that text it was not proved that it reads back, since the numbers in a reply are known to fit only where code takes it apart.
#[tactic(auto, using(crate::proofs::Printed::printed))]
pub fn print_reply(heap: Global, reply: Reply<'_>, bytes_as: Notation) -> Result<String, AllocError>
    ensures text { IfOk result (λ s. string_bytes s ≡ reply_text bytes_as (reply_of reply.entry)) }
    ensures back { IfOk result (λ s. ReadsBack bytes_as (reply_of reply.entry) (string_bytes s)) }
{
    match reply {
        Reply::No(why) => format!(in heap; "no {}", u8::from(why)),
        Reply::Done => String::from_str(heap, "done"),
        Reply::Full => String::from_str(heap, "full"),
        Reply::Opened(handle) => format!(in heap; "handle {handle}"),
        Reply::Bytes(bytes) => bytes_as.text(heap, bytes),
        Reply::Told(
            Stat {
                kind,
                node,
                size,
                names,
            },
        ) => format!(in heap; "{kind} {node} {size} {names}"),
        Reply::Named(name) => Notation::Path.text(heap, name),
    }
}
