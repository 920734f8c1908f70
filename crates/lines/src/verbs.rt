// The first word of a line: what it asks for, and which words follow it.
ghost use Rattle.std.specs.Prelude.{◌≡◌};
ghost use Rattle.lines.specs.Verbs.{verb_of};

#[derive(Clone, Copy)]
pub enum Verb {
    Open,
    Read,
    Write,
    Resize,
    NextName,
    Sync,
    Help,
    OfHandle(HandleVerb),
    OfPath(PathVerb),
    OfPaths(PathsVerb),
}

// Followed by a handle.
#[derive(Clone, Copy)]
pub enum HandleVerb {
    Close,
    StatOpen,
    List,
}

// Followed by a path.
#[derive(Clone, Copy)]
pub enum PathVerb {
    Stat,
    MakeFolder,
    Remove,
    RemoveFolder,
    ReadLink,
}

// Followed by two paths.
#[derive(Clone, Copy)]
pub enum PathsVerb {
    Rename,
    Join,
    MakeLink,
}

impl Verb {
    // No TryFrom: that a word is no verb is told apart from the faults of words by who asks.
    #[tactic(auto, unfolding(crate::specs::Verbs::verbs, crate::specs::Verbs::verb_among, crate::specs::Verbs::verb_of))]
    pub fn of(word: &[u8]) -> Option<Verb>
        ensures { result ≡ verb_of word.now }
    {
        Some(match word {
            b"open" => Verb::Open,
            b"close" => Verb::OfHandle(HandleVerb::Close),
            b"read" => Verb::Read,
            b"write" => Verb::Write,
            b"resize" => Verb::Resize,
            b"stat" => Verb::OfPath(PathVerb::Stat),
            b"statopen" => Verb::OfHandle(HandleVerb::StatOpen),
            b"makefolder" => Verb::OfPath(PathVerb::MakeFolder),
            b"remove" => Verb::OfPath(PathVerb::Remove),
            b"removefolder" => Verb::OfPath(PathVerb::RemoveFolder),
            b"next" => Verb::NextName,
            b"list" => Verb::OfHandle(HandleVerb::List),
            b"rename" => Verb::OfPaths(PathsVerb::Rename),
            b"join" => Verb::OfPaths(PathsVerb::Join),
            b"makelink" => Verb::OfPaths(PathsVerb::MakeLink),
            b"readlink" => Verb::OfPath(PathVerb::ReadLink),
            b"sync" => Verb::Sync,
            b"help" => Verb::Help,
            _ => return None,
        })
    }
}
