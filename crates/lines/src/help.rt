// The grammar, for those who ask.
ghost use Rattle.std.specs.Prelude.{◌≡◌};
ghost use Rattle.lines.specs.Help.{help_text};

// Each command with its words, a line for each.
#[tactic(auto, unfolding(crate::specs::Verbs::verbs, crate::specs::Help::help_text))]
pub fn help_text() -> &'static str
    ensures { result.now ≡ help_text }
{
    "open old|may|new read|write PATH\n\
     close H\n\
     read H FROM MOST\n\
     write H FROM HEX\n\
     resize H SIZE\n\
     stat PATH\n\
     statopen H\n\
     makefolder PATH\n\
     remove PATH\n\
     removefolder PATH\n\
     next H NAME\n\
     list H\n\
     rename OLD NEW\n\
     join OLD NEW\n\
     makelink TO PATH\n\
     readlink PATH\n\
     sync\n\
     help\n"
}
