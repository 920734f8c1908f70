// Which field of a word is meant.
ghost use Rattle.std.specs.Prelude.{◌≡◌, ◌<◌, ◌≤◌};
ghost use Rattle.pages.specs.Flags.{flag_word, flag_bit, version_word, owner};

// A flag of a page, of a physical page or of a node.
#[derive(Clone, Copy)]
pub(crate) enum Flag {
    // The page is volatile.
    Volatile,
    // The pages as they are have the physical page; the synced ones have it.
    Busy,
    Held,
    // The node is to be written; the second of its slots counts.
    Dirty,
    Slot,
}

impl Flag {
    // Which of the two words has it, and which bit of the word it is.
    pub(crate) fn word(self) -> usize
        ensures value { result ≡ flag_word self }
        ensures within { result ≤ 1 }
    {
        match self {
            Flag::Volatile | Flag::Busy | Flag::Dirty => 0,
            Flag::Held | Flag::Slot => 1,
        }
    }

    pub(crate) fn bit(self) -> u32
        ensures value { result ≡ flag_bit self }
        ensures within { (38 ≤ result) × (result < 41) }
    {
        match self {
            Flag::Volatile | Flag::Held => 38,
            Flag::Busy | Flag::Slot => 39,
            Flag::Dirty => 40,
        }
    }
}

// The pages as they are, and as they were synced.
#[derive(Clone, Copy)]
pub(crate) enum Version {
    Now,
    Synced,
}

impl Version {
    // Which of the two words has the places.
    pub(crate) fn word(self) -> usize
        ensures value { result ≡ version_word self }
        ensures within { result ≤ 1 }
    {
        match self {
            Version::Now => 0,
            Version::Synced => 1,
        }
    }

    // The flag of the physical pages that these pages have.
    pub(crate) fn owner(self) -> Flag
        ensures { result ≡ owner self }
    {
        match self {
            Version::Now => Flag::Busy,
            Version::Synced => Flag::Held,
        }
    }
}
