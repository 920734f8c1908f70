// One small function for each law of the meaning: its contract is the law.
ghost use Rattle.model.specs.Room.{AlwaysTidy, WeighsOneWay, NoPartHeavier, SweepsLighter, AloneIsLess, NowIsFirst, CutNamed};
ghost use Rattle.model.specs.Sound.{StaysSound, AlwaysSound, AnswersReach};
ghost use Rattle.model.specs.Chain.{StackSteps, StackComes, StackFits, ChainAbove, ChainOnce};
ghost use Rattle.model.specs.Examples.{ExamplesHold};
ghost use Rattle.model.specs.Laws.{Comes, ReadsWritten, ReadsResized, ReadsBack, OnlyIts};

// Every call keeps the tree a tree.
pub fn tree_stays_sound() -> u8
    ensures { StaysSound }
{
    0
}

// After any calls and cuts from a blank tree, the tree and each one that a cut may leave are sound.
pub fn tree_always_sound() -> u8
    ensures { AlwaysSound }
{
    0
}

// So it is whatever a card answers.
pub fn answers_reach() -> u8
    ensures { AnswersReach }
{
    0
}

// Every path comes somewhere.
pub fn paths_come() -> u8
    ensures { Comes }
{
    0
}

// What is written is read, and all else of the file stays.
pub fn reads_written() -> u8
    ensures { ReadsWritten }
{
    0
}

pub fn reads_resized() -> u8
    ensures { ReadsResized }
{
    0
}

// The same by calls: a read after a write gives its bytes.
pub fn reads_back() -> u8
    ensures { ReadsBack }
{
    0
}

// Writing and resizing change no other file.
pub fn writes_only_its() -> u8
    ensures { OnlyIts }
{
    0
}

// The worked examples hold.
pub fn examples_hold() -> u8
    ensures { ExamplesHold }
{
    0
}

// A walk with the stack of the folders passed takes the same steps, comes to the same place, and its stack is the chain of parents.
pub fn stack_steps() -> u8
    ensures { StackSteps }
{
    0
}

pub fn stack_comes() -> u8
    ensures { StackComes }
{
    0
}

pub fn stack_fits() -> u8
    ensures { StackFits }
{
    0
}

// What is above a folder is on its chain of parents; each has one, and only one.
pub fn chain_above() -> u8
    ensures { ChainAbove }
{
    0
}

pub fn chain_once() -> u8
    ensures { ChainOnce }
{
    0
}

// Each node has a name or is open, after any calls and cuts.
pub fn always_tidy() -> u8
    ensures { AlwaysTidy }
{
    0
}

// A call changes blocks and names in one direction: what does not make the tree heavier makes neither heavier.
pub fn weighs_one_way() -> u8
    ensures { WeighsOneWay }
{
    0
}

pub fn no_part_heavier() -> u8
    ensures { NoPartHeavier }
{
    0
}

pub fn sweeps_lighter() -> u8
    ensures { SweepsLighter }
{
    0
}

// A tree that alone does not surely fit does not surely fit beside another.
pub fn alone_is_less() -> u8
    ensures { AloneIsLess }
{
    0
}

// The tree now is the first of those that a cut may leave.
pub fn now_is_first() -> u8
    ensures { NowIsFirst }
{
    0
}

// After a cut the tree is sound and everything in it has a name.
pub fn cut_named() -> u8
    ensures { CutNamed }
{
    0
}
