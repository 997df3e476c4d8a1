//! The words with a dot.

ghost use Rattle.std.specs.Prelude.{◌≡◌, ◌≢◌, MatchOption};
ghost use Rattle.shell.specs.DotWords.{form_of_word, name_of_word};

/// A word with a dot: what a line begins with that is not a step.
#[derive(Clone, Copy, Debug, PartialEq, Eq)]
pub enum DotWord {
    /// `.help`
    Help,
    /// `.explain`
    Explain,
    /// `.owners`
    Owners,
    /// `.counts`
    Counts,
    /// `.rings`
    Rings,
    /// `.page`
    Page,
    /// `.trace`
    Trace,
    /// `.serve`
    Serve,
    /// `.read`
    Read,
    /// `.write`
    Write,
    /// `.save`
    Save,
    /// `.dump`
    Dump,
    /// `.output`
    Output,
    /// `.open`
    Open,
    /// `.print`
    Print,
    /// `.quit`
    Quit,
}

/// All of them, in the order of the help.
pub const DOT_WORDS: [DotWord; 16] = [
    DotWord::Help,
    DotWord::Explain,
    DotWord::Owners,
    DotWord::Counts,
    DotWord::Rings,
    DotWord::Page,
    DotWord::Trace,
    DotWord::Serve,
    DotWord::Read,
    DotWord::Write,
    DotWord::Save,
    DotWord::Dump,
    DotWord::Output,
    DotWord::Open,
    DotWord::Print,
    DotWord::Quit,
];

impl DotWord {
    /// The word.
    #[tactic(auto, unfolding(crate::specs::DotWords::name_of_word))]
    pub fn name(self) -> &'static str
        ensures { result.now ≡ name_of_word self }
    {
        match self {
            DotWord::Help => ".help",
            DotWord::Explain => ".explain",
            DotWord::Owners => ".owners",
            DotWord::Counts => ".counts",
            DotWord::Rings => ".rings",
            DotWord::Page => ".page",
            DotWord::Trace => ".trace",
            DotWord::Serve => ".serve",
            DotWord::Read => ".read",
            DotWord::Write => ".write",
            DotWord::Save => ".save",
            DotWord::Dump => ".dump",
            DotWord::Output => ".output",
            DotWord::Open => ".open",
            DotWord::Print => ".print",
            DotWord::Quit => ".quit",
        }
    }

    /// The word and its arguments.
    #[tactic(auto, unfolding(crate::specs::DotWords::name_of_word))]
    pub fn form(self) -> &'static str
        ensures { result.now ≡ form_of_word self }
    {
        match self {
            DotWord::Help => ".help [VERB]",
            DotWord::Explain => ".explain NAME",
            DotWord::Owners => ".owners",
            DotWord::Counts => ".counts",
            DotWord::Rings => ".rings [Q]",
            DotWord::Page => ".page P",
            DotWord::Trace => ".trace on|off",
            DotWord::Serve => ".serve [Q]",
            DotWord::Read => ".read Q SLBA BLOCKS | FILE",
            DotWord::Write => ".write Q SLBA BLOCKS BYTES",
            DotWord::Save => ".save FILE",
            DotWord::Dump => ".dump [FILE]",
            DotWord::Output => ".output [FILE]",
            DotWord::Open => ".open [OPTION=N ..] [image=FILE]",
            DotWord::Print => ".print TEXT",
            DotWord::Quit => ".quit",
        }
    }

    /// What it does, in a few words.
    pub fn about(self) -> &'static str {
        match self {
            DotWord::Help => "the words, or the form of one of them or of a step",
            DotWord::Explain => "what a refusal, a status or a fault means, as NotBuilt or 0:80",
            DotWord::Owners => "who owns which page",
            DotWord::Counts => "how many pages are free, and whose the others are",
            DotWord::Rings => "where both sides stand in the rings of all queues or of one",
            DotWord::Page => "the bytes of a page, 16 a line; `*` for more lines of zeros",
            DotWord::Trace => "whether each step tells below its answer what it moved",
            DotWord::Serve => "lets the controller work until it rests, on all queues or on one",
            DotWord::Read => "reads blocks, and prints their bytes; or answers the lines of a file",
            DotWord::Write => "writes blocks: HEX, or runs as AB*1,00*511; zeros after them",
            DotWord::Save => "writes the image into a file",
            DotWord::Dump => "what was done in this world, as a transcript",
            DotWord::Output => "writes what is answered into a file, or to standard output again",
            DotWord::Open => "a new world: pages, queues, entries, segment, blocks",
            DotWord::Print => "prints the text, so that a program knows where an answer ends",
            DotWord::Quit => "ends the session, as the end of input does",
        }
    }

    /// The one that a word is.
    pub fn named(word: &str) -> Option<DotWord>
        ensures { MatchOption result ((dot : DotWord) → name_of_word dot ≢ word.now) (λ dot. name_of_word dot ≡ word.now) }
    {
        for dot in DOT_WORDS {
            if dot.name() == word {
                return Some(dot);
            }
        }
        None
    }
}
