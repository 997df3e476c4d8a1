//! The verbs of a script.

ghost use Rattle.std.specs.Prelude.{◌≡◌};
ghost use Rattle.std.specs.Str.{bytes_eq};
ghost use Rattle.script_cli.specs.Verbs.{queue_verb_text, command_verb_text, verb_text, queue_step, command_step, first_named, verb_named, verb_of};

use step_core::Step;

/// A verb that is told a queue alone.
#[derive(Clone, Copy, Debug, PartialEq, Eq)]
pub enum QueueVerb {
    /// `ring`
    Ring,
    /// `reap`
    Reap,
    /// `fetch`
    Fetch,
    /// `retire`
    Retire,
    /// `delete_sq`
    DeleteSq,
    /// `delete_cq`
    DeleteCq,
    /// `create_sq`
    CreateSq,
}

/// A verb that is told a command alone, by its queue and its identifier.
#[derive(Clone, Copy, Debug, PartialEq, Eq)]
pub enum CommandVerb {
    /// `build`
    Build,
    /// `submit`
    Submit,
    /// `cancel`
    Cancel,
    /// `collect`
    Collect,
    /// `gather`
    Gather,
    /// `release`
    Release,
    /// `walk`
    Walk,
    /// `complete`
    Complete,
    /// `abort`
    Abort,
}

/// The first word of a line.
#[derive(Clone, Copy, Debug, PartialEq, Eq)]
pub enum Verb {
    /// `reserve`
    Reserve,
    /// `fill`
    Fill,
    /// `create_cq`
    CreateCq,
    /// `forge`
    Forge,
    /// `reset`
    Reset,
    /// `owners`
    Owners,
    /// A verb of a queue.
    OnQueue(QueueVerb),
    /// A verb of a command.
    OnCommand(CommandVerb),
}

impl QueueVerb {
    /// The verb's word.
    pub fn name(self) -> &'static str
        ensures { result.now ≡ queue_verb_text self }
    {
        match self {
            QueueVerb::Ring => "ring",
            QueueVerb::Reap => "reap",
            QueueVerb::Fetch => "fetch",
            QueueVerb::Retire => "retire",
            QueueVerb::DeleteSq => "delete_sq",
            QueueVerb::DeleteCq => "delete_cq",
            QueueVerb::CreateSq => "create_sq",
        }
    }

    /// Its step on a queue.
    pub fn step(self, q: u16) -> Step
        ensures { result ≡ queue_step self q }
    {
        match self {
            QueueVerb::Ring => Step::Ring { q },
            QueueVerb::Reap => Step::Reap { q },
            QueueVerb::Fetch => Step::Fetch { q },
            QueueVerb::Retire => Step::Retire { q },
            QueueVerb::DeleteSq => Step::DeleteSq { q },
            QueueVerb::DeleteCq => Step::DeleteCq { q },
            QueueVerb::CreateSq => Step::CreateSq { q },
        }
    }
}

impl CommandVerb {
    /// The verb's word.
    pub fn name(self) -> &'static str
        ensures { result.now ≡ command_verb_text self }
    {
        match self {
            CommandVerb::Build => "build",
            CommandVerb::Submit => "submit",
            CommandVerb::Cancel => "cancel",
            CommandVerb::Collect => "collect",
            CommandVerb::Gather => "gather",
            CommandVerb::Release => "release",
            CommandVerb::Walk => "walk",
            CommandVerb::Complete => "complete",
            CommandVerb::Abort => "abort",
        }
    }

    /// Its step on a command.
    pub fn step(self, q: u16, cid: u16) -> Step
        ensures { result ≡ command_step self q cid }
    {
        match self {
            CommandVerb::Build => Step::Build { q, cid },
            CommandVerb::Submit => Step::Submit { q, cid },
            CommandVerb::Cancel => Step::Cancel { q, cid },
            CommandVerb::Collect => Step::Collect { q, cid },
            CommandVerb::Gather => Step::Gather { q, cid },
            CommandVerb::Release => Step::Release { q, cid },
            CommandVerb::Walk => Step::Walk { q, cid },
            CommandVerb::Complete => Step::Complete { q, cid },
            CommandVerb::Abort => Step::Abort { q, cid },
        }
    }
}

/// All verbs. The parser looks for a word in this table.
pub const VERBS: [Verb; 22] = [
    Verb::Reserve,
    Verb::Fill,
    Verb::OnCommand(CommandVerb::Build),
    Verb::OnCommand(CommandVerb::Submit),
    Verb::OnCommand(CommandVerb::Cancel),
    Verb::OnCommand(CommandVerb::Collect),
    Verb::OnCommand(CommandVerb::Gather),
    Verb::OnCommand(CommandVerb::Release),
    Verb::OnQueue(QueueVerb::Ring),
    Verb::OnQueue(QueueVerb::Reap),
    Verb::OnQueue(QueueVerb::Fetch),
    Verb::OnQueue(QueueVerb::Retire),
    Verb::OnQueue(QueueVerb::DeleteSq),
    Verb::OnQueue(QueueVerb::DeleteCq),
    Verb::CreateCq,
    Verb::OnQueue(QueueVerb::CreateSq),
    Verb::OnCommand(CommandVerb::Walk),
    Verb::OnCommand(CommandVerb::Complete),
    Verb::OnCommand(CommandVerb::Abort),
    Verb::Forge,
    Verb::Reset,
    Verb::Owners,
];

/// Whether a word is this name. Most names differ from it in their length or their first byte.
#[tactic(auto, using(crate::proofs::Texts::other_length))]
fn is_name(name: &[u8], word: &[u8]) -> bool
    ensures { result ≡ bytes_eq name.now word.now }
{
    if name.len() != word.len() {
        return false;
    }
    let mut name = name;
    let mut word = word;
    while let Some((byte, names)) = name.split_first() {
        let Some((other, words)) = word.split_first() else {
            return false;
        };
        if *byte != *other {
            return false;
        }
        name = names;
        word = words;
    }
    word.is_empty()
}

/// The first of these verbs that a word names.
#[tactic(auto, unfolding(crate::specs::Verbs::first_named))]
fn find_named(verbs: &[Verb], word: &[u8]) -> Option<Verb>
    ensures { result ≡ first_named word.now verbs.now }
{
    let mut rest = verbs;
    while let Some((verb, others)) = rest.split_first() {
        if is_name(verb.name().as_bytes(), word) {
            return Some(*verb);
        }
        rest = others;
    }
    None
}

impl Verb {
    /// The verb's word.
    pub fn name(self) -> &'static str
        ensures { result.now ≡ verb_text self }
    {
        match self {
            Verb::Reserve => "reserve",
            Verb::Fill => "fill",
            Verb::CreateCq => "create_cq",
            Verb::Forge => "forge",
            Verb::Reset => "reset",
            Verb::Owners => "owners",
            Verb::OnQueue(verb) => verb.name(),
            Verb::OnCommand(verb) => verb.name(),
        }
    }

    /// The verb that a word is.
    #[tactic(auto, unfolding(crate::specs::Verbs::first_named))]
    pub fn named(word: &[u8]) -> Option<Verb>
        ensures { result ≡ verb_named word.now }
    {
        find_named(&VERBS, word)
    }

    /// The verb whose line a step is.
    pub fn of(step: &Step) -> Verb
        ensures { result ≡ verb_of step.now }
    {
        match step {
            Step::Reserve { .. } => Verb::Reserve,
            Step::Fill { .. } => Verb::Fill,
            Step::Build { .. } => Verb::OnCommand(CommandVerb::Build),
            Step::Submit { .. } => Verb::OnCommand(CommandVerb::Submit),
            Step::Cancel { .. } => Verb::OnCommand(CommandVerb::Cancel),
            Step::Ring { .. } => Verb::OnQueue(QueueVerb::Ring),
            Step::Fetch { .. } => Verb::OnQueue(QueueVerb::Fetch),
            Step::Walk { .. } => Verb::OnCommand(CommandVerb::Walk),
            Step::Complete { .. } => Verb::OnCommand(CommandVerb::Complete),
            Step::Reap { .. } => Verb::OnQueue(QueueVerb::Reap),
            Step::Collect { .. } => Verb::OnCommand(CommandVerb::Collect),
            Step::Gather { .. } => Verb::OnCommand(CommandVerb::Gather),
            Step::Release { .. } => Verb::OnCommand(CommandVerb::Release),
            Step::Abort { .. } => Verb::OnCommand(CommandVerb::Abort),
            Step::DeleteSq { .. } => Verb::OnQueue(QueueVerb::DeleteSq),
            Step::DeleteCq { .. } => Verb::OnQueue(QueueVerb::DeleteCq),
            Step::CreateCq { .. } => Verb::CreateCq,
            Step::CreateSq { .. } => Verb::OnQueue(QueueVerb::CreateSq),
            Step::Retire { .. } => Verb::OnQueue(QueueVerb::Retire),
            Step::Forge { .. } => Verb::Forge,
            Step::Reset => Verb::Reset,
        }
    }
}
