//! The options of a script or a transcript.

ghost use Rattle.std.specs.Prelude.{◌≡◌, ◌≤◌, ◌<◌, [], ◌∷◌, ◌++◌, IfOk, IfSome, OnOk, string_bytes, MatchOption, MatchResult, None, Some, ℕ, length, option_and_then, unwrap_or};
ghost use Rattle.script_cli.specs.Lines.{before, onward};
ghost use Rattle.script_cli.specs.Options.{AreFew, is_equals, nothing_said, few as spec_few, jobs_options_in, once as spec_once, options_in, options_line, over as spec_over, said_from, said_on, unhyphened as spec_unhyphened, unless_usual, with_option};
ghost use Rattle.script_cli.specs.Pieces.{number32 as spec_number32};

use crate::lines::split_line;
use crate::values::{first_place, number32};
use crate::words::Words;
use std::alloc::{AllocError, Global};
use step_core::Config;
use thiserror::Error;

/// What the first line begins with where it says the options.
pub const OPTIONS: &str = "# options:";

/// What a script or a transcript is played over.
#[derive(Clone, Copy, Debug, PartialEq, Eq)]
pub struct Options {
    /// The pool and its queues.
    pub config: Config,
    /// The zero blocks of the image.
    pub blocks: u32,
}

/// Puts an option, unless its number is the usual one.
fn put_unusual(line: &mut String, name: &str, number: u32, usual: u32) -> Result<(), AllocError>
    ensures { OnOk result (string_bytes line.new ≡ string_bytes line.old ++ unless_usual name.now number usual) }
{
    if number == usual {
        return Ok(());
    }
    write!(line, " --{name} {number}")
}

impl Options {
    /// The usual ones, those of `nvmesgl steps`.
    pub const USUAL: Options = Options {
        config: Config {
            pages: 16,
            queues: 1,
            entries: 4,
            segment: 256,
        },
        blocks: 64,
    };

    /// The first line that says these options, each that is not the usual one, without its line feed.
    ///
    /// # Errors
    ///
    /// Where memory is refused.
    pub fn line(&self, alloc: Global) -> Result<String, AllocError>
        ensures { IfOk result (λ line. string_bytes line ≡ options_line Options.USUAL self.now) }
    {
        let (mine, usual) = (self.config, Options::USUAL.config);
        let mut line = String::from_str(alloc, OPTIONS)?;
        put_unusual(&mut line, "pages", mine.pages, usual.pages)?;
        put_unusual(&mut line, "queues", mine.queues, usual.queues)?;
        put_unusual(&mut line, "entries", mine.entries, usual.entries)?;
        put_unusual(&mut line, "segment", mine.segment, usual.segment)?;
        put_unusual(&mut line, "blocks", self.blocks, Options::USUAL.blocks)?;
        Ok(line)
    }

    /// What the first line of a script of steps says of options, and these where it says nothing.
    ///
    /// # Errors
    ///
    /// The first word of it that says no option.
    pub fn said_in(self, text: &[u8]) -> Result<Options, BadOption<'_>>
        ensures { MatchResult result (λ options. options_in self text.now ≡ Some options) (λ bad. options_in self text.now ≡ None) }
    {
        let (line, _) = split_line(text);
        match SaidOptions::of_line(ScriptKind::Steps, line) {
            Ok(said) => Ok(said.over(self)),
            Err(bad) => Err(bad),
        }
    }

    /// What the first line of a script of jobs says of options and of submitters, and these where it says nothing.
    ///
    /// # Errors
    ///
    /// The first word of it that says no option.
    pub fn jobs_said_in(self, submitters: u16, text: &[u8]) -> Result<(Options, u16), BadOption<'_>>
        requires some { 1 ≤ submitters }
        requires few { submitters ≤ 16 }
        ensures said { MatchResult result (λ said. jobs_options_in self submitters text.now ≡ Some said) (λ bad. jobs_options_in self submitters text.now ≡ None) }
        ensures some { IfOk result (λ said. 1 ≤ said.1) }
        ensures few { IfOk result (λ said. said.1 ≤ 16) }
    {
        let (line, _) = split_line(text);
        match SaidOptions::of_line(ScriptKind::Jobs, line) {
            Ok(said) => Ok((said.over(self), said.submitters_or(submitters))),
            Err(bad) => Err(bad),
        }
    }
}

/// Why a word says no option.
#[derive(Clone, Copy, Debug, PartialEq, Eq, Error)]
pub enum WhyBad {
    /// It names none.
    #[error("options are pages, queues, entries, segment and blocks, each as --pages 32 or pages=32")]
    Unknown,
    /// No number follows it, or one that is too large.
    #[error("a number of 32 bits is wanted for it")]
    NoNumber,
    /// It was said before.
    #[error("it stands there twice")]
    Twice,
    /// It is the path of an image, and a script stands alone.
    #[error("a script stands alone, and names no image")]
    Image,
    /// It is the number of submitters, and this is a script of steps.
    #[error("a script of steps has no submitters; one of jobs is played by 'nvmesgl threads'")]
    Jobs,
    /// It is a number of submitters that is not allowed.
    #[error("submitters are 1 to 16")]
    Submitters,
}

/// A word that says no option.
#[derive(Clone, Copy, Debug, PartialEq, Eq)]
pub struct BadOption<'a> {
    /// The word.
    pub word: &'a [u8],
    /// How many words of options come before it.
    pub before: usize,
    /// Why it says none.
    pub why: WhyBad,
}

/// What a script is made of.
#[derive(Clone, Copy, Debug, PartialEq, Eq)]
pub enum ScriptKind {
    /// Steps.
    Steps,
    /// Jobs.
    Jobs,
}

/// The options that words say.
#[derive(Clone, Copy, Debug, PartialEq, Eq)]
pub struct SaidOptions {
    /// The pages of the pool.
    pub pages: Option<u32>,
    /// Its I/O queues.
    pub queues: Option<u32>,
    /// The entries of each.
    pub entries: Option<u32>,
    /// The descriptors of a segment.
    pub segment: Option<u32>,
    /// The zero blocks of the image.
    pub blocks: Option<u32>,
    /// The submitters of a script of jobs.
    pub submitters: Option<u32>,
}

/// An option: its name, and its number in the same word or in the next.
#[derive(Clone, Copy)]
struct Said<'a> {
    /// The word that begins it.
    word: &'a [u8],
    /// Its name.
    name: &'a [u8],
    /// What stands for its number, if something does.
    number: Option<&'a [u8]>,
    /// How many words it has.
    words: usize,
}

/// A word without the two hyphens that it begins with.
fn unhyphened(word: &[u8]) -> &[u8]
    ensures { result.now ≡ spec_unhyphened word.now }
{
    match word.strip_prefix("--".as_bytes()) {
        Some(name) => name,
        None => word,
    }
}

/// What is before and after the equals sign of a word.
fn split_equals(word: &[u8]) -> Option<(&[u8], &[u8])>
    ensures { MatchOption result (onward is_equals word.now ≡ []) (λ parts. (parts.0.now ≡ before is_equals word.now) × (equals : ℕ) × (onward is_equals word.now ≡ equals ∷ parts.1.now)) }
{
    let (name, rest) = word.split_at(first_place(word, b'='));
    let (_, number) = rest.split_first()?;
    Some((name, number))
}

/// Takes the first option of words.
fn take_option<'a>(words: &mut Words<'a>) -> Option<Said<'a>>
    ensures said { MatchOption result (words.old ≡ []) (λ said. (kind : ScriptKind) (before : SaidOptions) → said_from kind None before words.old ≡ option_and_then (λ more. said_from kind None more words.new) (with_option kind before said.name.now (option_and_then (λ n. spec_number32 n.now) said.number))) }
    ensures fewer { IfSome result (λ said. length words.new < length words.old) }
{
    let word = words.take_first()?;
    if let Some((name, number)) = split_equals(word) {
        return Some(Said {
            word,
            name: unhyphened(name),
            number: Some(number),
            words: 1,
        });
    }
    Some(Said {
        word,
        name: unhyphened(word),
        number: words.take_first(),
        words: 2,
    })
}

impl<'a> Said<'a> {
    /// Its number.
    fn value(&self) -> Option<u32>
        ensures { result ≡ option_and_then (λ n. spec_number32 n.now) self.now.number }
    {
        number32(self.number?)
    }

    /// The path of an image, if it names one.
    fn image(&self) -> Option<&'a str> {
        if self.name != "image".as_bytes() {
            return None;
        }
        std::str::from_utf8(self.number?).ok()
    }
}

/// An allowed number of submitters.
fn few(number: Option<u32>) -> Option<u32>
    ensures value { result ≡ spec_few number }
    ensures few { AreFew result }
{
    let number = number?;
    if 1 <= number && number <= 16 {
        Some(number)
    } else {
        None
    }
}

/// A number that is said, where none was said before.
fn once(before: Option<u32>, number: Option<u32>) -> Result<Option<u32>, WhyBad>
    ensures same { IfOk result (λ n. n ≡ number) }
    ensures once { MatchResult result (λ n. spec_once before number ≡ Some n) (λ why. spec_once before number ≡ None) }
{
    match (before, number) {
        (Some(_), _) => Err(WhyBad::Twice),
        (None, None) => Err(WhyBad::NoNumber),
        (None, number) => Ok(number),
    }
}

/// A number of submitters that is said, where none was said before.
fn few_once(before: Option<u32>, number: Option<u32>) -> Result<Option<u32>, WhyBad>
    ensures few { IfOk result AreFew }
    ensures once { MatchResult result (λ n. spec_once before (spec_few number) ≡ Some n) (λ why. spec_once before (spec_few number) ≡ None) }
{
    match (before, number, few(number)) {
        (None, Some(_), None) => Err(WhyBad::Submitters),
        (before, _, number) => once(before, number),
    }
}

impl SaidOptions {
    /// Nothing is said.
    pub const NONE: SaidOptions = SaidOptions {
        pages: None,
        queues: None,
        entries: None,
        segment: None,
        blocks: None,
        submitters: None,
    };

    /// One more option.
    fn with(self, kind: ScriptKind, name: &[u8], number: Option<u32>) -> Result<SaidOptions, WhyBad>
        requires few { AreFew self.submitters }
        ensures few { IfOk result (λ said. AreFew said.submitters) }
        ensures said { MatchResult result (λ said. with_option kind self name.now number ≡ Some said) (λ why. with_option kind self name.now number ≡ None) }
    {
        let mut said = self;
        if name == "pages".as_bytes() {
            said.pages = once(self.pages, number)?;
        } else if name == "queues".as_bytes() {
            said.queues = once(self.queues, number)?;
        } else if name == "entries".as_bytes() {
            said.entries = once(self.entries, number)?;
        } else if name == "segment".as_bytes() {
            said.segment = once(self.segment, number)?;
        } else if name == "blocks".as_bytes() {
            said.blocks = once(self.blocks, number)?;
        } else if name == "submitters".as_bytes() {
            if kind == ScriptKind::Steps {
                return Err(WhyBad::Jobs);
            }
            said.submitters = few_once(self.submitters, number)?;
        } else if name == "image".as_bytes() {
            return Err(WhyBad::Image);
        } else {
            return Err(WhyBad::Unknown);
        }
        Ok(said)
    }

    /// What words say.
    fn of<'a>(kind: ScriptKind, words: &mut Words<'a>) -> Result<SaidOptions, BadOption<'a>>
        ensures few { IfOk result (λ said. AreFew said.submitters) }
        ensures said { MatchResult result (λ said. said_from kind None nothing_said words.old ≡ Some said) (λ bad. said_from kind None nothing_said words.old ≡ None) }
    {
        let mut said = SaidOptions::NONE;
        let mut before = 0usize;
        while let Some(next) = take_option(words) {
            let word = next.word;
            match said.with(kind, next.name, next.value()) {
                Ok(more) => said = more,
                Err(why) => return Err(BadOption { word, before, why }),
            }
            before = before.saturating_add(next.words);
        }
        Ok(said)
    }

    /// What a line says of options; nothing, unless it begins with [`OPTIONS`].
    ///
    /// # Errors
    ///
    /// The first word that says none.
    pub fn of_line(kind: ScriptKind, line: &[u8]) -> Result<SaidOptions, BadOption<'_>>
        ensures few { IfOk result (λ said. AreFew said.submitters) }
        ensures said { MatchResult result (λ said. said_on kind line.now ≡ Some said) (λ bad. said_on kind line.now ≡ None) }
    {
        match line.strip_prefix(OPTIONS.as_bytes()) {
            Some(behind) => SaidOptions::of(kind, &mut Words::of(behind)),
            None => Ok(SaidOptions::NONE),
        }
    }

    /// What words say, each option as `--NAME N`, `--NAME=N` or `NAME=N`, and the path of an image, as `image=PATH`.
    ///
    /// # Errors
    ///
    /// The first word that says none.
    pub fn of_words(text: &str) -> Result<(SaidOptions, Option<&str>), BadOption<'_>> {
        let mut words = Words::of(text.as_bytes());
        let mut said = SaidOptions::NONE;
        let mut image = None;
        let mut before = 0usize;
        while let Some(next) = take_option(&mut words) {
            let word = next.word;
            let taken = match (next.image(), image) {
                (Some(path), None) => {
                    image = Some(path);
                    Ok(said)
                }
                (Some(_), Some(_)) => Err(WhyBad::Twice),
                (None, _) => said.with(ScriptKind::Steps, next.name, next.value()),
            };
            match taken {
                Ok(more) => said = more,
                Err(why) => return Err(BadOption { word, before, why }),
            }
            before = before.saturating_add(next.words);
        }
        Ok((said, image))
    }

    /// The submitters that are said, or else these.
    pub fn submitters_or(self, usual: u16) -> u16
        requires { AreFew self.submitters }
        ensures { result ≡ unwrap_or self.submitters usual }
    {
        match self.submitters {
            Some(submitters) => submitters as u16,
            None => usual,
        }
    }

    /// These options, but for those that are said.
    pub fn over(self, usual: Options) -> Options
        ensures { result ≡ spec_over self usual }
    {
        let Options { config, blocks } = usual;
        Options {
            config: Config {
                pages: self.pages.unwrap_or(config.pages),
                queues: self.queues.unwrap_or(config.queues),
                entries: self.entries.unwrap_or(config.entries),
                segment: self.segment.unwrap_or(config.segment),
            },
            blocks: self.blocks.unwrap_or(blocks),
        }
    }
}
