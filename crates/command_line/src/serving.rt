//! Who is asked to serve.

ghost use Rattle.std.specs.Prelude.{◌≡◌, false, codes};
ghost use Rattle.clap.specs.Words.{found_of, rows_of, rule_of};
ghost use Rattle.command_line.specs.Asked.{serving_in, serving_named};
ghost use Rattle.command_line.specs.Commands.{text_rule};

use crate::parts::text_arg;
use clap::{Arg, ArgMatches};
use std::alloc::{AllocError, Global};

const SERVE_HELP: &str =
    "Who serves: ringer, each submitter as it rings, or controller, its thread alone";

/// Who is asked to serve while threads run.
#[derive(Clone, Copy, Debug, PartialEq, Eq)]
pub enum Serving {
    /// Each submitter, as it rings.
    Ringer,
    /// The controller, in a thread of its own.
    Controller,
}

impl Serving {
    /// Who has this word.
    fn named(text: &str) -> Option<Serving>
        ensures { result ≡ serving_named text.now }
    {
        if text == "ringer" {
            Some(Serving::Ringer)
        } else if text == "controller" {
            Some(Serving::Controller)
        } else {
            None
        }
    }
}

/// The option that names who serves.
pub(crate) fn serve_arg<'a>(alloc: Global) -> Arg<'a>
    ensures rule { rule_of result ≡ text_rule (codes "serve") (codes "ringer") }
    ensures local { result.global ≡ false }
{
    text_arg(alloc, "serve", "WHO", "ringer", SERVE_HELP)
}

/// Who was named.
pub(crate) fn who_serves(given: &ArgMatches<'_>) -> Option<Serving>
    ensures { result ≡ serving_in (rows_of (found_of given.now)) }
{
    match given.get_str("serve") {
        Some(text) => Serving::named(text),
        None => None,
    }
}

/// What is said where nobody has the word that was given.
pub(crate) fn nobody(alloc: Global, given: &ArgMatches<'_>) -> Result<String, AllocError> {
    let name = given.get_str("serve").unwrap_or("");
    format!(in alloc;
        "invalid value '{name}' for '--serve <WHO>'\n  [possible values: ringer, controller]"
    )
}
