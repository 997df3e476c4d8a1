//! The controller works until it rests.

use crate::hand::{Hand, MOST_STEPS};
use script_cli::{CommandVerb, QueueVerb, Verb};
use std::alloc::AllocError;
use step_core::{Refusal, Reply};
use texts::traces::Traced;

impl Hand<'_> {
    /// Lets the controller do a step on a command. False where it is refused, or no step is left.
    fn serve_step(&mut self, verb: CommandVerb, command: (u16, u16)) -> Result<bool, AllocError> {
        if self.left == 0 {
            return Ok(false);
        }
        let reply = self.on_command(verb, command)?;
        if let Reply::Refused { .. } = reply {
            return Ok(false);
        }
        self.left = self.left.saturating_sub(1);
        if self.says {
            self.say_on_command(Verb::OnCommand(verb), command, &reply)?;
            let traced = match verb {
                CommandVerb::Complete => Traced::Complete(command.0),
                _ => Traced::Other,
            };
            self.trace(traced, &reply)?;
        }
        Ok(true)
    }

    /// Lets the controller walk the list of a command to its end, and complete it.
    fn serve_command(&mut self, command: (u16, u16)) -> Result<(), AllocError> {
        for _ in 0..MOST_STEPS {
            if !self.serve_step(CommandVerb::Walk, command)? {
                break;
            }
        }
        self.serve_step(CommandVerb::Complete, command)?;
        Ok(())
    }

    /// Lets the controller fetch an entry. Lack of memory is said always.
    fn fetch(&mut self, q: u16) -> Result<Option<u16>, AllocError> {
        if self.left == 0 {
            return Ok(None);
        }
        let reply = self.on_queue(QueueVerb::Fetch, q)?;
        let (fetched, said) = match reply {
            Reply::Fetched { cid, .. } => (Some(cid), self.says),
            Reply::Refused { why, .. } => (None, why == Refusal::Memory),
            _ => (None, false),
        };
        if said {
            self.say_on_queue(Verb::OnQueue(QueueVerb::Fetch), q, &reply)?;
            self.trace(Traced::Fetch(q), &reply)?;
        }
        if fetched.is_some() {
            self.left = self.left.saturating_sub(1);
        }
        Ok(fetched)
    }

    /// Lets the controller work on a queue: on what it has fetched, and then on one entry after the other.
    pub(crate) fn serve_queue(&mut self, q: u16) -> Result<(), AllocError> {
        for cid in 0..self.entries {
            self.serve_command((q, cid))?;
        }
        for _ in 0..MOST_STEPS {
            let Some(cid) = self.fetch(q)? else {
                break;
            };
            self.serve_command((q, cid))?;
        }
        Ok(())
    }

    /// Lets the controller work on these queues until each step of it is refused, and says how many steps it did.
    pub(crate) fn serve(&mut self, first: u16, last: u16) -> Result<(), AllocError> {
        for _ in 0..MOST_STEPS {
            let before = self.left;
            for q in first..=last {
                self.serve_queue(q)?;
            }
            if self.left == before {
                break;
            }
        }
        let steps = MOST_STEPS.saturating_sub(self.left);
        write!(self.out, "served {steps}\n")
    }
}
