//! Steps that are made while memory is refused.

use crate::scripts::fault::{Way, Wrong};
use crate::scripts::standing::{Standing, Stands};
use script_cli::transcripts::{StepMaker, Transcript, play};
use std::alloc::{AllocError, Global};
use step_core::{Counts, Owner, PageNo, Reply, Step};
use test_support::RefusedCalls;

/// A script that is played.
#[derive(Clone, Copy)]
pub struct Run<'t> {
    /// How it is played.
    pub way: Way,
    /// Which growth is refused, counted from 1. At 0 none is.
    pub growth: u64,
    /// The script.
    pub transcript: &'t Transcript,
    /// What it must leave, where that is known. That tells how many growths each step has, too.
    pub wanted: Option<&'t End>,
}

/// What a script leaves.
#[derive(Drop)]
pub struct End {
    /// How the maker of its steps stands then.
    pub standing: Standing,
    /// How many growths are left to the one that is refused; 0 where it was refused.
    pub left: u64,
    /// How many steps were made without memory, as they take none.
    pub without_memory: u64,
    /// The pages that refused steps touched.
    touched: Vec<PageNo>,
    /// How many growths each step had.
    growths: Vec<u64>,
}

impl End {
    /// What is wrong with it, where it is known what a script must leave. A step that was made again counts its growths twice.
    pub fn wrong(&self, wanted: Option<&End>) -> Option<Wrong> {
        let wanted = wanted?;
        if self.standing != wanted.standing {
            return Some(Wrong::Standing);
        }
        if self.touched.as_slice() != wanted.touched.as_slice() {
            return Some(Wrong::Touched);
        }
        None
    }
}

/// Plays a script with one of the growths to come refused, or, where it is played without memory, each growth of the steps that take none.
pub fn play_refused<M: Stands, R: Eprint>(
    rt: &R,
    alloc: Global,
    maker: &mut M,
    run: Run<'_>,
    left: u64,
) -> Result<End, Wrong> {
    let known: &[u64] = match run.wanted {
        Some(end) => &end.growths,
        None => &[],
    };
    let mut steps = Steps {
        alloc,
        maker,
        takes_all: matches!(run.way, Way::WithoutMemory),
        left,
        known,
        growths: Vec::new(alloc),
        without_memory: 0,
        wrong: None,
        touched: Vec::new(alloc),
    };
    let found = play(alloc, &mut steps, run.transcript);
    let Steps {
        alloc: _,
        maker,
        takes_all: _,
        left,
        known: _,
        growths,
        without_memory,
        wrong,
        touched,
    } = steps;
    if let Some(wrong) = wrong {
        return Err(wrong);
    }
    match found {
        Ok(None) => {}
        Ok(Some(difference)) => {
            // Where standard error is closed, the line alone tells.
            let _ = eprintln!(rt; "{difference}");
            return Err(Wrong::Line(difference.number));
        }
        Err(AllocError) => return Err(Wrong::Memory),
    }
    match maker.standing(alloc) {
        Ok(standing) => Ok(End {
            standing,
            left,
            without_memory,
            touched,
            growths,
        }),
        Err(AllocError) => Err(Wrong::Memory),
    }
}

/// Makes steps while growths are refused. A step that wants memory is made again.
struct Steps<'m, M: Stands> {
    /// Where what is noted down is kept.
    alloc: Global,
    /// What makes them.
    maker: &'m mut M,
    /// Whether each growth of the steps that take no memory is refused.
    takes_all: bool,
    /// Which of the growths to come is refused, counted from 1. At 0 none is.
    left: u64,
    /// How many growths each step has where none is refused, as far as that is known.
    known: &'m [u64],
    /// How many growths each step that was made had.
    growths: Vec<u64>,
    /// How many steps were made with each of their growths refused.
    without_memory: u64,
    /// What a step did that it must not, if one did.
    wrong: Option<Wrong>,
    /// The pages that steps touched before they were refused.
    touched: Vec<PageNo>,
}

impl<'m, M: Stands> Steps<'m, M> {
    /// Makes a step with a growth of it refused, if it is there. The eight calls of a world that send, submit, reap or reset take no memory.
    fn make(&mut self, step: &Step) -> Result<Reply, AllocError> {
        let takes_none = matches!(
            step,
            Step::Submit { .. }
                | Step::Reap { .. }
                | Step::Abort { .. }
                | Step::DeleteSq { .. }
                | Step::DeleteCq { .. }
                | Step::CreateCq { .. }
                | Step::CreateSq { .. }
                | Step::Reset
        );
        let is_without = self.takes_all && takes_none;
        let refusal = if is_without {
            RefusedCalls::NthOn(1)
        } else {
            RefusedCalls::Nth(self.left)
        };
        let (answer, tally) = self.maker.step_without(refusal, step)?;
        if is_without {
            self.without_memory = self.without_memory.saturating_add(1);
            if tally.calls > 0 {
                self.wrong = Some(Wrong::Asked);
            }
        }
        self.left = self.left.saturating_sub(tally.calls);
        self.growths.push(tally.calls)?;
        Ok(answer)
    }

    /// Makes a step of which a growth may be refused. Where it wants memory, it is checked whether anything has changed, and it is made again.
    fn make_twice(&mut self, step: &Step) -> Result<Reply, AllocError> {
        let before = self.maker.standing(self.alloc)?;
        let answer = self.make(step)?;
        match &answer {
            Reply::Refused { why, .. } if self.left == 0 && *why == step_core::Refusal::Memory => {}
            _ => return Ok(answer),
        }
        if self.maker.standing(self.alloc)? != before {
            self.wrong = Some(Wrong::Changed);
        }
        self.make(step)
    }
}

impl<'m, M: Stands> StepMaker for Steps<'m, M> {
    fn step(&mut self, step: &Step) -> Result<Reply, AllocError> {
        let is_next = match self.known.get(self.growths.len()) {
            Some(growths) => self.left > 0 && self.left <= *growths,
            None => self.left > 0,
        };
        // how it stands is asked only where it matters, since that takes long
        let answer = if is_next {
            self.make_twice(step)?
        } else {
            self.make(step)?
        };
        if let Reply::Refused { why: _, touched } = &answer {
            self.touched.extend_from_slice(touched.pages())?;
        }
        Ok(answer)
    }

    fn owner(&self, page: PageNo) -> Option<Owner> {
        self.maker.owner(page)
    }

    fn counts(&self) -> Counts {
        self.maker.counts()
    }
}
