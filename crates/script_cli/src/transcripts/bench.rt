//! Steps on a bench.

ghost use Rattle.std.specs.Prelude.{◌≡◌, ◌*◌, IfErr, IfOk, None, replicate};
ghost use Rattle.host_core.specs.Opening.{refusal_of_config};
ghost use Rattle.machine_model.specs.Script.{table};
ghost use Rattle.script_cli.specs.Benches.{MakesNoZeros, OpensNoBench};
ghost use Rattle.step_core.specs.Opening.{opening_of};

use crate::transcripts::fault::OpeningFault;
use crate::transcripts::heap::{reply_in, step_in};
use crate::transcripts::options::Options;
use crate::transcripts::playing::StepMaker;
use crate::{ImageFault, not_opened};
use std::alloc::{AllocError, Allocator, Global};
use step_core::{Counts, Image, ImageError, Owner, PageNo, Reply, Step};
use world_bench::Bench;

/// A bench, in any heap.
pub struct OnBench<A: Allocator = Global> {
    /// Where the replies that are handed out lie.
    pub alloc: Global,
    /// Where all else lies.
    pub heap: A,
    /// The bench. The values of steps that are made on it lie in its heap.
    pub bench: Bench<A>,
}

/// An image of zero blocks.
fn zeros<A: Allocator>(heap: A, blocks: u32) -> Result<Image<A>, ImageFault>
    ensures zeros { IfOk result (λ image. image ≡ replicate (512 * blocks) 0) }
    ensures refused { IfErr result (λ why. MakesNoZeros blocks why) }
{
    match Image::zeroed(heap, blocks) {
        Ok(image) => Ok(image),
        Err(ImageError::BadLength) => Err(ImageFault::BadLength),
        Err(ImageError::Memory) => Err(ImageFault::Memory),
    }
}

impl<A: Allocator + Copy> OnBench<A> {
    /// Opens a bench over an image of zero blocks.
    ///
    /// # Errors
    ///
    /// Where the image or the opening is refused.
    pub fn open(alloc: Global, heap: A, options: Options) -> Result<OnBench<A>, OpeningFault>
        ensures fits { IfOk result (λ made. refusal_of_config options.config ≡ None) }
        ensures opened { IfOk result (λ made. made.bench ≡ record { table = table (opening_of options.config (replicate (512 * options.blocks) 0)); touches = 0 }) }
        ensures heap { IfOk result (λ made. made.heap ≡ heap) }
        ensures refused { IfErr result (λ why. OpensNoBench options why) }
    {
        let image = match zeros(heap, options.blocks) {
            Ok(image) => image,
            Err(why) => return Err(OpeningFault::Image(why)),
        };
        match Bench::open(heap, options.config, image) {
            Ok(bench) => Ok(OnBench { alloc, heap, bench }),
            Err(refused) => Err(OpeningFault::World(not_opened(refused.why))),
        }
    }
}

impl<A: Allocator + Copy> StepMaker for OnBench<A> {
    fn step(&mut self, step: &Step) -> Result<Reply, AllocError> {
        let reply = self.bench.step(step_in(self.heap, step)?);
        reply_in(self.alloc, reply)
    }

    fn owner(&self, page: PageNo) -> Option<Owner> {
        if page.0 < self.bench.pages() {
            Some(self.bench.owner(page))
        } else {
            None
        }
    }

    fn counts(&self) -> Counts {
        self.bench.counts()
    }
}
