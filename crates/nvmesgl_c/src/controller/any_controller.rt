//! A controller of one of two kinds: it holds an image, or its blocks are lent for each call that reads or writes them.

ghost use Rattle.std.specs.Prelude.{◌≡◌, ◌≤◌, true, false, None, IfOk, IfSome, IfNone, OnOk, OnErr, find, length};
ghost use Rattle.std.specs.Option.{option_copied};
ghost use Rattle.std.specs.Result.{result_err};
ghost use Rattle.block_image.specs.Blocks.{block_count};
ghost use Rattle.controller_core.specs.Completing.{complete_refusal, CompletesTo};
ghost use Rattle.controller_core.specs.Contents.{is_command};
ghost use Rattle.controller_core.specs.Doorbells.{tail_rung, head_rung};
ghost use Rattle.controller_core.specs.Fetching.{Fetches};
ghost use Rattle.controller_core.specs.Lending.{with_image, bytes_lent, is_in, lacked, fetch_lacked, lent_refusal, FetchesLent};
ghost use Rattle.controller_core.specs.Looks.{refusal_by, IsAtRest};
ghost use Rattle.controller_core.specs.Resetting.{reset};
ghost use Rattle.controller_core.specs.Walking.{walk_refusal, WalksTo};
ghost use Rattle.nvmesgl_c.specs.AnyControllers.{holding, lending, with_contents};

use block_image::{Away, Image, Lent};
use controller_core::{
    Controller, ControllerQueue, ControllerRefusal, ControllerStep, FetchedCommand, LentRefusal,
};
use controller_walk::WalkState;
use page_memory::{Dma, TouchRecord};
use std::alloc::Global;
use std::marker::Model;

/// The controller.
#[derive(Drop)]
enum Kind {
    /// It holds an image.
    Own(Controller),
    /// Its blocks are lent.
    Lending(Controller<Global, Away>),
}

/// A controller of one of two kinds. Contracts see what it keeps, and which kind it is.
#[derive(Drop)]
pub struct AnyController {
    kind: Kind,
}

impl Model for AnyController {
    ghost use Rattle.nvmesgl_c.specs.AnyControllers.{AnyContents};

    ghost Value = { AnyContents };

    ghost use Rattle.nvmesgl_c.specs.AnyControllerOf.{any_of};

    ghost view = { λ d. any_of d.kind };
}

impl AnyController {
    /// One that holds an image.
    pub fn holding(controller: Controller) -> AnyController
        ensures { result ≡ holding controller }
    {
        AnyController {
            kind: Kind::Own(controller),
        }
    }

    /// One whose blocks are lent.
    pub fn lending(controller: Controller<Global, Away>) -> AnyController
        ensures { result ≡ lending controller }
    {
        AnyController {
            kind: Kind::Lending(controller),
        }
    }

    /// Whether its blocks are lent.
    pub fn lends(&self) -> bool
        ensures { result ≡ self.now.lends }
    {
        match &self.kind {
            Kind::Own(_) => false,
            Kind::Lending(_) => true,
        }
    }

    /// How many blocks its namespace has.
    pub fn blocks(&self) -> u32
        ensures { result ≡ block_count self.now.contents.image }
    {
        match &self.kind {
            Kind::Own(controller) => controller.blocks(),
            Kind::Lending(controller) => controller.blocks(),
        }
    }

    /// The image that it holds.
    pub fn image(&self) -> &Image
        requires { self.now.lends ≡ false }
        ensures { result.now ≡ self.now.contents.image }
    {
        match &self.kind {
            Kind::Own(controller) => controller.image(),
            Kind::Lending(_) => unreachable!(),
        }
    }

    /// The queues, by their numbers.
    pub fn queues(&self) -> &[ControllerQueue]
        ensures { result.now ≡ self.now.contents.queues }
    {
        match &self.kind {
            Kind::Own(controller) => controller.queues(),
            Kind::Lending(controller) => controller.queues(),
        }
    }

    /// The command of this identifier that was fetched from a queue and not completed.
    pub fn command(&self, q: u16, cid: u16) -> Option<&FetchedCommand>
        ensures { option_copied result ≡ find (is_command q cid) self.now.contents.commands }
    {
        match &self.kind {
            Kind::Own(controller) => controller.command(q, cid),
            Kind::Lending(controller) => controller.command(q, cid),
        }
    }

    /// A step that the controller can do, as [`Controller::next_step`] tells it.
    pub fn next_step<D: TouchRecord>(&self, dma: &mut D) -> Option<ControllerStep>
        ensures possible { IfSome result (λ step. refusal_by self.now.contents (D.memory dma.old) step ≡ None) }
        ensures rest { IfNone result (IsAtRest self.now.contents (D.memory dma.old)) }
        ensures memory { D.memory dma.new ≡ D.memory dma.old }
    {
        match &self.kind {
            Kind::Own(controller) => controller.next_step(dma),
            Kind::Lending(controller) => controller.next_step(dma),
        }
    }

    /// A value is written to the tail doorbell of a submission queue.
    pub fn tail_doorbell(&mut self, q: u16, value: u16)
        ensures { self.new ≡ with_contents (tail_rung q value self.old.contents) self.old }
    {
        match &mut self.kind {
            Kind::Own(controller) => controller.tail_doorbell(q, value),
            Kind::Lending(controller) => controller.tail_doorbell(q, value),
        }
    }

    /// A value is written to the head doorbell of a completion queue.
    pub fn head_doorbell(&mut self, q: u16, value: u16)
        ensures { self.new ≡ with_contents (head_rung q value self.old.contents) self.old }
    {
        match &mut self.kind {
            Kind::Own(controller) => controller.head_doorbell(q, value),
            Kind::Lending(controller) => controller.head_doorbell(q, value),
        }
    }

    /// Resets the controller.
    pub fn reset(&mut self)
        ensures { self.new ≡ with_contents (reset self.old.contents) self.old }
    {
        match &mut self.kind {
            Kind::Own(controller) => controller.reset(),
            Kind::Lending(controller) => controller.reset(),
        }
    }

    /// Does a unit of a command's list, as [`Controller::walk`] does.
    pub fn walk<D: Dma>(
        &mut self,
        q: u16,
        cid: u16,
        dma: &mut D,
    ) -> Result<WalkState, ControllerRefusal>
        requires room { length (D.reached dma.old) ≤ 2 }
        ensures refusal { result_err result ≡ walk_refusal self.old.contents q cid }
        ensures refused { OnErr result ((self.new.contents ≡ self.old.contents) × (D.memory dma.new ≡ D.memory dma.old) × (D.reached dma.new ≡ D.reached dma.old)) }
        ensures walks { IfOk result (λ state. WalksTo self.old.contents q cid (D.memory dma.old) (D.reached dma.old) state self.new.contents (D.memory dma.new) (D.reached dma.new)) }
        ensures kind { self.new.lends ≡ self.old.lends }
        ensures unlisted { D.unlisted dma.new ≡ D.unlisted dma.old }
        ensures pool { D.page_count dma.new ≡ D.page_count dma.old }
    {
        match &mut self.kind {
            Kind::Own(controller) => controller.walk(q, cid, dma),
            Kind::Lending(controller) => controller.walk(q, cid, dma),
        }
    }

    /// Fetches, over the image that it holds, as [`Controller::fetch`] does.
    pub fn fetch<D: Dma>(&mut self, q: u16, dma: &mut D) -> Result<u16, ControllerRefusal>
        requires own { self.old.lends ≡ false }
        requires room { length (D.reached dma.old) ≤ 1 }
        ensures fetches { Fetches self.old.contents (D.page_count dma.old) (D.memory dma.old) (D.reached dma.old) q result self.new.contents (D.memory dma.new) (D.reached dma.new) }
        ensures kind { self.new.lends ≡ false }
        ensures unlisted { D.unlisted dma.new ≡ D.unlisted dma.old }
        ensures pool { D.page_count dma.new ≡ D.page_count dma.old }
    {
        match &mut self.kind {
            Kind::Own(controller) => controller.fetch(q, dma),
            Kind::Lending(_) => unreachable!(),
        }
    }

    /// Completes a command, over the image that it holds, as [`Controller::complete`] does.
    pub fn complete<D: Dma>(
        &mut self,
        q: u16,
        cid: u16,
        dma: &mut D,
    ) -> Result<(), ControllerRefusal>
        requires own { self.old.lends ≡ false }
        requires room { length (D.reached dma.old) ≤ 2 }
        ensures refusal { result_err result ≡ complete_refusal self.old.contents (D.memory dma.old) q cid }
        ensures refused { OnErr result ((self.new.contents ≡ self.old.contents) × (D.memory dma.new ≡ D.memory dma.old) × (D.reached dma.new ≡ D.reached dma.old)) }
        ensures completes { OnOk result (CompletesTo self.old.contents q cid (D.memory dma.old) (D.reached dma.old) self.new.contents (D.memory dma.new) (D.reached dma.new)) }
        ensures kind { self.new.lends ≡ false }
        ensures unlisted { D.unlisted dma.new ≡ D.unlisted dma.old }
        ensures pool { D.page_count dma.new ≡ D.page_count dma.old }
    {
        match &mut self.kind {
            Kind::Own(controller) => controller.complete(q, cid, dma),
            Kind::Lending(_) => unreachable!(),
        }
    }

    /// Fetches over blocks that are lent, as [`Controller::fetch_over`] does.
    pub fn fetch_over<D: Dma>(
        &mut self,
        q: u16,
        dma: &mut D,
        lent: &Lent,
    ) -> Result<u16, LentRefusal>
        requires lends { self.old.lends ≡ true }
        requires room { length (D.reached dma.old) ≤ 1 }
        requires as_many { lent.now.blocks ≡ block_count self.old.contents.image }
        ensures fetches { FetchesLent (with_image self.old.contents (bytes_lent lent.now)) (D.page_count dma.old) (D.memory dma.old) (D.reached dma.old) q result (with_image self.new.contents (bytes_lent lent.now)) (D.memory dma.new) (D.reached dma.new) }
        ensures lacks { lacked result ≡ fetch_lacked (is_in lent.now) self.old.contents (D.memory dma.old) q }
        ensures image { self.new.contents.image ≡ self.old.contents.image }
        ensures kind { self.new.lends ≡ true }
        ensures unlisted { D.unlisted dma.new ≡ D.unlisted dma.old }
        ensures pool { D.page_count dma.new ≡ D.page_count dma.old }
    {
        match &mut self.kind {
            Kind::Own(_) => unreachable!(),
            Kind::Lending(controller) => controller.fetch_over(q, dma, lent),
        }
    }

    /// Completes a command over blocks that are lent, as [`Controller::complete_over`] does.
    pub fn complete_over<D: Dma>(
        &mut self,
        q: u16,
        cid: u16,
        dma: &mut D,
        lent: &mut Lent,
    ) -> Result<(), LentRefusal>
        requires lends { self.old.lends ≡ true }
        requires room { length (D.reached dma.old) ≤ 2 }
        requires as_many { lent.old.blocks ≡ block_count self.old.contents.image }
        ensures refusal { result_err result ≡ lent_refusal (is_in lent.old) self.old.contents (D.memory dma.old) q cid }
        ensures refused { OnErr result ((self.new.contents ≡ self.old.contents) × (bytes_lent lent.new ≡ bytes_lent lent.old) × (D.memory dma.new ≡ D.memory dma.old) × (D.reached dma.new ≡ D.reached dma.old)) }
        ensures completes { OnOk result (CompletesTo (with_image self.old.contents (bytes_lent lent.old)) q cid (D.memory dma.old) (D.reached dma.old) (with_image self.new.contents (bytes_lent lent.new)) (D.memory dma.new) (D.reached dma.new)) }
        ensures image { self.new.contents.image ≡ self.old.contents.image }
        ensures kind { self.new.lends ≡ true }
        ensures same { lent.new.bytes.ghost_name ≡ lent.old.bytes.ghost_name }
        ensures blocks { lent.new.blocks ≡ lent.old.blocks }
        ensures first { lent.new.first ≡ lent.old.first }
        ensures length { length lent.new.bytes.now ≡ length lent.old.bytes.now }
        ensures unlisted { D.unlisted dma.new ≡ D.unlisted dma.old }
        ensures pool { D.page_count dma.new ≡ D.page_count dma.old }
    {
        match &mut self.kind {
            Kind::Own(_) => unreachable!(),
            Kind::Lending(controller) => controller.complete_over(q, cid, dma, lent),
        }
    }
}
