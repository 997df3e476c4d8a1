//! A controller that C keeps between its calls.

ghost use Rattle.std.specs.Prelude.{◌≡◌, Option, Ok, Err, IfOk, IfErr, OnOk, is_some, true, false};
ghost use Rattle.nvmesgl_c.specs.AnyControllers.{AnyContents};
ghost use Rattle.nvmesgl_c.specs.ControllerOwned.{code_by_mark, any_coded, kept_owns, IsMarkedKind};

use crate::controller::any_controller::AnyController;
use crate::controller::code::OTHER_CALL;
use crate::held::Held;
use crate::words::code::{OPEN, cause_of_mark, code_of_mark};
use std::alloc::Global;
use std::marker::Model;
use std::mem::replace;

/// A controller by its pointer, or none. It frees nothing by itself: a [`Handle`] does.
#[repr(C)]
#[derive(Drop)]
pub struct Kept {
    at: *mut u8,
    alloc: Global,
    pub ghost controller: { Option AnyContents } by { any_coded },
}

impl Model for Kept {
    ghost also_owns = { λ h. kept_owns h.alloc h.at h.controller };
}

// What frees the controller names no thread: a handle may go from thread to thread, where one call at a time is made on it.
unsafe impl Send for Kept {}

impl Kept {
    /// What is held.
    pub fn of_held(held: Held<AnyController, Global>) -> Kept
        ensures { result.controller ≡ held.value }
    {
        let Held { at, alloc } = held;
        Kept {
            at: at as *mut u8,
            alloc,
        }
    }

    /// What is held.
    pub fn into_held(self) -> Held<AnyController, Global>
        ensures { result.value ≡ self.controller }
    {
        let Kept { at, alloc } = self;
        Held {
            at: at as *mut AnyController,
            alloc,
        }
    }
}

/// The mark of a handle that keeps a controller with an image.
const OWN_MARK: u32 = 0x6C74_6363;

/// The mark of a handle that keeps a controller whose blocks are lent.
const LENT_MARK: u32 = 0x6C74_636C;

/// A controller that C keeps, or none. C holds the bytes of this, all zero before the opening, and never looks inside.
#[repr(C)]
pub struct Handle {
    /// What is kept.
    kept: Kept,
    /// [`OWN_MARK`] or [`LENT_MARK`] where there is one, and 0 in a handle that is closed. A handle with another mark is not of this kind.
    mark: u32,
    pub ghost marked: { IsMarkedKind mark kept.controller },
}

/// What a call is refused with that takes no handle of this mark.
fn code_of(mark: u32) -> u32
    ensures { result ≡ code_by_mark mark }
{
    match mark {
        OWN_MARK | LENT_MARK => OTHER_CALL,
        _ => code_of_mark(mark),
    }
}

impl Handle {
    ghost use Rattle.nvmesgl_c.specs.ControllerKept.{IsClosed, cause_in, code_in, kept_in, lends_in, lent_in, own_in};

    /// Takes the controller out that is kept.
    fn take_out(&mut self, alloc: Global) -> Box<AnyController, Global>
        requires { is_some self.old.kept.controller ≡ true }
        ensures taken { self.old.kept.controller ≡ Some result.value }
        ensures left { kept_in self.new ≡ Err self.new }
        ensures closed { IsClosed self.new }
    {
        let kept = replace(&mut self.kept, Kept::of_held(Held::none(alloc)));
        self.mark = 0;
        kept.into_held().into_box()
    }

    /// Takes the controller out for a call, of whichever kind it is. A handle that keeps none stays as it is.
    ///
    /// # Errors
    ///
    /// The code, where none is kept: the handle is closed, or not of this kind.
    pub fn take(&mut self, alloc: Global) -> Result<Box<AnyController, Global>, u32>
        ensures taken { IfOk result (λ taken. kept_in self.old ≡ Ok taken.value.contents) }
        ensures kind { IfOk result (λ taken. lends_in self.old ≡ taken.value.lends) }
        ensures left { OnOk result (kept_in self.new ≡ Err self.new) }
        ensures closed { OnOk result (IsClosed self.new) }
        ensures none { IfErr result (λ code. kept_in self.old ≡ Err self.old) }
        ensures same { IfErr result (λ code. self.new ≡ self.old) }
        ensures code { IfErr result (λ code. code ≡ code_in self.old) }
    {
        match self.mark {
            OWN_MARK | LENT_MARK => Ok(self.take_out(alloc)),
            mark => Err(code_of(mark)),
        }
    }

    /// Takes a controller out that holds an image. A handle that keeps none stays as it is.
    ///
    /// # Errors
    ///
    /// The code, where none is kept: as [`Handle::take`], or the blocks of the one that is kept are lent.
    pub fn take_own(&mut self, alloc: Global) -> Result<Box<AnyController, Global>, u32>
        ensures taken { IfOk result (λ taken. own_in self.old ≡ Ok taken.value.contents) }
        ensures kind { IfOk result (λ taken. taken.value.lends ≡ false) }
        ensures none { IfErr result (λ code. own_in self.old ≡ Err self.old) }
        ensures same { IfErr result (λ code. self.new ≡ self.old) }
        ensures code { IfErr result (λ code. code ≡ code_in self.old) }
    {
        if self.mark == OWN_MARK {
            return Ok(self.take_out(alloc));
        }
        Err(code_of(self.mark))
    }

    /// Takes a controller out whose blocks are lent. A handle that keeps none stays as it is.
    ///
    /// # Errors
    ///
    /// The code, where none is kept: as [`Handle::take`], or the one that is kept holds an image.
    pub fn take_lent(&mut self, alloc: Global) -> Result<Box<AnyController, Global>, u32>
        ensures taken { IfOk result (λ taken. lent_in self.old ≡ Ok taken.value.contents) }
        ensures kind { IfOk result (λ taken. taken.value.lends ≡ true) }
        ensures none { IfErr result (λ code. lent_in self.old ≡ Err self.old) }
        ensures same { IfErr result (λ code. self.new ≡ self.old) }
        ensures code { IfErr result (λ code. code ≡ code_in self.old) }
    {
        if self.mark == LENT_MARK {
            return Ok(self.take_out(alloc));
        }
        Err(code_of(self.mark))
    }

    /// Keeps a controller, in the place of what was there.
    pub fn put(&mut self, controller: Box<AnyController, Global>)
        ensures kept { kept_in self.new ≡ Ok controller.value.contents }
        ensures kind { lends_in self.new ≡ controller.value.lends }
        ensures own { controller.value.lends ≡ false → own_in self.new ≡ Ok controller.value.contents }
        ensures lent { controller.value.lends ≡ true → lent_in self.new ≡ Ok controller.value.contents }
    {
        let mark = if controller.lends() {
            LENT_MARK
        } else {
            OWN_MARK
        };
        *self = Handle {
            kept: Kept::of_held(Held::of(controller)),
            mark,
        };
    }

    /// What an opening is refused with for what the handle is: it is open, or not of this kind.
    pub fn cause(&self) -> Option<u32>
        ensures { result ≡ cause_in (kept_in self.now) }
    {
        match self.mark {
            LENT_MARK => Some(OPEN),
            mark => cause_of_mark(mark, OWN_MARK),
        }
    }
}

impl Drop for Handle {
    fn drop(self) {
        let Handle { kept, mark } = self;
        match mark {
            OWN_MARK | LENT_MARK => drop(kept.into_held().into_box()),
            _ => drop(kept),
        }
    }
}
