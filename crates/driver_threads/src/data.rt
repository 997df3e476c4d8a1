//! What the data of a job are: bytes in memory, or what makes them and looks at what comes back.

ghost use Rattle.std.specs.Prelude.{◌≡◌, ◌≢◌, ◌<◌, length, sum_by, IfOk, OnOk, Err};
ghost use Rattle.io_commands.specs.DataBytes.{data_length};
ghost use Rattle.io_commands.specs.declared.request.Kind.TheVariants.{Read};
ghost use Rattle.io_commands.specs.declared.draft.FillFault.TheVariants as FillFault;
ghost use Rattle.driver_threads.specs.Jobs.{BytesOf, KeepsGathered, KeepsOf, themselves, with_bytes_of};

use io_commands::{Draft, FillFault, Finished};
use std::alloc::{AllocError, Allocator};
use step_core::Bytes;
use thiserror::Error;

/// Why a draft was not filled.
#[derive(Clone, Copy, Debug, PartialEq, Eq, Error)]
pub enum Unfilled {
    /// There are more bytes than its data pieces take.
    #[error("there are more bytes than the data pieces take")]
    WrongLength,
    /// Memory was refused.
    #[error("memory was refused")]
    Memory,
}

/// The data of a job: it fills the job's draft, and says what the job's end keeps of the finished command, which it is lent before its
/// pages go back. Both are done in the thread of the submitter, while no lock is held, so that bytes may be made and compared where they
/// lie, by as many threads as there are submitters.
pub trait Data<K, A: Allocator> {
    /// the bytes that it stands for
    ghost bytes: { BytesOf Self };
    /// what may be kept of a finished command
    ghost keeps: { KeepsOf Self K };

    /// Puts the bytes into the data pieces of a Write, a Compare or a Deallocate, and zeros after them. A Read's draft stays as it is.
    ///
    /// # Errors
    ///
    /// `WrongLength` only where it is not a Read, and there are more bytes than its data pieces take. `Memory` where memory is refused.
    fn fill(&self, alloc: A, draft: &mut Draft<A>) -> Result<(), Unfilled>
        ensures filled { OnOk result (draft.new ≡ with_bytes_of draft.old.request.kind (bytes self.now) draft.old) }
        ensures too_long { result ≡ Err Unfilled.WrongLength → (draft.old.request.kind ≢ Read) × (sum_by data_length draft.old.request.pieces < length (bytes self.now)) };

    /// What is kept of the finished command.
    ///
    /// # Errors
    ///
    /// Where memory is refused.
    fn keep(self, alloc: A, finished: &Finished<A>) -> Result<K, AllocError>
        ensures { IfOk result (λ kept. keeps self finished.now kept) };
}

/// The bytes themselves: an end keeps all that was gathered.
impl<A: Allocator> Data<Bytes<A>, A> for Bytes<A> {
    ghost bytes = { themselves };

    ghost keeps = { KeepsGathered };

    fn fill(&self, _alloc: A, draft: &mut Draft<A>) -> Result<(), Unfilled> {
        match draft.fill_padded(self.as_slice()) {
            Ok(()) | Err(FillFault::NotASource) => Ok(()),
            Err(FillFault::WrongLength) => Err(Unfilled::WrongLength),
        }
    }

    fn keep(self, alloc: A, finished: &Finished<A>) -> Result<Bytes<A>, AllocError> {
        Ok(Bytes::from_vec(finished.gather(alloc)?))
    }
}
