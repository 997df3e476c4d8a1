//! Laws of the definitions that the contracts cite. Each function's clauses are laws, and it changes nothing.

ghost use Rattle.std.specs.Prelude.{◌≡◌, ◌∷◌, [], ℕ, List, None, Some, replicate};
ghost use Rattle.io_commands.specs.declared.request.Piece.{Piece};
ghost use Rattle.io_commands.specs.declared.request.Piece.TheVariants.{Data, Bucket};
ghost use Rattle.io_commands.specs.Drafts.{caller_entry, io_entry, DraftsCarryTheirEntry, BuiltDraftsSpell};
ghost use Rattle.io_commands.specs.Requests.{fault_of};
ghost use Rattle.io_commands.specs.Worked.{command, deallocate};
ghost use Rattle.io_commands.specs.Ranges.{range_bytes};
ghost use Rattle.io_commands.specs.declared.admin.PageUse.TheVariants.{Nothing, In, Out};
ghost use Rattle.io_commands.specs.declared.block_size.BlockSize.TheVariants.{Bytes512, Bytes4096};
ghost use Rattle.io_commands.specs.declared.request.{Kind.TheVariants.{Admin, Deallocate}, RequestFault.TheVariants.{BadCount, LengthMismatch, HostsOwn}};
ghost use Rattle.io_commands.specs.Least.{least_pages, LeastIsBetween, LeastAnywhere, LeastOfAll};

use sgl_chain::laws::laid_chains_spell;

/// What a built draft is made of tells what it does: its entry is the one of its own request, and its chain pages spell its
/// parts wherever they stand in a memory, whoever built it.
pub fn laws_of_built_drafts()
    ensures entry { DraftsCarryTheirEntry }
    ensures spells { BuiltDraftsSpell }
{
    laid_chains_spell();
}

/// The fewest pages of a request are no fewer than its data pages and no more than it takes where no parts are joined.
/// They are the same in whichever consecutive pages the data stands, and in no other pages are they fewer.
#[tactic(auto, using(crate::proofs::Fewest::is_between, crate::proofs::Fewest::same_anywhere, crate::proofs::Fewest::least_of_all))]
pub fn laws_of_least_pages()
    ensures between { (pieces : List Piece) (segment : ℕ) → LeastIsBetween pieces segment }
    ensures anywhere { LeastAnywhere }
    ensures of_all { LeastOfAll }
{}

/// A few admin commands: Identify has one piece from the start of its page, whose address is its PRP1; Set Features without data has none.
/// The host keeps Delete I/O Submission Queue to itself, and Set Features of the Host Memory Buffer.
pub fn worked_admin_commands()
    ensures identify { fault_of (Admin (command 0x06 In 1)) Bytes512 0 (Data 0 4096 ∷ []) ≡ None }
    ensures pointer { (caller_entry 3 0 (command 0x06 In 1) (5 ∷ [])).sgl1 ≡ 0 ∷ 80 ∷ replicate 14 0 }
    ensures no_page { fault_of (Admin (command 0x06 In 1)) Bytes512 0 [] ≡ Some LengthMismatch }
    ensures offset { fault_of (Admin (command 0x06 In 1)) Bytes512 0 (Data 512 512 ∷ []) ≡ Some LengthMismatch }
    ensures two_pages { fault_of (Admin (command 0x06 In 1)) Bytes512 0 (Data 0 4096 ∷ Data 0 4096 ∷ []) ≡ Some LengthMismatch }
    ensures features { fault_of (Admin (command 0x09 Nothing 0x07)) Bytes512 0 [] ≡ None }
    ensures no_pointer { (caller_entry 3 0 (command 0x09 Nothing 0x07) []).sgl1 ≡ replicate 16 0 }
    ensures buffer { fault_of (Admin (command 0x09 Nothing 0x8000000D)) Bytes512 0 [] ≡ Some HostsOwn }
    ensures delete { fault_of (Admin (command 0x00 Nothing 1)) Bytes512 0 [] ≡ Some HostsOwn }
    ensures doorbells { fault_of (Admin (command 0x7C Out 0)) Bytes512 0 (Data 0 4096 ∷ []) ≡ Some HostsOwn }
{}

/// A few Deallocates: two ranges have 32 bytes, of any buckets none count, and there are at most 256. The entry has one range less than there
/// are, and the attribute Deallocate; a range has its number of blocks before its first block.
pub fn worked_ranges()
    ensures two { fault_of Deallocate Bytes4096 2 (Data 0 32 ∷ []) ≡ None }
    ensures apart { fault_of Deallocate Bytes512 2 (Data 4080 16 ∷ Bucket 512 ∷ Data 0 16 ∷ []) ≡ None }
    ensures more { fault_of Deallocate Bytes512 2 (Data 0 48 ∷ []) ≡ Some LengthMismatch }
    ensures no_range { fault_of Deallocate Bytes512 0 [] ≡ Some BadCount }
    ensures most { fault_of Deallocate Bytes512 256 (Data 0 4096 ∷ []) ≡ None }
    ensures too_many { fault_of Deallocate Bytes512 257 (Data 0 4096 ∷ Data 0 16 ∷ []) ≡ Some BadCount }
    ensures opcode { (io_entry 3 deallocate (replicate 16 0)).opcode ≡ 0x09 }
    ensures number { (io_entry 3 deallocate (replicate 16 0)).cdw10 ≡ 1 }
    ensures attribute { (io_entry 3 deallocate (replicate 16 0)).cdw11 ≡ 4 }
    ensures no_blocks { (io_entry 3 deallocate (replicate 16 0)).cdw12 ≡ 0 }
    ensures bytes { range_bytes (record { slba = 0x0102; blocks = 8 }) ≡ 0 ∷ 0 ∷ 0 ∷ 0 ∷ 8 ∷ 0 ∷ 0 ∷ 0 ∷ 2 ∷ 1 ∷ replicate 6 0 }
{}

/// The fewest pages of a few requests: whole pages need no chain; pieces that leave a gap, and those beside a bucket, do.
pub fn worked_least_pages()
    ensures whole { least_pages (Data 0 4096 ∷ Data 0 4096 ∷ Data 0 4096 ∷ Data 0 4096 ∷ []) 2 ≡ 4 }
    ensures gaps { least_pages (Data 0 512 ∷ Data 0 512 ∷ Data 0 512 ∷ Data 0 512 ∷ []) 256 ≡ 5 }
    ensures small_segments { least_pages (Data 0 512 ∷ Data 0 512 ∷ Data 0 512 ∷ Data 0 512 ∷ []) 2 ≡ 7 }
    ensures ends { least_pages (Data 3584 512 ∷ Data 0 4096 ∷ Data 0 512 ∷ []) 2 ≡ 3 }
    ensures bucket { least_pages (Data 0 4096 ∷ Bucket 512 ∷ Data 0 4096 ∷ []) 256 ≡ 3 }
    ensures bucket_alone { least_pages (Bucket 512 ∷ []) 256 ≡ 0 }
{}
