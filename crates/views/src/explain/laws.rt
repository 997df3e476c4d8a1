//! Laws of the definitions that the contracts cite. The functions do nothing, and their clauses are the laws.

ghost use Rattle.std.specs.Prelude.{◌≡◌, ℕ, List, Some, true};
ghost use Rattle.block_image.specs.Blocks.{blocks_at};
ghost use Rattle.controller_walk.specs.Laws.{IsApart};
ghost use Rattle.controller_walk.specs.Units.{Course};
ghost use Rattle.entry_codec.specs.declared.status.TheConstants.Status.{SUCCESS};
ghost use Rattle.entry_codec.specs.declared.submission.SubEntry.{SubEntry};
ghost use Rattle.io_commands.specs.Jobs.{block_number, first_block, io_fault, kind_of_opcode, need_of_entry, status_after};
ghost use Rattle.sgl_descriptor.specs.declared.Direction.TheVariants.{Source};
ghost use Rattle.views.specs.Stored.{bytes_moved, field_fault, status_by};
ghost use Rattle.io_commands.specs.declared.block_size.BlockSize.TheVariants.{Bytes512};

/// A list whose bytes are fetched writes none of its descriptors, wherever they are.
pub fn fetched_lists_stand_apart()
    ensures { (c : Course) → IsApart (λ _. true) Source c }
{}

/// For the controller's own namespace, whose blocks have 512 bytes, the field checks are the controller's, and so are the bytes that a command moves and how it
/// ends by its blocks.
pub fn own_namespace_is_the_controllers()
    ensures checks { (blocks : ℕ) (e : SubEntry) → field_fault 1 Bytes512 blocks e ≡ io_fault blocks e }
    ensures moves { (e : SubEntry) → bytes_moved Bytes512 e ≡ need_of_entry e }
    ensures ends { (image : List ℕ) (e : SubEntry) (bytes : List ℕ) → status_by (blocks_at image (first_block e) (block_number e)) bytes (kind_of_opcode e.opcode) ≡ status_after image e bytes (Some SUCCESS) }
{}
