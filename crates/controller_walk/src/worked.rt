//! Worked runs of the definitions, on small lists. Each function does nothing.

ghost use Rattle.std.specs.Prelude.{◌≡◌, ◌∷◌, [], Some, None, map};
ghost use Rattle.sgl_descriptor.specs.declared.Descriptor.TheVariants.{DataBlock, BitBucket, Segment, LastSegment};
ghost use Rattle.sgl_descriptor.specs.declared.Direction.TheVariants.{Destination, Source};
ghost use Rattle.sgl_descriptor.specs.declared.Part.TheVariants.{Data, Bucket};
ghost use Rattle.sgl_descriptor.specs.Spelling.{spelling, descriptor_of};
ghost use Rattle.controller_walk.specs.declared.walk.WalkState.TheVariants.{End, Fault};
ghost use Rattle.controller_walk.specs.declared.cause.FaultCause.TheVariants.{TooManyDescriptors, UnreadableDescriptor, UnknownType, LinkInLastSegment, LinkNotLast, MalformedLink, MissingLink, PastEndOfAddresses, UnreadableData, ListTooShort};
ghost use Rattle.controller_walk.specs.declared.cursor.Named.TheVariants.{BySegment, ByLastSegment};
ghost use Rattle.controller_walk.specs.Along.{parts_of_list};
ghost use Rattle.controller_walk.specs.Faults.{cause_next, cause_taken, cause_moved};
ghost use Rattle.controller_walk.specs.Units.{Stays, Reads, Moves, touched, units_of_list, verdict_of_list, entry_cursor, segment_start};
ghost use Rattle.controller_walk.specs.Worked.{eight_pages, with_descriptors};

/// The pages of units: none, those of a descriptor that crosses a page's end, and that of a part of a block.
pub fn worked_pages()
    ensures { map touched (Stays ∷ Reads 0x1FF8 ∷ Moves 0x4000 512 0 ∷ []) ≡ [] ∷ (1 ∷ 2 ∷ []) ∷ (4 ∷ []) ∷ [] }
{}

/// Lists of the entry's one descriptor, for 512 bytes. A block of 511 is moved, and the list ends too early; of one of
/// 513 the wanted prefix is moved. One that ends above 2^64 is refused, also where only a prefix of 256 bytes is wanted, which ends
/// at 2^64. So is a type above 3 and a subtype that isn't 0.
#[tactic(auto, unfolding(crate::specs::Units::moving, sgl_descriptor::specs::Spelling::descriptor_of, page_memory::specs::Memory::bytes_at))]
pub fn worked_entries()
    ensures short { units_of_list eight_pages (spelling (DataBlock 0x2000 511)) Destination 512 ≡ Stays ∷ Moves 0x2000 511 0 ∷ [] }
    ensures short_verdict { verdict_of_list eight_pages (spelling (DataBlock 0x2000 511)) Destination 512 ≡ Fault (record { sct = 0; sc = 0x0F }) }
    ensures long { units_of_list eight_pages (spelling (DataBlock 0x2000 513)) Destination 512 ≡ Stays ∷ Moves 0x2000 512 0 ∷ [] }
    ensures long_verdict { verdict_of_list eight_pages (spelling (DataBlock 0x2000 513)) Destination 512 ≡ End }
    ensures past_end { units_of_list eight_pages (spelling (DataBlock 0xFFFFFFFFFFFFFF00 512)) Source 512 ≡ Stays ∷ [] }
    ensures past_end_verdict { verdict_of_list eight_pages (spelling (DataBlock 0xFFFFFFFFFFFFFF00 512)) Source 512 ≡ Fault (record { sct = 0; sc = 0x0F }) }
    ensures front_at_end { verdict_of_list eight_pages (spelling (DataBlock 0xFFFFFFFFFFFFFF00 512)) Source 256 ≡ Fault (record { sct = 0; sc = 0x0F }) }
    ensures type_four { verdict_of_list eight_pages (0 ∷ 0x20 ∷ 0 ∷ 0 ∷ 0 ∷ 0 ∷ 0 ∷ 0 ∷ 0 ∷ 2 ∷ 0 ∷ 0 ∷ 0 ∷ 0 ∷ 0 ∷ 0x40 ∷ []) Destination 512
        ≡ Fault (record { sct = 0; sc = 0x11 }) }
    ensures subtype_one { verdict_of_list eight_pages (0 ∷ 0x20 ∷ 0 ∷ 0 ∷ 0 ∷ 0 ∷ 0 ∷ 0 ∷ 0 ∷ 2 ∷ 0 ∷ 0 ∷ 0 ∷ 0 ∷ 0 ∷ 0x01 ∷ []) Destination 512
        ≡ Fault (record { sct = 0; sc = 0x11 }) }
{}

/// A block whose second byte is outside the pool: its first page's part is moved.
#[tactic(auto, unfolding(crate::specs::Units::moving, sgl_descriptor::specs::Spelling::descriptor_of, page_memory::specs::Memory::bytes_at))]
pub fn worked_missing_byte()
    ensures units { units_of_list eight_pages (spelling (DataBlock 0x7FFF 2)) Destination 2 ≡ Stays ∷ Moves 0x7FFF 1 0 ∷ Stays ∷ [] }
    ensures verdict { verdict_of_list eight_pages (spelling (DataBlock 0x7FFF 2)) Destination 2 ≡ Fault (record { sct = 0; sc = 0x04 }) }
{}

/// A segment with a link after a block: in a last segment the link is refused, and in another as it isn't in the last place.
#[tactic(auto, unfolding(crate::specs::Units::moving, crate::specs::Units::from_place, sgl_descriptor::specs::Spelling::descriptor_of, page_memory::specs::Memory::bytes_at))]
pub fn worked_links()
    ensures in_last { units_of_list (with_descriptors 0x1000 (DataBlock 0x2000 512 ∷ Segment 0x3000 16 ∷ [])) (spelling (LastSegment 0x1000 32)) Destination 1024
        ≡ Stays ∷ Reads 0x1000 ∷ Moves 0x2000 512 0 ∷ Reads 0x1010 ∷ [] }
    ensures in_last_verdict { verdict_of_list (with_descriptors 0x1000 (DataBlock 0x2000 512 ∷ Segment 0x3000 16 ∷ [])) (spelling (LastSegment 0x1000 32)) Destination 1024
        ≡ Fault (record { sct = 0; sc = 0x0D }) }
    ensures inside { units_of_list (with_descriptors 0x1000 (DataBlock 0x2000 512 ∷ Segment 0x3000 16 ∷ [])) (spelling (Segment 0x1000 48)) Destination 1024
        ≡ Stays ∷ Reads 0x1000 ∷ Moves 0x2000 512 0 ∷ Reads 0x1010 ∷ [] }
    ensures inside_verdict { verdict_of_list (with_descriptors 0x1000 (DataBlock 0x2000 512 ∷ Segment 0x3000 16 ∷ [])) (spelling (Segment 0x1000 48)) Destination 1024
        ≡ Fault (record { sct = 0; sc = 0x0E }) }
{}

/// A segment of a block and a bucket, which a destination counts and a source skips.
#[tactic(auto, unfolding(crate::specs::Units::moving, crate::specs::Units::from_place, sgl_descriptor::specs::Spelling::descriptor_of, page_memory::specs::Memory::bytes_at))]
pub fn worked_buckets()
    ensures units { units_of_list (with_descriptors 0x5000 (DataBlock 0x4000 512 ∷ BitBucket 512 ∷ [])) (spelling (LastSegment 0x5000 32)) Destination 1024
        ≡ Stays ∷ Reads 0x5000 ∷ Moves 0x4000 512 0 ∷ Reads 0x5010 ∷ [] }
    ensures parts { parts_of_list (with_descriptors 0x5000 (DataBlock 0x4000 512 ∷ BitBucket 512 ∷ [])) (spelling (LastSegment 0x5000 32)) Destination 1024
        ≡ Data 0x4000 512 ∷ Bucket 512 ∷ [] }
    ensures destination { verdict_of_list (with_descriptors 0x5000 (DataBlock 0x4000 512 ∷ BitBucket 512 ∷ [])) (spelling (LastSegment 0x5000 32)) Destination 1024 ≡ End }
    ensures source { verdict_of_list (with_descriptors 0x5000 (DataBlock 0x4000 512 ∷ BitBucket 512 ∷ [])) (spelling (LastSegment 0x5000 32)) Source 512 ≡ End }
    ensures source_wants { verdict_of_list (with_descriptors 0x5000 (DataBlock 0x4000 512 ∷ BitBucket 512 ∷ [])) (spelling (LastSegment 0x5000 32)) Source 1024
        ≡ Fault (record { sct = 0; sc = 0x0F }) }
{}

/// Lists that are longer than the data: the descriptor after the wanted bytes is not read, be it a block, after a block or a bucket, or a
/// link that would be a fault, and a block that crosses the end of the wanted bytes is moved as far as they go.
#[tactic(auto, unfolding(crate::specs::Units::moving, crate::specs::Units::from_place, sgl_descriptor::specs::Spelling::descriptor_of, page_memory::specs::Memory::bytes_at))]
pub fn worked_longer_lists()
    ensures block { units_of_list (with_descriptors 0x1000 (DataBlock 0x2F00 512 ∷ DataBlock 0x4000 512 ∷ [])) (spelling (LastSegment 0x1000 32)) Source 512
        ≡ Stays ∷ Reads 0x1000 ∷ Moves 0x2F00 256 0 ∷ Moves 0x3000 256 256 ∷ [] }
    ensures block_verdict { verdict_of_list (with_descriptors 0x1000 (DataBlock 0x2F00 512 ∷ DataBlock 0x4000 512 ∷ [])) (spelling (LastSegment 0x1000 32)) Source 512 ≡ End }
    ensures front { units_of_list (with_descriptors 0x1000 (DataBlock 0x2000 512 ∷ DataBlock 0x4F00 1024 ∷ [])) (spelling (LastSegment 0x1000 32)) Destination 1000
        ≡ Stays ∷ Reads 0x1000 ∷ Moves 0x2000 512 0 ∷ Reads 0x1010 ∷ Moves 0x4F00 256 512 ∷ Moves 0x5000 232 768 ∷ [] }
    ensures front_parts { parts_of_list (with_descriptors 0x1000 (DataBlock 0x2000 512 ∷ DataBlock 0x4F00 1024 ∷ [])) (spelling (LastSegment 0x1000 32)) Destination 1000
        ≡ Data 0x2000 512 ∷ Data 0x4F00 488 ∷ [] }
    ensures bucket { units_of_list (with_descriptors 0x1000 (BitBucket 1024 ∷ DataBlock 0x2000 512 ∷ [])) (spelling (LastSegment 0x1000 32)) Destination 512 ≡ Stays ∷ Reads 0x1000 ∷ [] }
    ensures bucket_parts { parts_of_list (with_descriptors 0x1000 (BitBucket 1024 ∷ DataBlock 0x2000 512 ∷ [])) (spelling (LastSegment 0x1000 32)) Destination 512 ≡ Bucket 512 ∷ [] }
    ensures bucket_verdict { verdict_of_list (with_descriptors 0x1000 (BitBucket 1024 ∷ DataBlock 0x2000 512 ∷ [])) (spelling (LastSegment 0x1000 32)) Destination 512 ≡ End }
    ensures link { units_of_list (with_descriptors 0x1000 (DataBlock 0x2000 512 ∷ Segment 0x3000 16 ∷ [])) (spelling (LastSegment 0x1000 32)) Destination 512
        ≡ Stays ∷ Reads 0x1000 ∷ Moves 0x2000 512 0 ∷ [] }
    ensures link_verdict { verdict_of_list (with_descriptors 0x1000 (DataBlock 0x2000 512 ∷ Segment 0x3000 16 ∷ [])) (spelling (LastSegment 0x1000 32)) Destination 512 ≡ End }
{}

/// Which fault it is: at the entry's descriptor, and at the first descriptor of a segment at 1000h.
#[tactic(auto, unfolding(sgl_descriptor::specs::Spelling::descriptor_of, page_memory::specs::Memory::bytes_at))]
pub fn worked_causes()
    ensures entry_type { cause_taken Destination entry_cursor 512 (descriptor_of (0 ∷ 0x20 ∷ 0 ∷ 0 ∷ 0 ∷ 0 ∷ 0 ∷ 0 ∷ 0 ∷ 2 ∷ 0 ∷ 0 ∷ 0 ∷ 0 ∷ 0 ∷ 0x40 ∷ [])) ≡ Some UnknownType }
    ensures entry_empty { cause_taken Destination entry_cursor 512 (Some (DataBlock 0x2000 0)) ≡ Some ListTooShort }
    ensures entry_bucket { cause_taken Source entry_cursor 512 (Some (BitBucket 512)) ≡ Some ListTooShort }
    ensures entry_counted { cause_taken Destination entry_cursor 512 (Some (BitBucket 512)) ≡ None }
    ensures entry_length { cause_taken Destination entry_cursor 512 (Some (Segment 0x1000 24)) ≡ Some MalformedLink }
    ensures entry_address { cause_taken Destination entry_cursor 512 (Some (LastSegment 0x1004 32)) ≡ Some MalformedLink }
    ensures entry_past_end { cause_taken Destination entry_cursor 512 (Some (DataBlock 0xFFFFFFFFFFFFFF00 512)) ≡ Some PastEndOfAddresses }
    ensures too_many { cause_next eight_pages Destination 0 (segment_start BySegment 0x1000 16) 512 ≡ Some TooManyDescriptors }
    ensures unreadable { cause_next eight_pages Destination 1 (segment_start BySegment 0x8000 16) 512 ≡ Some UnreadableDescriptor }
    ensures in_last { cause_next (with_descriptors 0x1000 (Segment 0x3000 24 ∷ [])) Destination 1 (segment_start ByLastSegment 0x1000 32) 512 ≡ Some LinkInLastSegment }
    ensures not_last { cause_next (with_descriptors 0x1000 (Segment 0x3000 24 ∷ [])) Destination 1 (segment_start BySegment 0x1000 32) 512 ≡ Some LinkNotLast }
    ensures no_link { cause_next (with_descriptors 0x1000 (DataBlock 0x2000 512 ∷ [])) Destination 1 (segment_start BySegment 0x1000 16) 512 ≡ Some MissingLink }
    ensures bucket_counted { cause_next (with_descriptors 0x1000 (BitBucket 512 ∷ [])) Destination 1 (segment_start ByLastSegment 0x1000 16) 1024 ≡ Some ListTooShort }
    ensures data { cause_moved eight_pages (record { place = 0x8000; len = 512; offset = 0; descriptor = None }) None 0 ≡ Some UnreadableData }
    ensures data_short { cause_moved eight_pages (record { place = 0x4000; len = 512; offset = 0; descriptor = None }) None 512 ≡ Some ListTooShort }
    ensures data_goes_on { cause_moved eight_pages (record { place = 0x4F00; len = 512; offset = 0; descriptor = None }) None 512 ≡ None }
{}
