//! Worked runs of the definitions, on parts whose chains are known. Each function does nothing.

ghost use Rattle.std.specs.Prelude.{◌≡◌, ◌∷◌, [], List, map};
ghost use Rattle.sgl_descriptor.specs.declared.Part.{Part};
ghost use Rattle.sgl_descriptor.specs.declared.Part.TheVariants.{Data, Bucket};
ghost use Rattle.sgl_descriptor.specs.declared.Descriptor.TheVariants.{Segment, LastSegment};
ghost use Rattle.sgl_descriptor.specs.Spelling.{spelling};
ghost use Rattle.sgl_chain.specs.Chains.{pages_needed, first_of, segments_on, segment_bytes};
ghost use Rattle.sgl_chain.specs.Joining.{joined};
ghost use Rattle.sgl_chain.specs.Spells.{Spells};
ghost use Rattle.sgl_chain.specs.WorkedList.{linked_pages};
ghost use Rattle.page_memory.specs.Pages.{byte_at};

/// How many pages parts need, with 256 and with 2 descriptors per segment.
pub fn worked_pages_needed()
    ensures one { pages_needed 1 256 ≡ 0 }
    ensures two { pages_needed 2 256 ≡ 1 }
    ensures full { pages_needed 256 256 ≡ 1 }
    ensures one_more { pages_needed 257 256 ≡ 2 }
    ensures two_full { pages_needed 511 256 ≡ 2 }
    ensures two_full_one_more { pages_needed 512 256 ≡ 3 }
    ensures small_one { pages_needed 1 2 ≡ 0 }
    ensures small_full { pages_needed 2 2 ≡ 1 }
    ensures small_two { pages_needed 3 2 ≡ 2 }
    ensures small_many { pages_needed 1024 2 ≡ 1023 }
{}

/// Three Data parts with two descriptors per segment, on pages 7 and 8.
pub fn worked_segments()
    ensures first { spelling (first_of 2 (7 ∷ 8 ∷ []) (Data 0x4000 512 ∷ Data 0x5000 512 ∷ Data 0x6000 512 ∷ [])) ≡
        0x00 ∷ 0x70 ∷ 0 ∷ 0 ∷ 0 ∷ 0 ∷ 0 ∷ 0 ∷ 0x20 ∷ 0 ∷ 0 ∷ 0 ∷ 0 ∷ 0 ∷ 0 ∷ 0x20 ∷ [] }
    ensures segments { map segment_bytes (segments_on 2 (7 ∷ 8 ∷ []) (Data 0x4000 512 ∷ Data 0x5000 512 ∷ Data 0x6000 512 ∷ [])) ≡
        (0x00 ∷ 0x40 ∷ 0 ∷ 0 ∷ 0 ∷ 0 ∷ 0 ∷ 0 ∷ 0x00 ∷ 0x02 ∷ 0 ∷ 0 ∷ 0 ∷ 0 ∷ 0 ∷ 0x00 ∷
        0x00 ∷ 0x80 ∷ 0 ∷ 0 ∷ 0 ∷ 0 ∷ 0 ∷ 0 ∷ 0x20 ∷ 0 ∷ 0 ∷ 0 ∷ 0 ∷ 0 ∷ 0 ∷ 0x30 ∷ []) ∷
        (0x00 ∷ 0x50 ∷ 0 ∷ 0 ∷ 0 ∷ 0 ∷ 0 ∷ 0 ∷ 0x00 ∷ 0x02 ∷ 0 ∷ 0 ∷ 0 ∷ 0 ∷ 0 ∷ 0x00 ∷
        0x00 ∷ 0x60 ∷ 0 ∷ 0 ∷ 0 ∷ 0 ∷ 0 ∷ 0 ∷ 0x00 ∷ 0x02 ∷ 0 ∷ 0 ∷ 0 ∷ 0 ∷ 0 ∷ 0x00 ∷ []) ∷ [] }
{}

/// A Data part and a Bucket on page 5.
pub fn worked_bucket()
    ensures first { spelling (first_of 256 (5 ∷ []) (Data 0x4000 512 ∷ Bucket 512 ∷ [])) ≡
        0x00 ∷ 0x50 ∷ 0 ∷ 0 ∷ 0 ∷ 0 ∷ 0 ∷ 0 ∷ 0x20 ∷ 0 ∷ 0 ∷ 0 ∷ 0 ∷ 0 ∷ 0 ∷ 0x30 ∷ [] }
    ensures segments { map segment_bytes (segments_on 256 (5 ∷ []) (Data 0x4000 512 ∷ Bucket 512 ∷ [])) ≡
        (0x00 ∷ 0x40 ∷ 0 ∷ 0 ∷ 0 ∷ 0 ∷ 0 ∷ 0 ∷ 0x00 ∷ 0x02 ∷ 0 ∷ 0 ∷ 0 ∷ 0 ∷ 0 ∷ 0x00 ∷
        0x00 ∷ 0x00 ∷ 0 ∷ 0 ∷ 0 ∷ 0 ∷ 0 ∷ 0 ∷ 0x00 ∷ 0x02 ∷ 0 ∷ 0 ∷ 0 ∷ 0 ∷ 0 ∷ 0x10 ∷ []) ∷ [] }
{}

/// One part is in the first descriptor, with no segment.
pub fn worked_single_part()
    ensures first { spelling (first_of 2 [] (Data 0x4000 512 ∷ [])) ≡
        0x00 ∷ 0x40 ∷ 0 ∷ 0 ∷ 0 ∷ 0 ∷ 0 ∷ 0 ∷ 0x00 ∷ 0x02 ∷ 0 ∷ 0 ∷ 0 ∷ 0 ∷ 0 ∷ 0x00 ∷ [] }
    ensures segments { segments_on 2 [] (Data 0x4000 512 ∷ []) ≡ [] }
{}

/// A list in pages 1 and 2, whose reserved bytes are not zero: a Segment descriptor names a Data Block and a link, which
/// names a Bit Bucket. A Last Segment descriptor of the same segment spells nothing, since its last descriptor is a link.
#[tactic(auto, using(crate::proofs::Back::list_spelled, crate::proofs::Back::list_refused))]
pub fn worked_list()
    ensures spelled { Spells (byte_at linked_pages) (Segment 4096 32) (Data 0x4000 512 ∷ Bucket 512 ∷ []) }
    ensures not_last { (parts : List Part) → ¬ Spells (byte_at linked_pages) (LastSegment 4096 32) parts }
{}

/// Parts that join, and parts that do not: after a gap, beside a Bucket, past what 32 bits count, and at the end of all
/// addresses.
pub fn worked_joins()
    ensures four { joined (Data 0x4000 4096 ∷ Data 0x5000 4096 ∷ Data 0x6000 4096 ∷ Data 0x7000 4096 ∷ []) ≡ Data 0x4000 16384 ∷ [] }
    ensures gap { joined (Data 0x4000 512 ∷ Data 0x5000 512 ∷ []) ≡ Data 0x4000 512 ∷ Data 0x5000 512 ∷ [] }
    ensures bucket { joined (Data 0x4000 4096 ∷ Bucket 512 ∷ Data 0x5000 4096 ∷ []) ≡ Data 0x4000 4096 ∷ Bucket 512 ∷ Data 0x5000 4096 ∷ [] }
    ensures buckets { joined (Bucket 512 ∷ Bucket 512 ∷ []) ≡ Bucket 512 ∷ Bucket 512 ∷ [] }
    ensures most { joined (Data 0 0xffff_f000 ∷ Data 0xffff_f000 4095 ∷ []) ≡ Data 0 0xffff_ffff ∷ [] }
    ensures too_long { joined (Data 0 0xffff_f000 ∷ Data 0xffff_f000 4096 ∷ Data 0x1_0000_0000 512 ∷ []) ≡ Data 0 0xffff_f000 ∷ Data 0xffff_f000 4608 ∷ [] }
    ensures last_place { joined (Data 0xffff_ffff_ffff_f000 4096 ∷ Data 0 4096 ∷ []) ≡ Data 0xffff_ffff_ffff_f000 4096 ∷ Data 0 4096 ∷ [] }
{}
