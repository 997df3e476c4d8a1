//! Worked runs of the definitions, on bytes and parts whose meaning is known. Each function does nothing.

ghost use Rattle.std.specs.Prelude.{◌≡◌, ◌∷◌, [], Some, None};
ghost use Rattle.sgl_descriptor.specs.declared.Descriptor.TheVariants.{DataBlock, BitBucket, Segment, LastSegment};
ghost use Rattle.sgl_descriptor.specs.declared.Part.TheVariants.{Data, Bucket};
ghost use Rattle.sgl_descriptor.specs.declared.Direction.TheVariants.{Destination, Source};
ghost use Rattle.sgl_descriptor.specs.Spelling.{spelling, descriptor_of};
ghost use Rattle.sgl_descriptor.specs.Targets.{targets, Place, Discarded};

/// The bytes of four descriptors, one of each type.
pub fn written_descriptors()
    ensures data_block { spelling (DataBlock 0x4000 512) ≡
        0x00 ∷ 0x40 ∷ 0 ∷ 0 ∷ 0 ∷ 0 ∷ 0 ∷ 0 ∷ 0x00 ∷ 0x02 ∷ 0 ∷ 0 ∷ 0 ∷ 0 ∷ 0 ∷ 0x00 ∷ [] }
    ensures bit_bucket { spelling (BitBucket 512) ≡
        0 ∷ 0 ∷ 0 ∷ 0 ∷ 0 ∷ 0 ∷ 0 ∷ 0 ∷ 0x00 ∷ 0x02 ∷ 0 ∷ 0 ∷ 0 ∷ 0 ∷ 0 ∷ 0x10 ∷ [] }
    ensures segment { spelling (Segment 0x7000 32) ≡
        0x00 ∷ 0x70 ∷ 0 ∷ 0 ∷ 0 ∷ 0 ∷ 0 ∷ 0 ∷ 0x20 ∷ 0 ∷ 0 ∷ 0 ∷ 0 ∷ 0 ∷ 0 ∷ 0x20 ∷ [] }
    ensures last_segment { spelling (LastSegment 0x8000 32) ≡
        0x00 ∷ 0x80 ∷ 0 ∷ 0 ∷ 0 ∷ 0 ∷ 0 ∷ 0 ∷ 0x20 ∷ 0 ∷ 0 ∷ 0 ∷ 0 ∷ 0 ∷ 0 ∷ 0x30 ∷ [] }
{}

/// What the same bytes spell, what a string spells whose reserved bytes are not zero, and two that spell nothing.
#[tactic(auto, unfolding(crate::specs::Spelling::descriptor_of))]
pub fn read_descriptors()
    ensures data_block { descriptor_of
        (0x00 ∷ 0x40 ∷ 0 ∷ 0 ∷ 0 ∷ 0 ∷ 0 ∷ 0 ∷ 0x00 ∷ 0x02 ∷ 0 ∷ 0 ∷ 0 ∷ 0 ∷ 0 ∷ 0x00 ∷ [])
        ≡ Some (DataBlock 0x4000 512) }
    ensures bit_bucket { descriptor_of
        (0 ∷ 0 ∷ 0 ∷ 0 ∷ 0 ∷ 0 ∷ 0 ∷ 0 ∷ 0x00 ∷ 0x02 ∷ 0 ∷ 0 ∷ 0 ∷ 0 ∷ 0 ∷ 0x10 ∷ [])
        ≡ Some (BitBucket 512) }
    ensures segment { descriptor_of
        (0x00 ∷ 0x70 ∷ 0 ∷ 0 ∷ 0 ∷ 0 ∷ 0 ∷ 0 ∷ 0x20 ∷ 0 ∷ 0 ∷ 0 ∷ 0 ∷ 0 ∷ 0 ∷ 0x20 ∷ [])
        ≡ Some (Segment 0x7000 32) }
    ensures last_segment { descriptor_of
        (0x00 ∷ 0x80 ∷ 0 ∷ 0 ∷ 0 ∷ 0 ∷ 0 ∷ 0 ∷ 0x20 ∷ 0 ∷ 0 ∷ 0 ∷ 0 ∷ 0 ∷ 0 ∷ 0x30 ∷ [])
        ≡ Some (LastSegment 0x8000 32) }
    ensures reserved { descriptor_of
        (1 ∷ 2 ∷ 3 ∷ 4 ∷ 5 ∷ 6 ∷ 7 ∷ 8 ∷ 0x00 ∷ 0x02 ∷ 0 ∷ 0 ∷ 9 ∷ 10 ∷ 11 ∷ 0x10 ∷ [])
        ≡ Some (BitBucket 512) }
    ensures type_four { descriptor_of
        (0x00 ∷ 0x40 ∷ 0 ∷ 0 ∷ 0 ∷ 0 ∷ 0 ∷ 0 ∷ 0x00 ∷ 0x02 ∷ 0 ∷ 0 ∷ 0 ∷ 0 ∷ 0 ∷ 0x40 ∷ [])
        ≡ None }
    ensures subtype_one { descriptor_of
        (0x00 ∷ 0x40 ∷ 0 ∷ 0 ∷ 0 ∷ 0 ∷ 0 ∷ 0 ∷ 0x00 ∷ 0x02 ∷ 0 ∷ 0 ∷ 0 ∷ 0 ∷ 0 ∷ 0x01 ∷ [])
        ≡ None }
{}

/// The targets of a few parts, in both directions.
pub fn worked_targets()
    ensures destination { targets Destination (Data 0x4000 3 ∷ Bucket 2 ∷ Data 0x5000 1 ∷ []) ≡
        Place 0x4000 ∷ Place 0x4001 ∷ Place 0x4002 ∷ Discarded ∷ Discarded ∷ Place 0x5000 ∷ [] }
    ensures source { targets Source (Data 0x4000 3 ∷ Bucket 2 ∷ Data 0x5000 1 ∷ []) ≡
        Place 0x4000 ∷ Place 0x4001 ∷ Place 0x4002 ∷ Place 0x5000 ∷ [] }
    ensures empty { targets Destination (Data 0x4000 0 ∷ Bucket 0 ∷ []) ≡ [] }
{}
