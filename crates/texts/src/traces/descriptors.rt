//! Scatter-gather list descriptors, by their fields.

ghost use Rattle.std.specs.Prelude.{◌≡◌, ◌++◌, OnOk, string_bytes};
ghost use Rattle.sgl_descriptor.specs.Spelling.{address_of as spec_address_of, length_of as spec_length_of, subtype_of, type_of as spec_type_of};
ghost use Rattle.texts.specs.Fields.{descriptor_text, fields_text, key_of as spec_key_of, keyed_text, extent_text, subtype_name as spec_subtype_name, type_name as spec_type_name, types_text, unknown_text};

use sgl_descriptor::Descriptor;
use std::alloc::AllocError;

/// The type of a Keyed SGL Data Block, whose length has three bytes and whose key four.
pub const KEYED: u8 = 4;

/// The type of a Transport SGL Data Block, which has no address.
pub const TRANSPORT: u8 = 5;

/// The name of a type (NVM Express Base Specification 2.0, "SGL Descriptor Type").
pub fn type_name(kind: u8) -> &'static str
    ensures { result.now ≡ spec_type_name kind }
{
    match kind {
        0 => "Data Block",
        1 => "Bit Bucket",
        2 => "Segment",
        3 => "Last Segment",
        KEYED => "Keyed Data Block",
        TRANSPORT => "Transport Data Block",
        15 => "Vendor Specific",
        _ => "Reserved",
    }
}

/// The name of a subtype (the same specification, "SGL Descriptor Sub Type").
pub fn subtype_name(subtype: u8) -> &'static str
    ensures { result.now ≡ spec_subtype_name subtype }
{
    match subtype {
        0 => "Address",
        1 => "Offset",
        10..=15 => "NVMe Transport Specific",
        _ => "Reserved",
    }
}

/// The type and the subtype of a descriptor: the halves of its last byte.
pub fn type_of(bytes: &[u8; 16]) -> (u8, u8)
    ensures kind { result.0 ≡ spec_type_of bytes.now }
    ensures subtype { result.1 ≡ subtype_of bytes.now }
{
    (bytes[15] / 16, bytes[15] % 16)
}

/// The address of a descriptor, where its type has one.
fn address_of(bytes: &[u8; 16]) -> u64
    ensures { result ≡ spec_address_of bytes.now }
{
    u64::from_le_bytes([
        bytes[0], bytes[1], bytes[2], bytes[3], bytes[4], bytes[5], bytes[6], bytes[7],
    ])
}

/// The length of a descriptor.
fn length_of(bytes: &[u8; 16]) -> u32
    ensures { result ≡ spec_length_of bytes.now }
{
    u32::from_le_bytes([bytes[8], bytes[9], bytes[10], bytes[11]])
}

/// The key of a Keyed SGL Data Block.
fn key_of(bytes: &[u8; 16]) -> u32
    ensures { result ≡ spec_key_of bytes.now }
{
    u32::from_le_bytes([bytes[11], bytes[12], bytes[13], bytes[14]])
}

/// Puts an address and a length.
#[tactic(auto, unfolding(crate::specs::Fields::extent_text))]
fn put_extent(out: &mut String, addr: u64, len: u32) -> Result<(), AllocError>
    ensures { OnOk result (string_bytes out.new ≡ string_bytes out.old ++ extent_text addr len) }
{
    write!(out, ", address {addr:X}h, length {len}")
}

/// Puts a kind of descriptor, an address and a length.
fn put_at(out: &mut String, name: &str, addr: u64, len: u32) -> Result<(), AllocError>
    ensures { OnOk result (string_bytes out.new ≡ string_bytes out.old ++ (name.now ++ extent_text addr len)) }
{
    out.push_str(name)?;
    put_extent(out, addr, len)
}

/// Puts a type and a subtype, by number and name.
#[tactic(auto, unfolding(crate::specs::Fields::types_text))]
fn put_types(out: &mut String, kind: u8, subtype: u8) -> Result<(), AllocError>
    ensures { OnOk result (string_bytes out.new ≡ string_bytes out.old ++ types_text kind subtype) }
{
    let (name, sub_name) = (type_name(kind), subtype_name(subtype));
    write!(
        out,
        "type {kind:X}h {name}, subtype {subtype:X}h {sub_name}"
    )
}

/// Puts the fields of a Keyed SGL Data Block.
#[tactic(auto, unfolding(crate::specs::Fields::keyed_text))]
fn put_keyed(out: &mut String, bytes: &[u8; 16]) -> Result<(), AllocError>
    ensures { OnOk result (string_bytes out.new ≡ string_bytes out.old ++ keyed_text bytes.now) }
{
    put_extent(out, address_of(bytes), length_of(bytes) % 0x100_0000)?;
    let key = key_of(bytes);
    write!(out, ", key {key:X}h")
}

/// Puts the fields that a type of descriptors has.
#[tactic(auto, unfolding(crate::specs::Fields::fields_text))]
fn put_fields(out: &mut String, kind: u8, bytes: &[u8; 16]) -> Result<(), AllocError>
    ensures { OnOk result (string_bytes out.new ≡ string_bytes out.old ++ fields_text kind bytes.now) }
{
    let len = length_of(bytes);
    match kind {
        KEYED => put_keyed(out, bytes),
        TRANSPORT => write!(out, ", length {len}"),
        _ => put_extent(out, address_of(bytes), len),
    }
}

/// Puts a descriptor of a type or a subtype that this profile does not have, by the fields of its type.
fn put_unknown(out: &mut String, bytes: &[u8; 16]) -> Result<(), AllocError>
    ensures { OnOk result (string_bytes out.new ≡ string_bytes out.old ++ unknown_text bytes.now) }
{
    let (kind, subtype) = type_of(bytes);
    put_types(out, kind, subtype)?;
    put_fields(out, kind, bytes)
}

/// Puts a descriptor, by its fields.
///
/// # Errors
///
/// Where memory is refused.
#[tactic(auto, unfolding(crate::specs::Fields::descriptor_text))]
pub fn put_descriptor(out: &mut String, bytes: &[u8; 16]) -> Result<(), AllocError>
    ensures { OnOk result (string_bytes out.new ≡ string_bytes out.old ++ descriptor_text bytes.now) }
{
    match Descriptor::read(bytes) {
        Ok(Descriptor::DataBlock { addr, len }) => put_at(out, "Data Block", addr, len),
        Ok(Descriptor::BitBucket { len }) => write!(out, "Bit Bucket, length {len}"),
        Ok(Descriptor::Segment { addr, len }) => put_at(out, "Segment", addr, len),
        Ok(Descriptor::LastSegment { addr, len }) => put_at(out, "Last Segment", addr, len),
        Err(_) => put_unknown(out, bytes),
    }
}
