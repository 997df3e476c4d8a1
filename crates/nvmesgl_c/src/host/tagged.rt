//! A host, and the tags of its commands.

ghost use Rattle.std.specs.Prelude.{◌≡◌, false, true};
ghost use Rattle.slot_table.specs.Rows.{without};
ghost use Rattle.nvmesgl_c.specs.HostTags as host_tags;
ghost use Rattle.nvmesgl_c.specs.HostTags.{IsTagged};

use host_bench::HostBench;
use slot_table::LinkedTable;

/// A host, with a tag for each identifier that was given one.
#[derive(Drop)]
pub struct Tagged {
    /// The host.
    pub bench: HostBench,
    /// The tags, each in the place of its queue and its identifier.
    pub tags: LinkedTable<u64>,
}

/// The tag of an identifier: 0 where none was given.
pub(crate) fn tag_of(tags: &LinkedTable<u64>, q: u16, cid: u16) -> u64
    ensures { result ≡ host_tags.tag_at tags.now q cid }
{
    match tags.get(q, cid) {
        Some(tag) => *tag,
        None => 0,
    }
}

/// Gives an identifier a tag where it has one: whether it has.
fn change(tags: &mut LinkedTable<u64>, q: u16, cid: u16, tag: u64) -> bool
    ensures changed { result ≡ true → IsTagged tags.old q cid tag tags.new }
    ensures none { result ≡ false → host_tags.HasNone tags.old q cid }
    ensures same { result ≡ false → tags.new ≡ tags.old }
{
    match tags.get_mut(q, cid) {
        Some(old) => {
            *old = tag;
            true
        }
        None => false,
    }
}

/// Gives an identifier that has none a tag: whether memory was there for it.
fn add(tags: &mut LinkedTable<u64>, q: u16, cid: u16, tag: u64) -> bool
    requires { host_tags.HasNone tags.old q cid }
    ensures added { result ≡ true → IsTagged tags.old q cid tag tags.new }
    ensures same { result ≡ false → tags.new ≡ tags.old }
{
    match tags.put(q, cid, tag) {
        Ok(()) => true,
        Err(_) => false,
    }
}

/// Gives an identifier a tag: whether memory was there for it. If not, nothing changed; the tag 0 needs none.
pub(crate) fn give(tags: &mut LinkedTable<u64>, q: u16, cid: u16, tag: u64) -> bool
    ensures given { result ≡ true → IsTagged tags.old q cid tag tags.new }
    ensures same { result ≡ false → tags.new ≡ tags.old }
    ensures needs { result ≡ false → tag ≡ 0 → ⊥ }
{
    if change(tags, q, cid, tag) {
        return true;
    }
    if tag == 0 {
        return true;
    }
    add(tags, q, cid, tag)
}
