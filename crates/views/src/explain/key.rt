//! The words that begin lines.

/// What the first word of a line says that it has.
#[derive(Clone, Copy)]
pub(crate) enum Key {
    /// The size of the pool.
    Pages,
    /// Where the pool is.
    Memory,
    /// The bytes of a page.
    Page,
    /// Bytes starting at an address.
    At,
    /// A page that is out.
    Out,
    /// How many blocks there are.
    Blocks,
    /// How many bytes a block has.
    BlockSize,
    /// The bytes of a block.
    Block,
    /// The namespace.
    Namespace,
    /// The entry.
    Entry,
}

impl Key {
    /// What a word says.
    pub(crate) fn named(word: &[u8]) -> Option<Key> {
        let keys = [
            ("pages", Key::Pages),
            ("memory", Key::Memory),
            ("page", Key::Page),
            ("at", Key::At),
            ("out", Key::Out),
            ("blocks", Key::Blocks),
            ("block_size", Key::BlockSize),
            ("block", Key::Block),
            ("nsid", Key::Namespace),
            ("sqe", Key::Entry),
        ];
        for (name, key) in keys {
            if word == name.as_bytes() {
                return Some(key);
            }
        }
        None
    }
}
