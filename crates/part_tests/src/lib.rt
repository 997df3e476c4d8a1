//! What no clause says of the parts: the memory that they are refused, texts, and an example of each side alone.
//!
//! The controller stands over a guest's memory, fed with an entry by hand, as an emulator uses it (`first_read`), and the host over pages in which a device
//! writes (`identify`). There are tests alone, so that they do not prove the parts once more.
#![tactic(auto)]

#[cfg(test)]
mod allocator;
#[cfg(test)]
mod calls;
#[cfg(test)]
mod expecting;
#[cfg(test)]
mod first_read;
#[cfg(test)]
mod growths;
#[cfg(test)]
mod guest_memory;
#[cfg(test)]
mod identify;
#[cfg(test)]
mod lent_blocks;
#[cfg(test)]
mod texts;
