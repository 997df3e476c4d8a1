//! Books, also under a lock, and runs of threads: what no clause says of them, such as who is woken and what a schedule leaves, and what benches,
//! worlds and lists of steps do where memory is refused. It has tests alone, so that they do not prove the book once more.
#![tactic(auto)]

#[cfg(test)]
mod crowd;
#[cfg(test)]
mod fixed_heap;
#[cfg(test)]
mod heap;
#[cfg(test)]
mod host_sleepers;
#[cfg(test)]
mod jobs;
#[cfg(test)]
mod lists;
#[cfg(test)]
mod looks;
#[cfg(test)]
mod openings;
#[cfg(test)]
mod part;
#[cfg(test)]
mod serving;
#[cfg(test)]
mod shared_hosts;
#[cfg(test)]
mod shared_sleepers;
#[cfg(test)]
mod shared_worlds;
#[cfg(test)]
mod tables;
#[cfg(test)]
mod wakes;
