//! What no clause says of the program: scripts, jobs and a session that are cut, and over readers and writers that fail; images that cannot be read; lines
//! that are changed word by word; what a load measures. There are tests alone, so that they do not prove the program once more.
#![tactic(auto)]

#[cfg(test)]
mod door;
#[cfg(test)]
mod expecting;
#[cfg(test)]
mod failing;
#[cfg(test)]
mod images;
#[cfg(test)]
mod load_figures;
#[cfg(test)]
mod runs;
#[cfg(test)]
mod same_faults;
#[cfg(test)]
mod stored;
#[cfg(test)]
mod transcript_texts;
