//! A script as pictures: one page of HTML that stands alone.
//!
//! [`draw_steps`] plays a script and writes a page with a picture after each step: the pages of the pool, coloured by who owns them, the rings
//! of the queues, and the outstanding commands with their pages. Keys and a slider go from step to step; where no scripts run in the
//! browser, all pictures are below one another.

mod cells;
mod commands;
mod drawing;
mod escaped;
mod picture;
mod rings;
mod style;

pub use drawing::{MOST_CELLS, MOST_PICTURES, draw_steps};
