// The program's text scanned: its numbers, read in pieces of any length, and the job that they say.
#![tactic(auto)]

mod layout;
mod pieces;
mod scan;

pub use layout::{MOST_NUMBERS, Sizes};
pub use scan::{Scan, Scanner};
