// The nearest block (01, What the decoder answers): the row of sixteen path counts, the choices, the walk back.
#![tactic(auto)]

mod memory;
mod search;
mod steps;

pub use search::{fewest, nearest, view};
pub use steps::apart;

// At most 228 pairs, the longest block, are ever decoded.
pub const LONGEST: usize = 228;
