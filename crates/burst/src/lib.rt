// The bursts of a stream: how they are numbered, the ring in which they are held, and a block out of it.
#![tactic(auto)]

mod held;
mod numbers;
mod ring;

pub use held::{gather_block, gather_flags};
pub use numbers::{BlockNumber, BurstNumber, block_ended, first_burst, next_block, next_burst};
pub use ring::hold;
