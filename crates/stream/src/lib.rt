// The public face for streams: a sender that makes bursts of blocks, a receiver that takes bursts one by one and answers with blocks
// (01, Bursts and streams). A stream goes in by value, and each call hands back the next one.
#![tactic(auto)]

pub mod receiver;
pub mod sender;
