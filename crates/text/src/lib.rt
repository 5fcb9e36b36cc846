// Lines of text, in and out: what the programs share.
#![tactic(auto)]

mod decimal;
mod hex;
mod lines;
mod put;
mod read;

pub use hex::{is_hex, put_octets, read_octets};
pub use lines::{Taken, take_line, write_line};
pub use put::{put_bits, put_byte, put_number, put_refused, put_word};
pub use read::{digit, find, read_bits, without_mark, without_return};
