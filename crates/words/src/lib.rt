// The kit's words: what a line asks for, what is said of a word, and an answer in characters. Nothing here calls an entry.
#![tactic(auto)]

mod answer;
mod fields;
mod help;
mod pages;
mod print;
mod verbs;

pub use answer::{Answer, Form};
pub use fields::{field, read_number, rest_of};
pub use help::{Question, put_said, question_of};
pub use print::put_answer;
pub use verbs::{Argument, Asks, Call, Channel, FrameCall, HubCall, Verb};
