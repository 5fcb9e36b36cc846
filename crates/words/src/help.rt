// What the kit says of itself: help, help WORD, why N.
ghost use Rattle.std.specs.Prelude.{◌≤◌, length};

use crate::fields::{arguments, field, read_number};
use crate::pages::{WORDS, reason};
use text::put_word;

// What a line asks of the kit itself: its words, a line of its pages, or what it does not know.
#[derive(Drop)]
pub enum Question {
    Words,
    Line(&'static [u8]),
    Unknown,
}

// Mostly a line asks nothing of the kit itself.
pub fn question_of(line: &[u8]) -> Option<Question> {
    match field(line, 0) {
        b"help" => Some(help(line)),
        b"why" => Some(why(line)),
        _ => None,
    }
}

// help lists the words, and help WORD says what stands after WORD and what it answers.
fn help(line: &[u8]) -> Question {
    match arguments(line) {
        0 => Question::Words,
        1 => said(help_of(field(line, 1))),
        _ => Question::Unknown,
    }
}

// The line of a word.
fn help_of(asked: &[u8]) -> Option<&'static [u8]> {
    let (_, line) = WORDS.iter().find(|(word, _)| *word == asked)?;
    Some(*line)
}

// why N says refusal N in words.
fn why(line: &[u8]) -> Question {
    match arguments(line) {
        1 => said(read_number(field(line, 1)).and_then(reason)),
        _ => Question::Unknown,
    }
}

fn said(line: Option<&'static [u8]>) -> Question {
    match line {
        Some(line) => Question::Line(line),
        None => Question::Unknown,
    }
}

// Puts what is said of a question into `out`, and gives the place after it.
pub fn put_said(out: &mut [u8], question: Question) -> usize
    requires { 1000 ≤ length out.old }
    ensures { result ≤ 1000 }
{
    match question {
        Question::Words => put_words(out),
        Question::Line(line) => put_line(out, 0, line),
        Question::Unknown => put_word(out, 0, b"?"),
    }
}

// The words, with a space between them.
fn put_words(out: &mut [u8]) -> usize
    requires { 1000 ≤ length out.old }
    ensures { result ≤ 1000 }
{
    let mut n = 0;
    for (word, _) in WORDS.iter() {
        if n > 0 {
            n = put_line(out, n, b" ");
        }
        n = put_line(out, n, word);
    }
    n
}

// A line of a page, or a part of one. What is longer than an answer may be would be left out; nothing is.
fn put_line(out: &mut [u8], n: usize, line: &[u8]) -> usize
    requires { (n ≤ 1000) × (1000 ≤ length out.old) }
    ensures { result ≤ 1000 }
{
    if line.len() > 1000 - n {
        return n;
    }
    put_word(out, n, line)
}
