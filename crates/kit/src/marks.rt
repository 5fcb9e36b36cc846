// Blocks that are handed in: the entry that marks one.
use crate::reply::Asked;
use marking::Block;
use text::read_bits;
use words::{Answer, Argument};

// mark CHANNEL R U COUNT: the answer to a line whose received bits and count are read; none where no such channel is marked.
pub fn mark(asked: Asked, received: &[u8], count: u16) -> Option<Answer> {
    let channel = marked(asked.argument(Argument::Word)?)?;
    let mut block = [0u8; 1000];
    let n = read_bits(asked.argument(Argument::Block)?, &mut block);
    let mark = marking::mark(channel, received, &block[..n], u64::from(count));
    Some(Answer::from(mark))
}

// The channel whose word is given, if its blocks are marked.
fn marked(word: &[u8]) -> Option<Block> {
    match word {
        b"speech" => Some(Block::Speech),
        b"control" => Some(Block::Control),
        b"access" => Some(Block::Access),
        b"sch" => Some(Block::Sch),
        _ => None,
    }
}
