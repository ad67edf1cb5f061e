#![tactic(auto)]
// Replays vectors/blocks.txt, what the judge says of texts that start with `|||`: lines `HEX KIND END HEXTEXT`, the text, the kind and
// the end of its lexeme, and what a good block decodes to.
use blocks::{Block, BlockFault};
use lists::Tally;
use system::{Output, Source};

// Room for the longest text of the list, in bytes.
const ROOM: usize = 256;

fn kind_of(block: &Block) -> u32 {
    match block {
        Ok(_) => 50,
        Err(bad) => match bad.fault {
            BlockFault::UnexpectedEnd => 51,
            BlockFault::MissingNewLine => 52,
            BlockFault::MissingTermination => 53,
            BlockFault::MissingIndent => 54,
        },
    }
}

fn end_of(block: &Block) -> usize {
    match block {
        Ok(end) => *end,
        Err(bad) => bad.end,
    }
}

// Whether the text is the judge's: none but of a good block, and behind a text nothing.
fn text_agrees(source: &[u8], is_good: bool, answer: &[u8]) -> bool {
    let mut wanted = [0u8; ROOM];
    let n = lists::unhex(answer, &mut wanted).len();
    let mut out = [0u8; ROOM];
    let decoded = blocks::block_text(source, 3, &mut out);
    let Ok(length) = decoded else {
        return !is_good;
    };
    is_good && length == n && out == wanted
}

fn line_agrees(line: &[u8]) -> bool {
    let mut bytes = [0u8; ROOM];
    let source = lists::unhex(lists::field(line, 0), &mut bytes);
    let block = blocks::block_at(source, 3);
    let is_good = block.is_ok();
    kind_of(&block) == lists::number(lists::field(line, 1), false)
        && end_of(&block) == lists::number(lists::field(line, 2), false) as usize
        && text_agrees(source, is_good, lists::field(line, 3))
}

fn main(rt: HostRuntime) {
    let mut text = [0u8; 262_144];
    let n = Source::standard_input(&rt).read_full(&mut text);
    let tally = Tally::of_lines(&text[..n], |line| line_agrees(line));
    tally.report(&mut Output::new(&rt), "blocks");
}
