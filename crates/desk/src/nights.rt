// A night's files, as the judge asks for them: the line `NUMBER ANSWERS HEXOUTPUT`, both lists whole.
ghost use Rattle.std.specs.Prelude.{◌≡◌, length};

use crate::is_clear;
use crate::text::Text;

// What a call is lent.
#[derive(Drop)]
pub struct Night<'a> {
    pub setting: u64,
    pub sources: &'a [u8],
    pub ends: &'a [usize],
    pub output: &'a mut [u8],
    pub parts: &'a [usize],
    pub answers: &'a mut [u64],
}

// Whether a file's part is zero behind its image, and all of it is where the file is refused.
fn is_part_clear(part: &[u8], answer: &[u64; 5]) -> bool {
    let [number, _, _, _, length] = *answer;
    is_clear(part, if number == 0 { length as usize } else { 0 })
}

fn are_parts_clear(output: &[u8], parts: &[usize], answers: &[u64]) -> bool {
    let (answers, _) = answers.as_chunks::<5>();
    if answers.len() < parts.len() {
        return false;
    }
    let mut from = 0;
    for (end, answer) in parts.iter().zip(answers) {
        let Some(part) = output.get(from..*end) else {
            return false;
        };
        if !is_part_clear(part, answer) {
            return false;
        }
        from = *end;
    }
    true
}

// Whether the zeros are there that the call's number promises.
fn is_clean(number: u64, output: &[u8], parts: &[usize], answers: &[u64]) -> bool {
    if number != 0 {
        return is_clear(output, 0) && is_clear(answers, 0);
    }
    are_parts_clear(output, parts, answers)
}

impl Night<'_> {
    // The answer's line.
    pub fn answer_into(self, text: &mut Text)
        ensures { length text.new.room.now ≡ length text.old.room.now }
    {
        let Night {
            setting,
            sources,
            ends,
            output,
            parts,
            answers,
        } = self;
        // anything but zeros, so that what is left untouched is seen
        output.fill(0xAA);
        answers.fill(0xAAAA_AAAA_AAAA_AAAA);
        let number = night::read(setting, sources, ends, output, parts, answers);
        if !is_clean(number, output, parts, answers) {
            text.put("dirty\n");
            return;
        }
        text.put(format_args!("{number} "));
        text.put_list(answers);
        if output.is_empty() {
            text.put(" -\n");
            return;
        }
        text.put(" ");
        text.put_hex_line(output);
    }
}
