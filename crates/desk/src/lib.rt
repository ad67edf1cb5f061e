#![tactic(auto)]
// What the desk's programs share.
mod backs; // an image read back, as the judge asks for it
pub mod files; // the files that a program is started with
pub mod list; // a list in a lent buffer
mod masses; // the planner's list, as the judge asks for it
mod nights; // a night's files, as the judge asks for them
pub mod options; // the words that a program is started with
pub mod questions; // the judge's lines: a question, and the answer to it
pub mod status; // how a program ends
pub mod text; // text put together in a lent buffer
pub mod tree; // what `readtree` does

pub use reader::Fields;

// What a file is written in.
#[derive(Clone, Copy)]
pub enum Language {
    Jsonnet(u64), // under a setting
    Json,
}

// The whole answer to a source, in document 01's numbers.
pub fn answer(setting: u64, source: &[u8], output: &mut [u8]) -> Fields {
    let reading = reader::read(setting, source, output);
    reader::numbers(reading)
}

// The whole answer to a station's text, in document 02's numbers.
pub fn answer_json(text: &[u8], output: &mut [u8]) -> Fields {
    let importing = json_import::read_json(text, output);
    let f = json_import::numbers(importing);
    Fields {
        number: f.number,
        start: f.start,
        end: f.end,
        detail: f.detail,
        length: f.length,
    }
}

// The whole answer to a file in either language.
pub fn answer_in(language: Language, source: &[u8], output: &mut [u8]) -> Fields {
    match language {
        Language::Jsonnet(setting) => answer(setting, source, output),
        Language::Json => answer_json(source, output),
    }
}

// The image that an answer has left in the output: nothing after a refusal.
pub fn image(f: Fields, output: &[u8]) -> &[u8] {
    let length = if f.number == 0 { f.length as usize } else { 0 };
    &output[..length.min(output.len())]
}

// Whether all from a place on is zero.
pub fn is_clear<T: Copy + Default + PartialEq>(list: &[T], from: usize) -> bool {
    let rest = list.get(from..).unwrap_or(&[]);
    rest.iter().all(|x| *x == T::default())
}
