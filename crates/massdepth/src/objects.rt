// The computed field that leaves an object undecided. The list tells of such an object without a place, so it is looked for by the links.
use grammar::tags::Tag;
use show::records::{number, rest};

// Where a field's name stands in the source.
#[derive(Clone, Copy)]
pub struct Name {
    pub start: usize,
    pub end: usize,
}

// The record at an offset, sought from a record on.
pub fn record_at(links: &[usize], from: usize, offset: usize) -> usize {
    let (records, _) = links.as_chunks::<2>();
    let later = records.get(from..).unwrap_or(&[]);
    match later.iter().position(|[start, _]| *start == offset) {
        Some(n) => from.saturating_add(n),
        None => records.len(),
    }
}

// Whether the record at an offset is a field that is computed and marked plus.
fn is_computed_plus(image: &[u8], at: usize) -> bool {
    matches!(rest(image, at), [tag, _, _, _, _, _, _, 1, 1, ..] if *tag == Tag::FIELD)
}

// Where the first such field among the children of record r stands, if there is one; they are found last first.
fn computed_at(image: &[u8], links: &[usize], r: usize) -> Option<usize> {
    let (records, _) = links.as_chunks::<2>();
    let [_, first] = records.get(r)?;
    let mut found = None;
    let mut end = r;
    while *first < end {
        let Some([at, next]) = records.get(end - 1) else {
            return found;
        };
        if is_computed_plus(image, *at) {
            found = Some(*at);
        }
        if end <= *next {
            return found;
        }
        end = *next;
    }
    found
}

// The place of its name.
pub fn computed_name(image: &[u8], links: &[usize], r: usize) -> Option<Name> {
    let field = rest(image, computed_at(image, links, r)?);
    Some(Name {
        start: number(field, 3),
        end: number(field, 5),
    })
}
