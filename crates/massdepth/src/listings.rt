// The planner's list, as a person reads it: where mass is raised without depth, or depth without mass, or where that is undecided.
use crate::objects::Name;
use show::file::File;
use show::page::Page;
use show::places::Place;

// What is listed, by document 02's number.
fn what(kind: usize) -> &'static [u8] {
    match kind {
        1 => b": mass is raised here, depth is not.\n",
        2 => b": depth is raised here, mass is not.\n",
        _ => b": undecided: a computed field is added here.\n",
    }
}

// `NAME:LINE:COLUMN: WHAT`, and the line with carets under the field's name.
pub fn tell(page: &mut Page, file: File, places: &[Place], kind: usize, name: Name) {
    page.say_characters(file.name);
    page.say(b":");
    page.say_found(places, name.start);
    page.say(what(kind));
    page.say_line(file.text, name.start, name.end);
}

// Of a file in which there is none.
pub fn tell_none(page: &mut Page, name: &[u8]) {
    page.say_characters(name);
    page.say(b": nothing to list\n");
}
