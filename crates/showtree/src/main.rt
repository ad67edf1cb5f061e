#![tactic(auto)]
// Shows files to a person: an accepted one as an indented tree, a refused one as a sentence with its place.
// Arguments: files, and the options that desk/src/options.rt tells of.
mod stations; // what is wrong with a station's text

use desk::options::{Fault, Options};
use desk::status::Status;
use desk::{Fields, files, status};
use show::file::File;
use show::page::Page;
use show::places::{Place, byte_at, find_places};
use show::refusals::Refusal;
use std::io;
use std::process::ExitCode;
use system::Source;
use trees::tree::{Entry, Tree};

// One byte more than a source may have, so that a longer one is seen as longer.
const SOURCE: usize = 65_001;

// The largest image known, of `a` and 32,499 times `.b`, has 422,495 bytes. A larger one would be told as such, and not cut.
const OUTPUT: usize = 524_288;

// Two numbers for every three bytes of such an image, and one entry for each record, which has three bytes at least.
const LINKS: usize = 349_524;

const RECORDS: usize = 174_762;

// One for each place of a source.
const PLACES: usize = 65_002;

// What files are read into, and what their trees are shown with.
#[derive(Drop)]
struct Buffers<'a> {
    source: &'a mut [u8],
    output: &'a mut [u8],
    places: &'a mut [Place],
    links: &'a mut [usize],
    stack: &'a mut [Entry],
}

fn tell_refused(page: &mut Page, options: Options, f: Fields, file: File) {
    let refusal = Refusal {
        number: f.number,
        start: f.start,
        end: f.end,
        detail: f.detail,
        length: f.length,
    };
    if options.json {
        stations::tell(page, file, refusal);
    } else {
        refusal.tell(page, file);
    }
}

// A tree, or its records around a place of the source.
fn show_tree(page: &mut Page, name: &[u8], options: Options, tree: Tree, stack: &mut [Entry]) {
    let Some(place) = options.place else {
        tree.show(page, stack, options.depth);
        return;
    };
    let by = Place::new(place.line, place.column);
    if !tree.show_around(page, byte_at(tree.places, by)) {
        trees::around::tell_none(page, name);
    }
}

// An image with the places of its source, under its name where there are several files.
fn show_image(
    page: &mut Page,
    name: &[u8],
    options: Options,
    image: &[u8],
    places: &[Place],
    links: &mut [usize],
    stack: &mut [Entry],
) -> Status {
    let answer = images::back(image, links);
    let Ok(count) = answer else {
        let f = images::numbers(answer);
        trees::unread::tell(page, name, f.number, f.offset);
        return Status::Refused;
    };
    if options.several {
        trees::tree::tell_name(page, name);
    }
    let tree = Tree {
        image,
        links,
        count,
        places,
    };
    show_tree(page, name, options, tree, stack);
    Status::Good
}

fn show_source(
    page: &mut Page,
    file: File,
    options: Options,
    output: &mut [u8],
    places: &mut [Place],
    links: &mut [usize],
    stack: &mut [Entry],
) -> Status {
    let f = desk::answer_in(options.language(), file.text, output);
    if f.number != 0 {
        tell_refused(page, options, f, file);
        return Status::Refused;
    }
    let places = find_places(file.text, places);
    let image = desk::image(f, output);
    show_image(page, file.name, options, image, places, links, stack)
}

impl<'a> Buffers<'a> {
    fn show_source(
        &mut self,
        page: &mut Page,
        source: &mut Source,
        name: &[u8],
        options: Options,
    ) -> io::Result<Status> {
        let text = files::bytes(source, self.source)?;
        Ok(show_source(
            page,
            File { name, text },
            options,
            self.output,
            self.places,
            self.links,
            self.stack,
        ))
    }

    // An image's spans are told as bytes of the source that it came from.
    fn show_image(
        &mut self,
        page: &mut Page,
        source: &mut Source,
        name: &[u8],
        options: Options,
    ) -> io::Result<Status> {
        let image = files::bytes(source, self.output)?;
        if image.len() >= OUTPUT {
            trees::unread::tell(page, name, 24, OUTPUT as u64);
            return Ok(Status::Refused);
        }
        Ok(show_image(page, name, options, image, &[], self.links, self.stack))
    }

    fn tell(
        &mut self,
        rt: &HostRuntime,
        source: &mut Source,
        name: &[u8],
        options: Options,
    ) -> Status {
        let mut page = Page::new(rt, options.colours);
        let shown = if options.image {
            self.show_image(&mut page, source, name, options)
        } else {
            self.show_source(&mut page, source, name, options)
        };
        match shown {
            Ok(status) => {
                page.flush();
                status::if_written(rt, page.fault(), status)
            }
            Err(error) => status::unread(rt, name, error),
        }
    }

    // Each file that the words name, or standard input where none does: the worst of what they end as.
    // Kept in each program: one function in `desk` was tried, which takes this as a closure; the proof didn't close, that the references in the buffers stay.
    fn tell_files(&mut self, rt: &HostRuntime, first: Options) -> Result<Status, Fault> {
        let mut options = first;
        let mut status = Status::Good;
        for i in status::first_argument(rt)..system::arg_count(rt) {
            let mut buffer = system::buffer();
            let word = system::arg(rt, i, &mut buffer);
            options = options.with(i, word)?;
            if options.file == Some(i) {
                status = status.max(self.tell_word(rt, word, options));
            }
        }
        let options = options.ended()?;
        match options.file {
            Some(_) => Ok(status),
            None => Ok(self.tell_word(rt, b"-", options)),
        }
    }

    fn tell_word(&mut self, rt: &HostRuntime, word: &[u8], options: Options) -> Status {
        match files::open(rt, word) {
            Ok(mut file) => self.tell(rt, &mut file, files::name_of(word), options),
            Err(error) => status::unread(rt, word, error),
        }
    }
}

// The buffers come as references to arrays: a proof that lent them as slices where they are made would count their elements one by one.
fn run(
    rt: &HostRuntime,
    source: &mut [u8; SOURCE],
    output: &mut [u8; OUTPUT],
    places: &mut [Place; PLACES],
    links: &mut [usize; LINKS],
    stack: &mut [Entry; RECORDS],
) -> Status {
    let mut buffers = Buffers {
        source,
        output,
        places,
        links,
        stack,
    };
    let several = files::are_several(rt, Options::for_trees(false));
    let told = buffers.tell_files(rt, Options::for_trees(several));
    files::end(rt, "showtree", told)
}

fn main(rt: HostRuntime) -> ExitCode {
    let mut source = [0u8; SOURCE];
    let mut output = [0u8; OUTPUT];
    let mut places = [Place::NONE; PLACES];
    let mut links = [0usize; LINKS];
    let mut stack = [Entry::NONE; RECORDS];
    let status = run(
        &rt,
        &mut source,
        &mut output,
        &mut places,
        &mut links,
        &mut stack,
    );
    status::end(&rt, status)
}
