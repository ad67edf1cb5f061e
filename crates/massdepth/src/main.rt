#![tactic(auto)]
// The planner's list of a file: each object that raises mass without depth, or depth without mass, or of which that is undecided, at the field that
// does so. Arguments: files, and `-s SETTING` for those after it. Ends with 0 if nothing is listed, 1 if something is, 2 for a file that is refused
// or cannot be read.
mod listings; // the list as a person reads it
mod objects; // the computed field that leaves an object undecided

use crate::objects::{Name, computed_name, record_at};
use desk::options::{Fault, Options};
use desk::status::Status;
use desk::{Fields, files, status};
use show::file::File;
use show::page::Page;
use show::places::{Place, find_places};
use show::refusals::Refusal;
use std::io;
use std::process::ExitCode;
use system::Source;

// One byte more than a source may have, so that a longer one is seen as longer.
const SOURCE: usize = 65_001;

// The largest image known, of `a` and 32,499 times `.b`, has 422,495 bytes. A larger one would be told as such, and not cut.
const OUTPUT: usize = 524_288;

// Two numbers for every three bytes of such an image.
const LINKS: usize = 349_524;

// One for each place of a source.
const PLACES: usize = 65_002;

// Four numbers for each listing. An object that is listed has seven bytes of source at least, as `{[a]+:` and `}`.
const LIST: usize = 40_000;

// Nothing was listed, something was, or the file has no list: the worse the higher.
const NOTHING: Status = Status::Good;

const LISTED: Status = Status::Refused;

// What files are read into, and what they are listed with.
#[derive(Drop)]
struct Buffers<'a> {
    source: &'a mut [u8],
    output: &'a mut [u8],
    places: &'a mut [Place],
    links: &'a mut [usize],
    list: &'a mut [usize],
}

fn complain(rt: &HostRuntime, name: &[u8], fault: &[u8]) -> Status {
    system::complain(rt, b"massdepth: ");
    system::complain(rt, name);
    system::complain(rt, fault);
    Status::Failed
}

// The listings in their order, which is that of the records. An undecided object is shown at the first computed field that is added.
fn tell_listings(
    page: &mut Page,
    file: File,
    image: &[u8],
    places: &[Place],
    links: &[usize],
    list: &[usize],
    count: usize,
) {
    let (listings, _) = list.as_chunks::<4>();
    let mut r = 0;
    for [offset, kind, start, end] in listings.iter().take(count) {
        r = record_at(links, r, *offset);
        let name = match *kind {
            0 => computed_name(image, links, r).unwrap_or(Name { start: 0, end: 0 }),
            _ => Name {
                start: *start,
                end: *end,
            },
        };
        listings::tell(page, file, places, *kind, name);
    }
}

// `list` leaves the links zero, so that they are asked for again where there is something to show.
fn list_image(
    rt: &HostRuntime,
    page: &mut Page,
    file: File,
    image: &[u8],
    places: &mut [Place],
    links: &mut [usize],
    list: &mut [usize],
) -> Status {
    let answer = mass::list(image, links, list);
    let Ok(count) = answer else {
        return complain(rt, file.name, b" has too many objects to list\n");
    };
    if count == 0 {
        listings::tell_none(page, file.name);
        return NOTHING;
    }
    let _ = images::back(image, links);
    let places = find_places(file.text, places);
    tell_listings(page, file, image, places, links, list, count);
    LISTED
}

fn tell_refused(page: &mut Page, f: Fields, file: File) {
    let refusal = Refusal {
        number: f.number,
        start: f.start,
        end: f.end,
        detail: f.detail,
        length: f.length,
    };
    refusal.tell(page, file);
}

fn list_source(
    rt: &HostRuntime,
    page: &mut Page,
    file: File,
    setting: u64,
    output: &mut [u8],
    places: &mut [Place],
    links: &mut [usize],
    list: &mut [usize],
) -> Status {
    let f = desk::answer(setting, file.text, output);
    if f.number != 0 {
        tell_refused(page, f, file);
        return Status::Failed;
    }
    let image = desk::image(f, output);
    list_image(rt, page, file, image, places, links, list)
}

impl<'a> Buffers<'a> {
    fn list(
        &mut self,
        rt: &HostRuntime,
        page: &mut Page,
        source: &mut Source,
        name: &[u8],
        setting: u64,
    ) -> io::Result<Status> {
        let text = files::bytes(source, self.source)?;
        Ok(list_source(
            rt,
            page,
            File { name, text },
            setting,
            self.output,
            self.places,
            self.links,
            self.list,
        ))
    }

    fn tell(
        &mut self,
        rt: &HostRuntime,
        source: &mut Source,
        name: &[u8],
        options: Options,
    ) -> Status {
        let mut page = Page::new(rt, false);
        match self.list(rt, &mut page, source, name, options.setting) {
            Ok(status) => {
                page.flush();
                status::if_written(rt, page.fault(), status)
            }
            Err(error) => status::unread(rt, name, error),
        }
    }

    // Each file that the words name, or standard input where none does: the worst of what they end as.
    // Kept in each program: one function in `desk` was tried, which takes this as a closure; the proof didn't close, that the references in the buffers stay.
    fn tell_files(&mut self, rt: &HostRuntime, first: Options) -> Result<Status, Fault> {
        let mut options = first;
        let mut status = Status::Good;
        for i in status::first_argument(rt)..system::arg_count(rt) {
            let mut buffer = system::buffer();
            let word = system::arg(rt, i, &mut buffer);
            options = options.with(i, word)?;
            if options.file == Some(i) {
                status = status.max(self.tell_word(rt, word, options));
            }
        }
        let options = options.ended()?;
        match options.file {
            Some(_) => Ok(status),
            None => Ok(self.tell_word(rt, b"-", options)),
        }
    }

    fn tell_word(&mut self, rt: &HostRuntime, word: &[u8], options: Options) -> Status {
        match files::open(rt, word) {
            Ok(mut file) => self.tell(rt, &mut file, files::name_of(word), options),
            Err(error) => status::unread(rt, word, error),
        }
    }
}

// The buffers come as references to arrays: a proof that lent them as slices where they are made would count their elements one by one.
fn run(
    rt: &HostRuntime,
    source: &mut [u8; SOURCE],
    output: &mut [u8; OUTPUT],
    places: &mut [Place; PLACES],
    links: &mut [usize; LINKS],
    list: &mut [usize; LIST],
) -> Status {
    let mut buffers = Buffers {
        source,
        output,
        places,
        links,
        list,
    };
    let told = buffers.tell_files(rt, Options::new(false));
    files::end(rt, "massdepth", told)
}

fn main(rt: HostRuntime) -> ExitCode {
    let mut source = [0u8; SOURCE];
    let mut output = [0u8; OUTPUT];
    let mut places = [Place::NONE; PLACES];
    let mut links = [0usize; LINKS];
    let mut list = [0usize; LIST];
    let status = run(
        &rt,
        &mut source,
        &mut output,
        &mut places,
        &mut links,
        &mut list,
    );
    status::end(&rt, status)
}
