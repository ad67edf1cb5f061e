#![tactic(auto)]
// What the planner's list costs: the image on standard input is listed once, with just as many links as it needs, and with room for as many listings as
// an image of its length can have.
use system::{Output, Source};

const IMAGE: usize = 524_288;

const LINKS: usize = 349_524;

// Four numbers for each listing. An object that is listed has 21 bytes at least: five of its own, thirteen of its field, three of what no object inside has.
const LIST: usize = 99_864;

fn tell(rt: &HostRuntime, image: &[u8], links: &mut [usize], list: &mut [usize]) {
    let mut out = Output::new(rt);
    let f = mass::numbers(mass::list(image, links, list));
    out.print(format_args!("{} {} {}\n", f.number, f.offset, f.count));
}

fn read(rt: &HostRuntime, image: &mut [u8], links: &mut [usize], list: &mut [usize]) {
    let n = Source::standard_input(rt).read_full(image);
    let needed = n / 3 * 2;
    let room = n / 21 * 4;
    if links.len() < needed {
        return;
    }
    if list.len() < room {
        return;
    }
    tell(rt, &image[..n], &mut links[..needed], &mut list[..room]);
}

// The buffers come as references to arrays: a proof that lent them as slices where they are made would count their elements one by one.
fn run(
    rt: &HostRuntime,
    image: &mut [u8; IMAGE],
    links: &mut [usize; LINKS],
    list: &mut [usize; LIST],
) {
    read(rt, image, links, list);
}

fn main(rt: HostRuntime) {
    let mut image = [0u8; IMAGE];
    let mut links = [0usize; LINKS];
    let mut list = [0usize; LIST];
    run(&rt, &mut image, &mut links, &mut list);
}
