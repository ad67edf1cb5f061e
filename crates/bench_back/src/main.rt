#![tactic(auto)]
// What reading an image back costs: the image on standard input is read once, with just as many links as it needs.
use system::{Output, Source};

const IMAGE: usize = 524_288;

const LINKS: usize = 349_524;

fn tell(rt: &HostRuntime, image: &[u8], links: &mut [usize]) {
    let mut out = Output::new(rt);
    let f = images::numbers(images::back(image, links));
    out.print(format_args!("{} {} {}\n", f.number, f.offset, f.count));
}

fn read(rt: &HostRuntime, image: &mut [u8], links: &mut [usize]) {
    let n = Source::standard_input(rt).read_full(image);
    let needed = n / 3 * 2;
    if links.len() < needed {
        return;
    }
    tell(rt, &image[..n], &mut links[..needed]);
}

// The buffers come as references to arrays: a proof that lent them as slices where they are made would count their elements one by one.
fn run(rt: &HostRuntime, image: &mut [u8; IMAGE], links: &mut [usize; LINKS]) {
    read(rt, image, links);
}

fn main(rt: HostRuntime) {
    let mut image = [0u8; IMAGE];
    let mut links = [0usize; LINKS];
    run(&rt, &mut image, &mut links);
}
