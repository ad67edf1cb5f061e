// What `readtree` prints for each of the files that the arguments name.
use desk::Language;
use system::Source;

fn read_file(rt: &HostRuntime, i: usize) {
    let mut word = system::buffer();
    let name = system::arg(rt, i, &mut word);
    match Source::open(rt, name) {
        Ok(mut file) => {
            desk::tree::readtree(rt, &mut file, name, Language::Jsonnet(0));
        }
        Err(error) => system::fail(rt, name, error),
    }
}

pub fn read_all(rt: &HostRuntime) {
    for i in 1..system::arg_count(rt) {
        read_file(rt, i);
    }
}
