#![tactic(auto)]
// The reader for C and Rust programs to link: `rt lib` in this folder makes out/libmatigelo.a.
ghost use Rattle.std.specs.Prelude.{length};
ghost use Rattle.grammar.specs.Source.{Reads01};
ghost use Rattle.reader.specs.Five.{five as five01};
ghost use Rattle.night.specs.Night.{Night};
ghost use Rattle.json_import.specs.Json.{ReadsJson};
ghost use Rattle.json_import.specs.Importer.{five as five02};
ghost use Rattle.matigelo.specs.Three.{three as three02, Back02, Mass02};

// Reads a source under a setting into a lent output. The answer's five numbers: number, start, end, detail, length.
#[unsafe(no_mangle)]
pub extern "C" fn matigelo_read(
    setting: u64,
    source: &[u8],
    output: &mut [u8],
    answer: &mut [u64; 5],
)
    ensures { Reads01 setting source.now (length output.old) (five01 answer.new) output.new }
{
    let reading = reader::read(setting, source, output);
    let five = reader::five(reading);
    *answer = five;
}

// Reads a station's text, JSON, into a lent output. The answer's five numbers are those of `matigelo_read`, and the image is that of the same tree.
#[unsafe(no_mangle)]
pub extern "C" fn matigelo_json(text: &[u8], output: &mut [u8], answer: &mut [u64; 5])
    ensures { ReadsJson text.now (length output.old) (five02 answer.new) output.new }
{
    let importing = json_import::read_json(text, output);
    let five = json_import::five(importing);
    *answer = five;
}

// Reads a night's files in one call: sources in one buffer, with the ends of the files; an output, with the ends of their parts; five numbers for
// each in `answers`. The number of the call is handed back.
#[unsafe(no_mangle)]
pub extern "C" fn matigelo_night(
    setting: u64,
    sources: &[u8],
    ends: &[usize],
    output: &mut [u8],
    parts: &[usize],
    answers: &mut [u64],
) -> u64
    ensures { Night setting sources.now ends.now (length output.old) parts.now (length answers.old) result output.new answers.new }
{
    night::read(setting, sources, ends, output, parts, answers)
}

// Reads an image back. For each of its records the array then holds its offset and the number of the first record of its own tree. The
// answer's three numbers: number, offset, count.
#[unsafe(no_mangle)]
pub extern "C" fn matigelo_back(image: &[u8], links: &mut [usize], answer: &mut [u64; 3])
    ensures { Back02 image.now (length links.old) (three02 answer.new) links.new }
{
    let back = images::back(image, links);
    let f = images::numbers(back);
    let three = [f.number, f.offset, f.count];
    *answer = three;
}

// The planner's list: of each object of an image that raises mass without depth, or depth without mass, or of which that is undecided, four numbers
// in the list. The array is for working. The answer's three numbers: number, offset, count.
#[unsafe(no_mangle)]
pub extern "C" fn matigelo_mass(
    image: &[u8],
    links: &mut [usize],
    list: &mut [usize],
    answer: &mut [u64; 3],
)
    ensures { Mass02 image.now (length links.old) (length list.old) (three02 answer.new) links.new list.new }
{
    let listed = mass::list(image, links, list);
    let f = mass::numbers(listed);
    let three = [f.number, f.offset, f.count];
    *answer = three;
}
