#![tactic(auto)]
// A night's files in one call: sources that stand in one buffer, read one after the other as `reader::read` reads them.
ghost use Rattle.std.specs.Prelude.{◌≡◌, true, length, replicate};
ghost use Rattle.grammar.specs.Source.{Reads01};
ghost use Rattle.reader.specs.Five.{five as five01};
ghost use Rattle.night.specs.Night.{Cuts, Fit, Each, Night};

// What the call gives: every file has its answer, or the lists do not fit. Kept as numbers: the C interface hands them out.
pub const READ: u64 = 0;

const LISTS: u64 = 20;

// How many numbers a file has in the list of answers.
const FIVE: usize = 5;

// Whether ends cut a buffer of this size: none goes backward, and the last is the buffer's.
fn cuts(ends: &[usize], size: usize) -> bool
    ensures { (result ≡ true → Cuts ends.now size) × (Cuts ends.now size → result ≡ true) }
{
    ends.is_sorted() && ends.last().copied().unwrap_or(0) == size
}

// Whether the lists are for as many files and end with their buffers.
fn fit(ends: &[usize], size: usize, parts: &[usize], room: usize, count: usize) -> bool
    ensures { (result ≡ true → Fit ends.now size parts.now room count) × (Fit ends.now size parts.now room count → result ≡ true) }
{
    parts.len() == ends.len()
        && count % FIVE == 0
        && count / FIVE == ends.len()
        && cuts(ends, size)
        && cuts(parts, room)
}

// A file into its part, and its answer into its place: number by number, since a copy of a slice is a call of `memmove`.
fn read_file(setting: u64, source: &[u8], part: &mut [u8], place: &mut [u64])
    requires { length place.old ≡ 5 }
    ensures { Reads01 setting source.now (length part.old) (five01 place.new) part.new }
{
    let reading = reader::read(setting, source, part);
    for (i, n) in reader::five(reading).iter().enumerate() {
        place[i] = *n;
    }
}

// Each file by itself, into its own part; whatever its answer is, the next one is read.
fn read_files(
    setting: u64,
    sources: &[u8],
    ends: &[usize],
    output: &mut [u8],
    parts: &[usize],
    answers: &mut [u64],
)
    requires { Fit ends.now (length sources.now) parts.now (length output.old) (length answers.old) }
    ensures { Each setting sources.now ends.now parts.now output.new answers.new }
{
    let mut from = 0;
    let mut part = 0;
    for (i, end) in ends.iter().enumerate() {
        let stop = parts[i];
        let place = i * FIVE;
        read_file(
            setting,
            &sources[from..*end],
            &mut output[part..stop],
            &mut answers[place..place + FIVE],
        );
        from = *end;
        part = stop;
    }
}

// A night's files under a setting: `ends` are those of the files in `sources`, `parts` those of their parts of the output, and `answers` has
// five numbers for each.
pub fn read(
    setting: u64,
    sources: &[u8],
    ends: &[usize],
    output: &mut [u8],
    parts: &[usize],
    answers: &mut [u64],
) -> u64
    ensures { Night setting sources.now ends.now (length output.old) parts.now (length answers.old) result output.new answers.new }
{
    if fit(ends, sources.len(), parts, output.len(), answers.len()) {
        read_files(setting, sources, ends, output, parts, answers);
        return READ;
    }
    strings::clear(output);
    answers.fill(0);
    LISTS
}
