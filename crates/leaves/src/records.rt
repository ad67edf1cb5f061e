// Records written from what phrases hold: spans and headers.
ghost use Rattle.std.specs.Prelude.{[], ◌∷◌, ◌≤◌, ◌<◌, ◌^◌};
ghost use Rattle.grammar.specs.Tags.{INDEX_PART, FIELD};
ghost use Rattle.grammar.specs.Trees.{byte, number, span};
ghost use Rattle.grammar.specs.Image.{entry};
ghost use Rattle.grammar.specs.Writing.{Wrote};

use grammar::writers;
use grammar::writers::Flags;

// A span of the source, as records hold it.
#[derive(Clone, Copy)]
pub struct Span {
    pub start: u16,
    pub end: u16,
}

// A field's record but for its value's visibility: where the name stands, and whether it is computed, adds, is a method of so many parameters.
#[derive(Clone, Copy)]
pub struct Header {
    pub start: u16,
    pub end: u16,
    pub computed: usize,
    pub plus: u8,
    pub method: u8,
    pub params: usize,
}

// An index part. Its flag is a number that a phrase told.
pub fn put_index(out: &mut [u8], w: usize, a: u16, e: u16, first: usize, safe: u8) -> usize
    requires { (w < 2 ^ 40) × (a < 65536) × (e < 65536) × (first ≤ 4) }
    ensures { Wrote out.old w (entry INDEX_PART (span a e ∷ byte first ∷ byte safe ∷ [])) result out.new }
{
    writers::put_index(out, w, a, e, first as u8, safe)
}

// A field.
pub fn put_field(out: &mut [u8], w: usize, h: Header, visibility: u8) -> usize
    requires { (w < 2 ^ 40) × (h.start < 65536) × (h.end < 65536) × (h.computed ≤ 4) × (h.params < 65536) }
    ensures { Wrote out.old w (entry FIELD (span h.start h.end ∷ byte h.computed ∷ byte h.plus ∷ byte h.method ∷ number h.params ∷ byte visibility ∷ [])) result out.new }
{
    let flags = Flags {
        computed: h.computed as u8,
        plus: h.plus,
        method: h.method,
    };
    writers::put_field(out, w, h.start, h.end, flags, h.params, visibility)
}
