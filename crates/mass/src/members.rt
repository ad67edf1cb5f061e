// What the members of an object raise, found by the links: an object's last child is the record before it, and before the first record of that
// child's tree stands the next.
ghost use Rattle.std.specs.Prelude.{◌≡◌, true, ◌↔◌, IsTrue, ◌+◌, ◌<◌, ◌≤◌, length};
ghost use Rattle.std.proofs.Math.Seq.{slice};
ghost use Rattle.mass.specs.Mass.{Braces};
ghost use Rattle.mass.specs.Inner.{two_at, Calls, SomeTrees, SomeRoot, AddsAs, plus as plus_one, RaisedBy, kind_code, ShownOf};

use grammar::tags::Tag;
use images::number;

// What a member adds.
#[derive(Clone, Copy, Debug, PartialEq, Eq)]
pub enum Added {
    Mass,
    Depth,
    Computed,
}

// What all members of an object add: whether any is computed, and the first field of each name by its offset. No field stands at 0, since its name stands before
// it.
#[derive(Clone, Copy)]
pub struct Own {
    pub undecided: bool,
    pub mass: Option<usize>,
    pub depth: Option<usize>,
}

// Why an object is listed, by the list's numbers: 0 to 2.
#[derive(Clone, Copy, Debug, PartialEq, Eq)]
pub enum Kind {
    Undecided,
    Mass, // mass alone is raised
    Depth, // depth alone
}

// What is listed of an object, and where the field's name starts and ends.
#[derive(Clone, Copy)]
pub struct Listed {
    pub kind: Kind,
    pub start: usize,
    pub end: usize,
}

impl Kind {
    // Its number in the list.
    pub(crate) fn number(self) -> usize
        ensures { result ≡ kind_code self }
    {
        self as usize
    }
}

impl Own {
    // With what one member more adds, which stands before the others.
    fn plus(self, added: Option<Added>, at: usize) -> Own
        ensures { result ≡ plus_one self added at }
    {
        match added {
            None => self,
            Some(Added::Mass) => Own {
                mass: Some(at),
                ..self
            },
            Some(Added::Depth) => Own {
                depth: Some(at),
                ..self
            },
            Some(Added::Computed) => Own {
                undecided: true,
                ..self
            },
        }
    }
}

// Which of the two names the string is whose record stands there.
fn called(bytes: &[u8], at: usize) -> Option<Added>
    requires { at + 3 + two_at bytes.now (at + 1) ≤ length bytes.now }
    ensures { Calls (slice (at + 3) (at + 3 + two_at bytes.now (at + 1)) bytes.now) result }
{
    let size = number(bytes, at + 1);
    let from = at + 3;
    let end = from + size;
    if check::same(&bytes[from..end], b"mass") {
        return Some(Added::Mass);
    }
    if check::same(&bytes[from..end], b"depth") {
        return Some(Added::Depth);
    }
    None
}

// What record n adds, if it is a member. A fixed field's name is the first record of its tree.
fn adds(bytes: &[u8], links: &[usize], n: usize) -> Option<Added>
    requires { SomeRoot bytes.now links.now n }
    ensures { AddsAs bytes.now links.now n result }
{
    let at = links[n * 2];
    if bytes[at] != Tag::FIELD {
        return None;
    }
    if bytes[at + 8] != 1 {
        return None;
    }
    if bytes[at + 7] == 1 {
        return Some(Added::Computed);
    }
    let first = links[n * 2 + 1];
    called(bytes, links[first * 2])
}

// What the records from `first` up to n raise, the trees' roots gone through from the last to the first.
fn raised(bytes: &[u8], links: &[usize], first: usize, n: usize) -> Own
    requires { SomeTrees bytes.now links.now first n }
    ensures { RaisedBy bytes.now links.now first n result }
{
    let mut own = Own {
        undecided: false,
        mass: None,
        depth: None,
    };
    let mut m = n;
    while m > first {
        let last = m - 1;
        let at = links[last * 2];
        own = own.plus(adds(bytes, links, last), at);
        m = links[last * 2 + 1];
    }
    own
}

fn is_object(tag: u8) -> bool
    ensures { IsTrue result ↔ Braces tag }
{
    matches!(tag, Tag::MEMBERS | Tag::OBJECT_COMP)
}

// The listing of a field that stands there alone.
fn alone(bytes: &[u8], at: usize, kind: Kind) -> Listed
    requires { at + 6 < length bytes.now }
    ensures { result ≡ record { kind = kind; start = two_at bytes.now (at + 3); end = two_at bytes.now (at + 5) } }
{
    let start = number(bytes, at + 3);
    let end = number(bytes, at + 5);
    Listed { kind, start, end }
}

// What is listed of record n.
pub(crate) fn listing(bytes: &[u8], links: &[usize], n: usize) -> Option<Listed>
    requires { SomeRoot bytes.now links.now n }
    ensures { ShownOf bytes.now links.now n result }
{
    let at = links[n * 2];
    if !is_object(bytes[at]) {
        return None;
    }
    let own = raised(bytes, links, links[n * 2 + 1], n);
    if own.undecided {
        return Some(Listed {
            kind: Kind::Undecided,
            start: 0,
            end: 0,
        });
    }
    match (own.mass, own.depth) {
        (Some(mass), None) => Some(alone(bytes, mass, Kind::Mass)),
        (None, Some(depth)) => Some(alone(bytes, depth, Kind::Depth)),
        (Some(_), Some(_)) => None,
        (None, None) => None,
    }
}
