// The row of open roots, found in the lent array: the last root is the last record, and before the first record of its tree stands the next.
ghost use Rattle.std.specs.Prelude.{◌≡◌, ◌+◌, ◌*◌, List, ℕ, ◌<◌, ◌≤◌, length, get_or};
ghost use Rattle.images.specs.Inner.{Chain, Open, Each, OneField, Group as GroupOf, Lands, Walked, Fitted, coded, sort_code};

use crate::asks::{Group, Question};
use crate::sorts::{Sort, is};
use grammar::tags::Tag;

// The records so far: the image, and two numbers for each record, its offset and the first record of its own tree. Where the last roots are sought, the
// answer is the number of records before them.
#[derive(Clone, Copy)]
pub struct Records<'a> {
    pub bytes: &'a [u8],
    pub links: &'a [usize],
}

impl Records<'_> {
    // The tag of a record.
    fn tag(self, n: usize) -> u8
        requires linked { n * 2 + 1 < length self.links.now }
        requires inside { get_or self.links.now (n * 2) 0 < length self.bytes.now }
        ensures { result ≡ get_or self.entry.bytes.now (get_or self.entry.links.now (n * 2) 0) 0 }
    {
        self.bytes[self.links[n * 2]]
    }

    // The first record of a record's tree.
    fn first(self, n: usize) -> usize
        requires { n * 2 + 1 < length self.links.now }
        ensures { result ≡ get_or self.entry.links.now (n * 2 + 1) 0 }
    {
        self.links[n * 2 + 1]
    }

    // The last n roots, each of a sort.
    fn each(self, from: usize, n: usize, sort: Sort) -> Option<usize>
        requires { Open self.bytes.now self.links.now from n }
        ensures { ((tags : List ℕ) → Chain self.entry.bytes.now self.entry.links.now from tags → n ≤ length tags → Walked self.entry.bytes.now self.entry.links.now (Each (sort_code sort)) n tags result) × Lands self.entry.links.now from n result }
    {
        let mut m = from;
        for _left in (0..n).rev() {
            if !is(self.tag(m - 1), sort) {
                return None;
            }
            m = self.first(m - 1);
        }
        Some(m)
    }

    // The last n roots, one a field and the others binds.
    fn one_field(self, from: usize, n: usize) -> Option<usize>
        requires { Open self.bytes.now self.links.now from n }
        ensures { ((tags : List ℕ) → Chain self.entry.bytes.now self.entry.links.now from tags → n ≤ length tags → Walked self.entry.bytes.now self.entry.links.now OneField n tags result) × Lands self.entry.links.now from n result }
    {
        let mut m = from;
        for left in (0..n).rev() {
            let tag = self.tag(m - 1);
            m = self.first(m - 1);
            if tag == Tag::FIELD {
                return self.each(m, left, Sort::Bind);
            }
            if !is(tag, Sort::Bind) {
                return None;
            }
        }
        None
    }

    fn group(self, from: usize, group: Group) -> Option<usize>
        requires { Open self.bytes.now self.links.now from group.count }
        ensures { ((tags : List ℕ) → Chain self.entry.bytes.now self.entry.links.now from tags → group.count ≤ length tags → Walked self.entry.bytes.now self.entry.links.now (GroupOf (sort_code group.sort)) group.count tags result) × Lands self.entry.links.now from group.count result }
    {
        if group.sort == Sort::CompMember {
            return self.one_field(from, group.count);
        }
        self.each(from, group.count, group.sort)
    }

    // The three groups that a record asks for, the last one first.
    pub(crate) fn fit(self, from: usize, asked: Question) -> Option<usize>
        requires { Open self.bytes.now self.links.now from ((coded asked).n3 + (coded asked).n2 + (coded asked).n1) }
        ensures { ((tags : List ℕ) → Chain self.entry.bytes.now self.entry.links.now from tags → (coded asked).n3 + (coded asked).n2 + (coded asked).n1 ≤ length tags → Fitted self.entry.bytes.now self.entry.links.now (coded asked) tags result) × Lands self.entry.links.now from ((coded asked).n3 + ((coded asked).n2 + (coded asked).n1)) result }
    {
        let second = self.group(from, asked.third)?;
        let first = self.group(second, asked.second)?;
        self.group(first, asked.first)
    }
}
