// The records of an image that was read back, counted from 0: where each starts, and the first record of its tree. A record's children, the last
// first, are the record before it, then the one before the first of that child's tree, and so on.
use show::places::Place;
use show::records;

// An image that was read back, and what is known of it.
#[derive(Clone, Copy)]
pub struct Tree<'a> {
    pub image: &'a [u8],
    pub links: &'a [usize], // for each record where it starts, and the first of its tree
    pub count: usize, // how many records there are
    pub places: &'a [Place], // those of the bytes of its source
}

// One of its records.
#[derive(Clone, Copy)]
pub struct Record<'a> {
    pub tree: &'a Tree<'a>,
    pub index: usize,
    pub tag: u8,
    pub payload: &'a [u8],
}

impl<'a> Tree<'a> {
    // Where a record starts.
    fn start(&self, r: usize) -> usize {
        if self.links.len() / 2 <= r {
            return 0;
        }
        self.links[r * 2]
    }

    // The first record of its tree.
    pub fn first(&self, r: usize) -> usize {
        if self.links.len() / 2 <= r {
            return 0;
        }
        self.links[r * 2 + 1]
    }

    pub fn tag(&self, r: usize) -> u8 {
        records::byte(self.image, self.start(r))
    }

    pub fn payload(&self, r: usize) -> &'a [u8] {
        records::payload(self.image, self.start(r))
    }

    // A record's first child; itself where it has none.
    pub fn first_child(&self, r: usize) -> usize {
        let first = self.first(r);
        let mut c = r;
        while first < c {
            let child = c - 1;
            let next = self.first(child);
            if next <= first {
                return child;
            }
            if c <= next {
                return r;
            }
            c = next;
        }
        r
    }
}

impl<'a> Record<'a> {
    // The first record of its tree.
    pub fn first(&self) -> usize {
        let tree = self.tree;
        tree.first(self.index)
    }

    // Its first child; itself where it has none.
    pub fn first_child(&self) -> Record<'a> {
        let tree = self.tree;
        tree.record(tree.first_child(self.index))
    }

    // A byte of its payload.
    pub fn byte(&self, at: usize) -> u8 {
        records::byte(self.payload, at)
    }

    // Whether a flag of its payload is set.
    pub fn flag(&self, at: usize) -> bool {
        self.byte(at) != 0
    }

    // A number of its payload.
    pub fn number(&self, at: usize) -> usize {
        records::number(self.payload, at)
    }

    // What stands in its payload from a place on.
    pub fn rest(&self, from: usize) -> &'a [u8] {
        records::rest(self.payload, from)
    }
}
