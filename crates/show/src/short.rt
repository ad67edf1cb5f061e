// A short text with numbers in it. It is put together from its end on, for the last digit of a number is found first.
ghost use Rattle.std.specs.Prelude.{◌≤◌};

// Two numbers of twenty digits have room, and what stands between and before them.
const ROOM: usize = 48;

#[derive(Drop)]
pub(crate) struct Short {
    text: [u8; ROOM],
    from: usize, // where what is there begins
    ghost fits: { from ≤ 48 },
}

impl Short {
    pub(crate) fn new() -> Self {
        Self {
            text: [0; ROOM],
            from: ROOM,
        }
    }

    pub(crate) fn as_slice(&self) -> &[u8] {
        &self.text[self.from..]
    }

    // A word before what is there, if it has room.
    #[inline(always)]
    pub(crate) fn put(&mut self, word: &[u8]) {
        if word.len() <= self.from {
            let from = self.from - word.len();
            self.text[from..from + word.len()].copy_from_slice(word);
            self.from = from;
        }
    }

    // The digits of a number before what is there.
    pub(crate) fn put_number(&mut self, n: usize) {
        let mut left = n;
        for from in (0..self.from).rev() {
            self.text[from] = b'0' + (left % 10) as u8;
            self.from = from;
            left /= 10;
            if left == 0 {
                return;
            }
        }
    }
}
