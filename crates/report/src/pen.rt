ghost use Rattle.std.specs.Prelude.{◌≡◌, ◌+◌, ◌≤◌, length, decimal};
ghost use Rattle.report.specs.Pens.{Room, Wrote};

use itoa::Buffer;

// Writes into a lent buffer from its front, one part behind the other. Not by `write!`, which promises its text only where it does
// not fail, and never that it does not: a report always has its room. No heap: the buffer is the caller's, and the place stands beside it.
#[derive(Drop)]
pub struct Pen<'a> {
    out: &'a mut [u8],
    at: usize,
}

impl<'a> Pen<'a> {
    pub fn new(out: &'a mut [u8]) -> Pen<'a>
        ensures lent { result.out.ghost_name ≡ out.entry.ghost_name }
        ensures unwritten { result.out.now ≡ out.old }
        ensures front { result.at ≡ 0 }
    {
        Pen { out, at: 0 }
    }

    // How many bytes were written.
    pub fn written(&self) -> usize
        ensures { result ≡ self.now.at }
    {
        self.at
    }

    pub fn text(&mut self, text: &str)
        requires { Room self.old (length text.now) }
        ensures { Wrote self.old text.now self.new }
    {
        let end = self.at + text.len();
        self.out[self.at..end].copy_from_slice(text.as_bytes());
        self.at = end;
    }

    pub fn decimal(&mut self, n: u64)
        requires { Room self.old (length (decimal n)) }
        ensures { Wrote self.old (decimal n) self.new }
    {
        let mut digits = Buffer::new();
        self.text(digits.format(n));
    }
}
