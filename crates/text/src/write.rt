// A writer of bytes and decimals into a lent output: what has room goes straight into its place.
ghost use Rattle.std.specs.Prelude.{◌≡◌, [], ◌∷◌, ◌+◌, ◌≤◌, leb, length, Some};
ghost use Rattle.text.specs.Numbers.{decimal, signed_decimal, Width};
ghost use Rattle.text.specs.Writing.{put, written, Reserves, Writes, Chain};

// Whether so many bytes from `at` on end within the length.
fn room(len: usize, at: usize, size: usize) -> bool
    ensures { result ≡ leb (at + size) len }
{
    at <= len && size <= len - at
}

// Bytes from a place on that has room for them. Not by `copy_from_slice`, for which the library would need memmove: C is told
// that it needs memcpy and memset alone.
fn copy_to(output: &mut [u8], at: usize, bytes: &[u8])
    requires { at + length bytes.now ≤ length output.old }
    ensures { output.new ≡ put at bytes.now output.old }
{
    for i in 0..bytes.len() {
        output[at + i] = bytes[i];
    }
}

// An output, and the place past what is written there; it has none once something had no room, and nothing is written then.
#[derive(Drop)]
pub struct Writer<'a> {
    pub output: &'a mut [u8],
    pub end: Option<usize>,
}

impl<'a> Writer<'a> {
    // A writer at the output's front.
    pub fn new(output: &'a mut [u8]) -> Writer<'a>
        ensures same { result.output.ghost_name ≡ output.entry.ghost_name }
        ensures bytes { result.output.now ≡ output.old }
        ensures front { result.end ≡ Some 0 }
    {
        Writer {
            output,
            end: Some(0),
        }
    }

    // What is written; nothing where something had no room.
    pub fn written(&self) -> &[u8]
        ensures { result.now ≡ written self.now }
    {
        let Some(end) = self.end else {
            return &[];
        };
        if self.output.len() < end {
            return &[];
        }
        &self.output[..end]
    }

    // The place of so many bytes, if they have room.
    fn reserve(&mut self, size: usize) -> Option<usize>
        ensures same { self.new.output.ghost_name ≡ self.old.output.ghost_name }
        ensures reserves { Reserves size self.old self.new result }
    {
        let Some(at) = self.end else {
            return None;
        };
        if !room(self.output.len(), at, size) {
            self.end = None;
            return None;
        }
        self.end = Some(at + size);
        Some(at)
    }

    // One byte.
    pub fn byte(&mut self, b: u8)
        ensures same { self.new.output.ghost_name ≡ self.old.output.ghost_name }
        ensures writes { Writes (b ∷ []) self.old self.new }
    {
        if let Some(at) = self.reserve(1) {
            self.output[at] = b;
        }
    }

    // Some bytes.
    pub fn bytes(&mut self, bytes: &[u8])
        ensures same { self.new.output.ghost_name ≡ self.old.output.ghost_name }
        ensures writes { Writes bytes.now self.old self.new }
    {
        if let Some(at) = self.reserve(bytes.len()) {
            copy_to(self.output, at, bytes);
        }
    }

    // A number in decimal.
    pub fn number(&mut self, v: u32)
        ensures same { self.new.output.ghost_name ≡ self.old.output.ghost_name }
        ensures writes { Writes (decimal v) self.old self.new }
    {
        let size = width(v);
        if let Some(at) = self.reserve(size) {
            write_digits(self.output, at, size, v);
        }
    }

    // A number and the byte that ends its field.
    pub fn field(&mut self, v: u32, end: u8)
        ensures same { self.new.output.ghost_name ≡ self.old.output.ghost_name }
        ensures chain { Chain (decimal v ∷ (end ∷ []) ∷ []) self.old self.new }
    {
        self.number(v);
        self.byte(end);
    }

    // A number in decimal, after a minus sign where it is below zero.
    pub fn signed(&mut self, v: i32)
        ensures same { self.new.output.ghost_name ≡ self.old.output.ghost_name }
        ensures writes { Writes (signed_decimal v) self.old self.new }
    {
        let far = v.unsigned_abs();
        if 0 <= v {
            self.number(far);
            return;
        }
        let size = width(far);
        if let Some(at) = self.reserve(1 + size) {
            self.output[at] = b'-';
            write_digits(self.output, at + 1, size, far);
        }
    }
}

// The least number of digits that holds the value; a number so far below zero takes one more, for its minus sign.
fn width(v: u32) -> usize
    ensures { Width v result }
{
    let mut w = v;
    let mut n: usize = 1;
    while 9 < w {
        w /= 10;
        n += 1;
    }
    n
}

// The digits of a number straight into their places, from the last to the first.
fn write_digits(output: &mut [u8], at: usize, size: usize, v: u32)
    requires width { Width v size }
    requires size_in_bounds { at + size ≤ length output.old }
    ensures { output.new ≡ put at (decimal v) output.old }
{
    let mut w = v;
    for i in (at..at + size).rev() {
        output[i] = b'0' + (w % 10) as u8;
        w /= 10;
    }
}
