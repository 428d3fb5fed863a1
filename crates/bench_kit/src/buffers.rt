// Buffers that are lent to a run: what they hold before it, and looking at what it left in them.
ghost use Rattle.std.specs.Prelude.{◌≡◌, ◌↔◌, drop, IsTrue};
ghost use Rattle.std.specs.List.{All};
ghost use Rattle.bench_kit.specs.Buffers.{mark, Front};

// What the buffers hold before a run.
pub const MARK: u8 = b'#';

pub const CELL: i32 = 7;

// The first so many elements, all of them where there are fewer.
pub fn front<T>(whole: &[T], size: usize) -> &[T]
    ensures { Front whole.entry size result }
{
    &whole[..size.min(whole.len())]
}

// Whether the bytes from a place on are as they were lent.
pub fn untouched(output: &[u8], from: usize) -> bool
    ensures { IsTrue result ↔ All (λ b. b ≡ mark) (drop from output.now) }
{
    output[from.min(output.len())..]
        .iter()
        .all(|byte| *byte == MARK)
}

// Whether every cell has this value.
pub fn all_are(work: &[i32], value: i32) -> bool
    ensures { IsTrue result ↔ All (λ c. c ≡ value) work.now }
{
    work.iter().all(|cell| *cell == value)
}
