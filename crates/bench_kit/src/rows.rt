// Rows of numbers and the first lines of a case, written into a lent output.
ghost use Rattle.std.specs.Prelude.{◌≡◌, [], ◌∷◌};
ghost use Rattle.text.specs.Writing.{Chain};
ghost use Rattle.bench_kit.specs.Rows.{row_parts, head_parts};

use text::write::Writer;

// A row of one, two or three numbers.
pub fn write_row1(out: &mut Writer, a: u32)
    ensures same { out.new.output.ghost_name ≡ out.old.output.ghost_name }
    ensures chain { Chain (row_parts (a ∷ [])) out.old out.new }
{
    out.field(a, b'\n');
}

pub fn write_row2(out: &mut Writer, a: u32, b: u32)
    ensures same { out.new.output.ghost_name ≡ out.old.output.ghost_name }
    ensures chain { Chain (row_parts (a ∷ b ∷ [])) out.old out.new }
{
    out.field(a, b' ');
    write_row1(out, b);
}

pub fn write_row3(out: &mut Writer, a: u32, b: u32, c: u32)
    ensures same { out.new.output.ghost_name ≡ out.old.output.ghost_name }
    ensures chain { Chain (row_parts (a ∷ b ∷ c ∷ [])) out.old out.new }
{
    out.field(a, b' ');
    write_row2(out, b, c);
}

// A case's first three lines.
pub fn write_head(out: &mut Writer, n: u32, m: u32, source: u32, workers: u32)
    ensures same { out.new.output.ghost_name ≡ out.old.output.ghost_name }
    ensures chain { Chain (head_parts n m source workers) out.old out.new }
{
    out.bytes(b"version vertices edges source workers\n1 ");
    out.field(n, b' ');
    write_row3(out, m, source, workers);
    out.bytes(b"vertex accepting owner\n");
}
