// A case file, written straight into the output out of tables. Contracts cite specs/Tables.antt.
ghost use Rattle.std.specs.Prelude.{◌≡◌, ◌≤◌, length};
ghost use Rattle.text.specs.Lines.{text};
ghost use Rattle.text.specs.Writing.{Puts};
ghost use Rattle.model.specs.Case.{most_vertices};
ghost use Rattle.model.specs.CaseText.{mark_rows, end_rows, case_file};
ghost use Rattle.product.specs.Tables.{edges_of, tabled, Tables, head_text};

use crate::table::Ends;
use text::write::Writer;

// Lines 1 to 3: names; version, counts, source and workers; names.
fn write_head(page: &mut Writer, vertices: u32, edges: u32, source: u32, workers: u32)
    ensures same { page.new.output.ghost_name ≡ page.old.output.ghost_name }
    ensures head { Puts (head_text vertices edges source workers) page.old page.new }
{
    page.bytes(b"version vertices edges source workers\n1 ");
    page.field(vertices, b' ');
    page.field(edges, b' ');
    page.field(source, b' ');
    page.field(workers, b'\n');
    page.bytes(b"vertex accepting owner\n");
}

// The line of each vertex: its number, mark and owner.
fn write_vertices(page: &mut Writer, marks: &[u32], owners: &[u32])
    requires { (length owners.now ≡ length marks.now) × (length marks.now ≤ most_vertices) }
    ensures same { page.new.output.ghost_name ≡ page.old.output.ghost_name }
    ensures lines { Puts (text (mark_rows 0 marks.now owners.now)) page.old page.new }
{
    for v in 0..marks.len() {
        page.field(v as u32, b' ');
        page.field(marks[v], b' ');
        page.field(owners[v], b'\n');
    }
}

// The line of each edge: its two ends.
fn write_edges(page: &mut Writer, edges: &[Ends])
    ensures same { page.new.output.ghost_name ≡ page.old.output.ghost_name }
    ensures lines { Puts (text (end_rows (edges_of edges.now))) page.old page.new }
{
    for edge in edges {
        page.field(edge.from, b' ');
        page.field(edge.to, b'\n');
    }
}

// The whole file.
pub(crate) fn write_case(
    page: &mut Writer,
    source: u32,
    workers: u32,
    marks: &[u32],
    owners: &[u32],
    edges: &[Ends],
)
    requires { Tables marks.now owners.now edges.now }
    ensures same { page.new.output.ghost_name ≡ page.old.output.ghost_name }
    ensures file { Puts (case_file (tabled source workers marks.now owners.now (edges_of edges.now))) page.old page.new }
{
    let n = marks.len() as u32;
    let m = edges.len() as u32;
    write_head(page, n, m, source, workers);
    write_vertices(page, marks, owners);
    page.bytes(b"from to\n");
    write_edges(page, edges);
}
