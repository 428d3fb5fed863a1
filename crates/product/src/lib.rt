// From chart and claim to a case file, and the listing of a lasso's steps by names. Contracts cite model's BuiltEntry and
// specs/Entries.antt.
#![tactic(auto)]

ghost use Rattle.std.specs.Prelude.{◌≡◌};
ghost use Rattle.model.specs.BuiltEntry.{BuildSays, StepsSay};
ghost use Rattle.product.specs.Refused.{built_as};
ghost use Rattle.product.specs.Entries.{workers_right, ListAsks, CheckAsks};

use both::read_both;
use casefile::Case;
use chart::Chart;
use checker::check_answer;
use claim::Counts;
use edges::Product;
use model::{Built, Outcome, Refusal};
use names::fill_places;
use refused::{Refused, built};
use steps::Names;
use table::Edges;
use text::read::past_head;
use text::write::Writer;

mod both;
mod build;
mod case;
mod edges;
mod names;
mod refused;
mod steps;
mod table;

// Whether a case file may have so many workers.
#[tactic(auto, unfolding(crate::specs::Entries::workers_right))]
pub fn workers_right(workers: u32) -> bool
    ensures { result ≡ workers_right workers }
{
    1 <= workers && workers as usize <= Case::MOST_WORKERS
}

// The case file of the product of a chart and a claim, at the output's front: its length. "It and the listing each need an
// output of 65,536 bytes, else number 11", "a worker count outside 01's range gets 5".
fn try_build(chart: &[u8], claim: &[u8], workers: u32, output: &mut [u8]) -> Result<u32, Refused>
    ensures { BuildSays chart.now claim.now workers (built_as result) output.old output.new }
{
    if output.len() < Built::LEAST_CASE_OUTPUT {
        return Err(Refused::from(Refusal::ShortBuffer));
    }
    if !workers_right(workers) {
        return Err(Refused::from(Refusal::OutOfRange));
    }
    let mut follow = [0u8; Chart::MOST_PAIRS];
    let mut cells = [0u32; Counts::CELLS];
    let product = Product {
        sizes: read_both(chart, claim, &mut follow, &mut cells)?,
        follow: &follow,
        cells: &cells,
    };
    let mut edges = Edges::new();
    product.find_edges(&mut edges)?;
    let mut page = Writer::new(output);
    product.write(&mut page, workers as usize, &edges);
    Ok(page.end.unwrap_or(0) as u32)
}

// The case file of the product of a chart and a claim, at the output's front.
pub fn build_case(chart: &[u8], claim: &[u8], workers: u32, output: &mut [u8]) -> Built
    ensures { BuildSays chart.now claim.now workers result output.old output.new }
{
    built(try_build(chart, claim, workers, output))
}

// The listing of an answer to the case file built, at the output's front: what the checker says of it, in the C interface's
// numbers, and a passing lasso's steps. Its edges stand from line 4 to its end.
fn list_checked(
    chart: &[u8],
    claim: &[u8],
    answer: &[u8],
    case: &[u8],
    product: &Product,
    edges: &Edges,
    output: &mut [u8],
) -> Result<u32, Refused>
    requires { CheckAsks chart.now claim.now case.now product.now.sizes product.now.cells.now edges.now output.old }
    ensures { StepsSay chart.now claim.now answer.now (built_as result) output.old output.new }
{
    let checked = check_answer(case, answer);
    if checked.refusal != 0 {
        return Err(Refused {
            refusal: checked.refusal,
            mode: 0,
            combination: 0,
        });
    }
    if checked.verdict == Outcome::EMPTY {
        return Ok(0);
    }
    let mut places = [0usize; Chart::MOST_MODES];
    fill_places(chart, &mut places);
    let names = Names {
        chart,
        claim,
        places: &places,
        cells: product.cells,
        states: product.sizes.states,
    };
    let steps = past_head(answer);
    let mut page = Writer::new(output);
    names.write_steps(&mut page, answer, steps, product.sizes.source, edges);
    Ok(page.end.unwrap_or(0) as u32)
}

// The listing for a chart and a claim that are read. The workers of the case file built change nothing.
fn list_read(
    chart: &[u8],
    claim: &[u8],
    answer: &[u8],
    product: &Product,
    output: &mut [u8],
) -> Result<u32, Refused>
    requires { ListAsks chart.now claim.now product.now.sizes product.now.follow.now product.now.cells.now output.old }
    ensures { StepsSay chart.now claim.now answer.now (built_as result) output.old output.new }
{
    let mut edges = Edges::new();
    product.find_edges(&mut edges)?;
    let mut file = [0u8; Case::LONGEST_FILE];
    let mut page = Writer::new(&mut file);
    product.write(&mut page, 1, &edges);
    let case = page.written();
    list_checked(chart, claim, answer, case, product, &edges, output)
}

// The listing at the output's front: its length.
fn try_list(chart: &[u8], claim: &[u8], answer: &[u8], output: &mut [u8]) -> Result<u32, Refused>
    ensures { StepsSay chart.now claim.now answer.now (built_as result) output.old output.new }
{
    if output.len() < Built::LEAST_STEPS_OUTPUT {
        return Err(Refused::from(Refusal::ShortBuffer));
    }
    let mut follow = [0u8; Chart::MOST_PAIRS];
    let mut cells = [0u32; Counts::CELLS];
    let product = Product {
        sizes: read_both(chart, claim, &mut follow, &mut cells)?,
        follow: &follow,
        cells: &cells,
    };
    list_read(chart, claim, answer, &product, output)
}

// The steps of a lasso that the checker passes, each by the names of its mode and its claim state, at the output's front.
pub fn list_steps(chart: &[u8], claim: &[u8], answer: &[u8], output: &mut [u8]) -> Built
    ensures { StepsSay chart.now claim.now answer.now result output.old output.new }
{
    built(try_list(chart, claim, answer, output))
}
