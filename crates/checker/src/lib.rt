// The checker of answers: refusals 1 to 8 of the case, then 1, 3, 12 and 13 of the answer, or the verdict of one that passes.
// Contracts cite specs/Checking.antt.
#![tactic(auto)]

ghost use Rattle.model.specs.Entry.{CheckSays};
ghost use Rattle.checker.specs.Checking.{Room, AgainstSays, FilesSay};

use casefile::{Case, CaseTables, read_case};
use listing::check_empty;
use loops::meant;
use model::{Checked, Refusal, Verdict};
use opening::read_opening;
use tables::Graph;
use walk::check_lasso;

mod listing;
mod loops;
mod opening;
pub mod tables;
mod walk;

// Checks an answer against the case that stands in the tables; they get its rest loops where the version means them.
fn check_against(
    answer: &[u8],
    case: Case,
    marks: &[u32],
    froms: &mut [u32],
    tos: &mut [u32],
) -> Result<Verdict, Refusal>
    requires { Room case.vertices case.edges froms.old tos.old }
    ensures { AgainstSays answer.now case marks.now froms.old tos.old result }
{
    let head = read_opening(answer)?;
    let graph = Graph {
        case: meant(head.version, case, froms, tos),
        marks,
        froms,
        tos,
    };
    match head.verdict {
        Verdict::Lasso => check_lasso(answer, head, graph),
        Verdict::Empty => check_empty(answer, head, graph),
    }
}

// Checks an answer to a case: the whole case first.
fn check_files(case: &[u8], answer: &[u8]) -> Result<Verdict, Refusal>
    ensures { FilesSay case.now answer.now result }
{
    let mut marks = [0; Case::MOST_VERTICES];
    let mut froms = [0; Case::MOST_RUN_EDGES];
    let mut tos = [0; Case::MOST_RUN_EDGES];
    let mut tables = CaseTables {
        marks: &mut marks,
        owners: &mut [],
        froms: &mut froms,
        tos: &mut tos,
    };
    let counts = read_case(case, &mut tables)?;
    check_against(answer, counts, &marks, &mut froms, &mut tos)
}

// The same in numbers.
pub fn check_answer(case: &[u8], answer: &[u8]) -> Checked
    ensures { CheckSays case.now answer.now result }
{
    check_files(case, answer).into()
}
