// What the list program prints, made in one page of memory. The contract says what that is, byte for byte (specs/Report.antt).
#![tactic(auto)]

ghost use Rattle.std.specs.Prelude.{◌≡◌, take, MatchResult};
ghost use Rattle.network.specs.Refusals.{number_of};
ghost use Rattle.text.specs.Text.{refusal_line, list_text};
ghost use Rattle.text.specs.Written.{Printed};
ghost use Rattle.report.specs.Report.{report_of, Reported};

use network::Refusal;
use node_set::NodeWord;
use text::{MAX_ROWS, MAX_TEXT};

// So many bytes decide any plan: a 65th cable's command ends there at the latest, and is always refused.
pub const DECIDING: usize = 521;

// Reads a plan and lists its network's minimal cuts beside their sides: how many there are, or why there is no list.
fn list_plan(
    plan: &[u8],
    cuts: &mut [u64; MAX_ROWS],
    sides: &mut [NodeWord; MAX_ROWS],
) -> Result<usize, Refusal>
    ensures { MatchResult result (λ n. report_of plan.now ≡ list_text (take n cuts.new) (take n sides.new)) (λ r. report_of plan.now ≡ refusal_line (number_of r)) }
{
    let network = reader::decode(plan)?;
    listing::list(network, cuts, sides)
}

// Makes the list of the first rows, as many as were listed, or the line of the refusal.
fn print(
    page: &mut [u8; MAX_TEXT],
    listed: Result<usize, Refusal>,
    cuts: &[u64; MAX_ROWS],
    sides: &[NodeWord; MAX_ROWS],
) -> usize
    ensures { MatchResult listed (λ n. Printed (list_text (take n cuts.now) (take n sides.now)) page.old page.new result) (λ r. Printed (refusal_line (number_of r)) page.old page.new result) }
{
    match listed {
        Ok(count) => text::put_list(page, cuts, sides, count),
        Err(refusal) => text::put_refusal(page, u8::from(refusal)),
    }
}

// Makes what is printed for an input at the start of the page, and gives its length. The plan has the input's first bytes, as many as it has
// room for, and `read` says how many these are. They decide what is printed of the whole input (`report-prefix` in proofs/Reports.antt).
// An array beside a length, since a smaller one would not do, and `Reported` says so of both.
pub fn report(plan: &[u8; DECIDING], read: usize, page: &mut [u8; MAX_TEXT]) -> usize
    ensures { Reported plan.now read page.old page.new result }
{
    let end = read.min(plan.len());
    let mut cuts = [0u64; MAX_ROWS];
    let mut sides: [NodeWord; MAX_ROWS] = [0; MAX_ROWS];
    let listed = list_plan(&plan[..end], &mut cuts, &mut sides);
    print(page, listed, &cuts, &sides)
}
