// What the command at an offset of a plan gives.
ghost use Rattle.std.specs.Prelude.{◌≡◌, ◌+◌, ◌<◌, IfOk, ℕ, drop};
ghost use Rattle.network.specs.Record.{◌then◌, end_fault};
ghost use Rattle.network.specs.Refusals.{refusal_of};
ghost use Rattle.node_set.specs.Width.{node_width};
ghost use Rattle.format.specs.Format.{at, missing, unfit, number_fault, length_fault, size_step, terminals_step, edge_step, length_step, step_of, outcome_of, answered};

use format::command::{EDGE, END, LENGTH, SIZE, TERMINALS};
use format::{Awaited, Step};
use network::{Refusal, end_fault, size_fault, terminal_fault};

// The operands of a command: so many bytes after its own byte.
fn operands<const N: usize>(rest: &[u8], command: u8) -> Result<[u8; N], Refusal>
    ensures refusal { refusal_of result ≡ (missing 1 rest.now then unfit command rest.now then missing (N + 1) rest.now) }
    ensures values { IfOk result (λ a. (k : ℕ) → k < N → at a k ≡ at rest.now (k + 1)) }
{
    let Some((first, after)) = rest.split_first() else {
        return Err(Refusal::Truncated);
    };
    if *first != command {
        return Err(Refusal::UnfitCommand);
    }
    let Some(values) = after.first_chunk::<N>() else {
        return Err(Refusal::Truncated);
    };
    Ok(*values)
}

// The fault of an edge number that must be below 64 and not below `next`.
fn number_fault(next: u8, edge: u8) -> Result<(), Refusal>
    ensures { refusal_of result ≡ number_fault next edge }
{
    if 63 < edge {
        return Err(Refusal::EdgeNumberTooHigh);
    }
    if edge < next {
        return Err(Refusal::EdgeNumberNotRising);
    }
    Ok(())
}

// The first fault of an edge's values.
fn edge_fault(nodes: u8, next: u8, edge: u8, first: u8, second: u8) -> Result<(), Refusal>
    ensures { refusal_of result ≡ (number_fault next edge then end_fault nodes first second) }
{
    number_fault(next, edge)?;
    end_fault(nodes, first, second)
}

// The fault of a length's values, straight after the edge `before`.
fn length_fault(before: u8, edge: u8, metres: u16) -> Result<(), Refusal>
    ensures { refusal_of result ≡ length_fault before edge metres }
{
    if edge != before {
        return Err(Refusal::BadLength);
    }
    let unmeasured = metres == 0;
    if unmeasured {
        Err(Refusal::BadLength)
    } else {
        Ok(())
    }
}

// 50, point count.
fn size_at(rest: &[u8]) -> Result<Step, Refusal>
    ensures { answered result ≡ size_step node_width rest.now }
{
    let [nodes] = operands::<1>(rest, SIZE)?;
    size_fault(nodes)?;
    Ok(Step::Size(nodes))
}

// 53, server, room.
fn terminals_at(rest: &[u8], nodes: u8) -> Result<Step, Refusal>
    ensures { answered result ≡ terminals_step nodes rest.now }
{
    let [source, sink] = operands::<2>(rest, TERMINALS)?;
    terminal_fault(nodes, source, sink)?;
    Ok(Step::Terminals(source, sink))
}

// 43, cable number, first end, second end; or 45, the end.
fn edge_at(rest: &[u8], nodes: u8, next: u8) -> Result<Step, Refusal>
    ensures { answered result ≡ edge_step nodes next rest.now }
{
    if rest.starts_with(&[END]) {
        let trailing = 1 < rest.len();
        if trailing {
            return Err(Refusal::TrailingByte);
        }
        return Ok(Step::End);
    }
    let [edge, first, second] = operands::<3>(rest, EDGE)?;
    edge_fault(nodes, next, edge, first, second)?;
    Ok(Step::Edge(edge, first, second))
}

// 4D, cable number, metres with the high byte first, straight after the edge `before`. Where another byte stands, or none, the edge is not
// measured, and no byte is taken.
fn length_at(rest: &[u8], before: u8) -> Result<Step, Refusal>
    ensures { answered result ≡ length_step before rest.now }
{
    if !rest.starts_with(&[LENGTH]) {
        return Ok(Step::Length(0));
    }
    let [edge, high, low] = operands::<3>(rest, LENGTH)?;
    let metres = u16::from_be_bytes([high, low]);
    length_fault(before, edge, metres)?;
    Ok(Step::Length(metres))
}

// The command that the reader waits for.
pub(crate) fn command_at(plan: &[u8], at: usize, awaited: Awaited) -> Step
    ensures { outcome_of result ≡ step_of awaited (drop at plan.now) }
{
    let rest = plan.get(at..).unwrap_or(&[]);
    let step = match awaited {
        Awaited::Size => size_at(rest),
        Awaited::Terminals(nodes) => terminals_at(rest, nodes),
        Awaited::Edge(nodes, next) => edge_at(rest, nodes, next),
        Awaited::Length(before) => length_at(rest, before),
    };
    step.unwrap_or_else(Step::Refused)
}
