// The plan held beside an offset. The reader sees no byte but through it: `next` hands slice and offset to `command_at`, which looks
// at no byte past the plan's last. Callers use `next_command`, whose parameters are plain.
ghost use Rattle.std.specs.Prelude.{◌≡◌, drop};
ghost use Rattle.format.specs.Format.{step_of, outcome_of};

use crate::command::command_at;
use format::{Awaited, Step};

// A plan, and the offset of the command to read.
#[derive(Clone, Copy)]
pub struct Reader<'a> {
    plan: &'a [u8],
    at: usize,
}

fn reader_at<'a>(plan: &'a [u8], at: usize) -> Reader<'a>
    ensures { (result.plan ≡ plan.entry) × (result.at ≡ at) }
{
    Reader { plan, at }
}

// The command at the reader's offset.
fn next<'a>(reader: Reader<'a>, awaited: Awaited) -> Step
    ensures { outcome_of result ≡ step_of awaited (drop reader.entry.at reader.entry.plan.now) }
{
    command_at(reader.plan, reader.at, awaited)
}

// The command at an offset of a plan, read through a `Reader`.
pub(crate) fn next_command(plan: &[u8], at: usize, awaited: Awaited) -> Step
    ensures { outcome_of result ≡ step_of awaited (drop at plan.now) }
{
    next(reader_at(plan, at), awaited)
}
