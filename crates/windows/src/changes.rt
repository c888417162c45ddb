// The times at which a window starts or ends. Between two of them that follow each other no minute differs from the next.
ghost use Rattle.std.specs.Prelude.{◌≡◌, ◌++◌};
ghost use Rattle.windows.specs.Windows.{week};
ghost use Rattle.windows.specs.Times.{times_of, nearer, soonest};

use crate::WEEK;

// How many minutes are left between the minute and the next time known, or between it and this time, if these are fewer. A time that is past
// comes to more than any that is to come: nothing foretells which are past, and so no branch asks.
fn nearer(minute: u16, time: u16, left: u16) -> u16
    ensures { result ≡ nearer minute time left }
{
    left.min(time.wrapping_sub(minute).wrapping_sub(1))
}

// When some window next starts or ends, or the week does: until then nothing changes.
pub fn next_change(openings: &[u16], works: &[u16], minute: u16) -> u16
    ensures { result ≡ soonest minute week (openings.now ++ times_of works.now) }
{
    if WEEK <= minute {
        return WEEK;
    }
    let left = openings.iter().fold(WEEK - minute - 1, |left, &time| nearer(minute, time, left));
    let (windows, _) = works.as_chunks::<3>();
    let least = windows.iter().fold(left, |left, &[start, end, _]| {
        let left = nearer(minute, start, left);
        nearer(minute, end, left)
    });
    minute + 1 + least
}
