// The list program: reads a plan from standard input and prints its minimal cuts, or why it is refused.
//
// It reads up to 521 bytes, enough to decide any plan. All that it prints is made in one page of memory by `report`, whose contract says
// what that is, and written out at once. No list is lost without a word: standard error says if a read failed, and then nothing is
// printed, or if standard output did not take all of the page.
#![tactic(auto)]

ghost use Rattle.std.specs.Prelude.{◌≡◌, length};
ghost use Rattle.list.specs.Reading.{input_of, Counted};

use report::DECIDING;
use std::io;
use std::io::{Read, Stdin, Write};
use text::MAX_TEXT;

// What a read came to that answered `got`: no more bytes than there is room for; it failed if that is an error.
fn input_of(got: io::Result<usize>, room: &[u8]) -> io::Result<usize>
    ensures { result ≡ input_of got (length room.now) }
{
    got.map(|count| count.min(room.len()))
}

// One read of standard input into the lent bytes. A count of 0 is the end of the input.
fn read_once(stdin: &mut Stdin, room: &mut [u8]) -> io::Result<usize>
    ensures { Counted (length room.new) result }
{
    let got = stdin.read(room);
    input_of(got, room)
}

// Reads standard input into the lent bytes, until they are full or the input ends.
// A loop of its own: std's `read_exact` refuses an input that is shorter, and its `read_to_end` allocates.
fn fill(stdin: &mut Stdin, room: &mut [u8]) -> io::Result<usize>
    ensures { Counted (length room.new) result }
{
    let mut read = 0;
    while read < room.len() {
        let more = read_once(stdin, &mut room[read..])?;
        if more == 0 {
            return Ok(read);
        }
        read += more;
    }
    Ok(read)
}

// Reads the first bytes of standard input, as many as decide any plan.
fn read_plan(stdin: &mut Stdin, plan: &mut [u8; DECIDING]) -> io::Result<usize>
    ensures { Counted (length plan.new) result }
{
    fill(stdin, plan)
}

fn main(rt: HostRuntime) {
    let mut plan = [0u8; DECIDING];
    // Before the read: declared behind it, where a failed read has ended the program, the page is compiled to be cleared twice.
    let mut page = [0u8; MAX_TEXT];
    let Ok(read) = read_plan(&mut rt.stdin(), &mut plan) else {
        let _ = rt.stderr().write_all(b"list: cannot read standard input\n");
        return;
    };
    let printed = report::report(&plan, read, &mut page);
    if rt.stdout().write_all(&page[..printed]).is_err() {
        let _ = rt
            .stderr()
            .write_all(b"list: cannot write all of the output\n");
    }
}
