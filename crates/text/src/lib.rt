// What is printed of a list, as bytes in lent memory. Every contract speaks of the bytes (specs/Text.antt, specs/Written.antt).
#![tactic(auto)]

ghost use Rattle.std.specs.Prelude.{◌∷◌, ◌<◌, take};
ghost use Rattle.bitset.specs.Members.{members};
ghost use Rattle.text.specs.Text.{decimal, numbers, line_of, word_line, refusal_line, row_lines, list_text};
ghost use Rattle.text.specs.Written.{HasRoom, Appended, Printed};

use edge_set::EdgeSet;
use node_set::{NODE_WIDTH, NodeSet, NodeWord};
use sets::BitSet;

// No more rows are printed.
pub const MAX_ROWS: usize = 2048;

// No line of a row is longer: of all edges and of all nodes, each number with a space but the last, ten have one digit and the others two;
// between them stands the bar with its spaces, and the line ends.
const MAX_LINE: usize = (3 * 64 - 11) + 3 + (3 * NODE_WIDTH as usize - 11) + 1;

// No list of so many rows is longer (proofs/Bound.antt): a page of so many bytes has room for each.
pub const MAX_TEXT: usize = MAX_ROWS * MAX_LINE + 29;

// Lent memory that is written from the start on, and how many of its bytes are.
#[derive(Drop)]
struct Page<'a> {
    bytes: &'a mut [u8],
    len: usize,
}

// Each method writes behind what is written.
impl Page<'_> {
    // Writes the text.
    fn text(&mut self, text: &[u8])
        requires { HasRoom self.old text.now }
        ensures { Appended self.old text.now self.new }
    {
        let end = self.len + text.len();
        self.bytes[self.len..end].copy_from_slice(text);
        self.len = end;
    }

    // Writes so many bytes.
    fn put<const N: usize>(&mut self, bytes: [u8; N])
        requires { HasRoom self.old bytes }
        ensures { Appended self.old bytes.entry self.new }
    {
        let end = self.len + N;
        self.bytes[self.len..end].copy_from_slice(&bytes);
        self.len = end;
    }

    // Writes the number in decimal.
    fn number(&mut self, n: usize)
        requires { HasRoom self.old (decimal n) }
        ensures { Appended self.old (decimal n) self.new }
    {
        if n < 10 {
            self.put([b'0' + n as u8]);
            return;
        }
        self.number(n / 10);
        self.put([b'0' + (n % 10) as u8]);
    }

    // Writes a space and a number of one digit or two. Most of a list is such: each is written at once, since a byte on its own would wait until
    // the length after the one before it is stored.
    fn spaced(&mut self, n: usize)
        requires digits { n < 100 }
        requires room { HasRoom self.old (32 ∷ decimal n) }
        ensures { Appended self.old (32 ∷ decimal n) self.new }
    {
        if n < 10 {
            self.put([b' ', b'0' + n as u8]);
        } else {
            self.put([b' ', b'0' + (n / 10) as u8, b'0' + (n % 10) as u8]);
        }
    }

    // Writes the members, rising; a hyphen if there are none.
    fn numbers<S: BitSet>(&mut self, set: S)
        requires { HasRoom self.old (numbers (members 64 (S.number set))) }
        ensures { Appended self.old (numbers (members 64 (S.number set))) self.new }
    {
        let mut rising = set.members();
        let Some(lowest) = rising.next() else {
            self.text(b"-");
            return;
        };
        self.number(lowest as usize);
        for k in rising {
            self.spaced(k as usize);
        }
    }

    // Writes the line of a cut and its near side.
    fn row(&mut self, cut: EdgeSet, side: NodeSet)
        requires { HasRoom self.old (line_of cut.0 side.0) }
        ensures { Appended self.old (line_of cut.0 side.0) self.new }
    {
        self.numbers(cut);
        self.text(b" | ");
        self.numbers(side);
        self.text(b"\n");
    }

    // Writes the lines of the rows.
    fn rows(&mut self, cuts: &[u64], sides: &[NodeWord])
        requires { HasRoom self.old (row_lines cuts.now sides.now) }
        ensures { Appended self.old (row_lines cuts.now sides.now) self.new }
    {
        for (cut, side) in cuts.iter().zip(sides) {
            self.row(EdgeSet(*cut), NodeSet(*side));
        }
    }

    // Writes the line of a word and a number.
    fn word_line(&mut self, word: &[u8], n: usize)
        requires { HasRoom self.old (word_line word.now n) }
        ensures { Appended self.old (word_line word.now n) self.new }
    {
        self.text(word);
        self.text(b" ");
        self.number(n);
        self.text(b"\n");
    }
}

// Makes the list of the first `count` rows at the start of the page, and gives its length.
// The rows come as `listing::list` leaves them in lent memory: two tables and how many rows of them are filled.
pub fn put_list(
    page: &mut [u8; MAX_TEXT],
    cuts: &[u64; MAX_ROWS],
    sides: &[NodeWord; MAX_ROWS],
    count: usize,
) -> usize
    ensures { Printed (list_text (take count cuts.now) (take count sides.now)) page.old page.new result }
{
    let rows = count.min(MAX_ROWS);
    let mut list = Page {
        bytes: page,
        len: 0,
    };
    list.word_line(b"cuts", rows);
    list.rows(&cuts[..rows], &sides[..rows]);
    list.len
}

// Makes the line that says by its number why there is no list, likewise.
// `put_refusal` promises a line for every number of 8 bits, also for one that no refusal has.
pub fn put_refusal(page: &mut [u8; MAX_TEXT], refusal: u8) -> usize
    ensures { Printed (refusal_line refusal) page.old page.new result }
{
    let mut line = Page {
        bytes: page,
        len: 0,
    };
    line.word_line(b"refused", refusal as usize);
    line.len
}
