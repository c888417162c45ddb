// Numbers drawn from a start number, each from the one before: a linear congruential generator of 64 bits.
#![tactic(auto)]

ghost use Rattle.std.specs.Prelude.{◌≡◌, ◌+◌, ◌*◌, ◌%◌, ◌^◌};
ghost use Rattle.generator.specs.Generator.{advanced, draw_of};

// What makes each number from the one before: it is multiplied and added to.
#[derive(Clone, Copy)]
struct Generator {
    multiplier: u64,
    increment: u64,
}

// What a word's high half weighs.
const HALF: u64 = 4294967296;

// The remainder by 2^64 of a product, by halves of 32 bits: no product of two halves is past 64 bits, that of the high ones leaves no
// remainder, and of those of a high and a low one the low half alone does. A helper by halves in place of the library's method: the form
// that was asked for has one, and cross_product_lost exchanges one product of halves for another.
pub fn wrapping_mul(a: u64, b: u64) -> u64
    ensures { result ≡ (a * b) % 2 ^ 64 }
{
    let a_low = a % HALF;
    let a_high = a / HALF;
    let b_low = b % HALF;
    let b_high = b / HALF;
    let cross = (a_high * b_low).wrapping_add(a_low * b_high) % HALF;
    (a_low * b_low).wrapping_add(cross * HALF)
}

impl Generator {
    // The number that comes after this one.
    fn after(self, number: u64) -> u64
        ensures { result ≡ (number * self.multiplier + self.increment) % 2 ^ 64 }
    {
        wrapping_mul(number, self.multiplier).wrapping_add(self.increment)
    }
}

// The number that comes after this one. The constants are handed on in a struct: a compiler that knows the multiplier inside `wrapping_mul`
// keeps the products of halves, and one that does not makes a single multiplication of them.
pub fn advance(number: u64) -> u64
    ensures { result ≡ advanced number }
{
    let generator = Generator {
        multiplier: 6364136223846793005,
        increment: 1442695040888963407,
    };
    generator.after(number)
}

// What is drawn with a number: its top 8 bits.
pub fn draw(number: u64) -> u8
    ensures { result ≡ draw_of number }
{
    (number >> 56) as u8
}
