// The bits of a word.
ghost use Rattle.std.specs.Prelude.{◌≡◌, ◌%◌, ◌^◌};
ghost use Rattle.std.specs.Int.Count.{ones};
ghost use Rattle.base.specs.Bits.{bit, bit_of};

// How many bits a word has.
const WIDTH: usize = u32::BITS as usize;

pub fn bit_of(place: usize) -> u32
    ensures { result ≡ bit_of place }
{
    if place < WIDTH { 1 << place } else { 0 }
}

pub fn bit_at(word: u32, place: usize) -> u32
    ensures { result ≡ bit word place }
{
    if place < WIDTH {
        (word >> place) % 2
    } else {
        0
    }
}

// How many bits below that place are set.
pub fn ones_below(word: u32, place: usize) -> usize
    ensures { result ≡ ones (word % 2 ^ place) }
{
    let below = if place < WIDTH {
        word % (1 << place)
    } else {
        word
    };
    below.count_ones() as usize
}
