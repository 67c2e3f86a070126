//! The readings of doubles, in the caller's memory.
ghost use Rattle.std.specs.Prelude.{◌≡◌, ◌+◌, ◌*◌, ◌/◌, ◌%◌, ◌^◌, length, get_or};
ghost use Rattle.typed_numbers.specs.Readings.{reading_of};
ghost use Rattle.welungad_c.specs.Readings.{AreWordsOf, AreReadIn, HasFourWords};

use typed_numbers::reading;

/// Returns the low word of a number.
fn low(number: u128) -> u64
    ensures { result ≡ number % 2 ^ 64 }
{
    (number % (1 << 64)) as u64
}

/// Returns the high word of a number.
fn high(number: u128) -> u64
    ensures { result ≡ number / 2 ^ 64 }
{
    (number / (1 << 64)) as u64
}

/// Returns the four words of the reading of a double: the numerator and the denominator, each with its low word first, or zeros
/// if it has no reading.
fn four_words(bits: u64) -> [u64; 4]
    ensures { AreWordsOf (reading_of bits) (λ j. get_or result j 0) }
{
    match reading(bits) {
        None => [0; 4],
        Some(fraction) => {
            let ratio = fraction.ratio();
            let num = ratio.num().unsigned_abs();
            let den = ratio.den().unsigned_abs();
            [low(num), high(num), low(den), high(den)]
        }
    }
}

/// Writes the readings of doubles, four words for each.
pub fn write_readings(doubles: &[u64], out: &mut [u64])
    requires { HasFourWords doubles.now out.old }
    ensures { AreReadIn doubles.now out.new }
{
    for i in 0..doubles.len() {
        let start = i * 4;
        let end = start + 4;
        out[start..end].copy_from_slice(&four_words(doubles[i]));
    }
}
