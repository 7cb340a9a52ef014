//! Jumps over the words of a generator.

ghost use Rattle.std.specs.Prelude.{◌≡◌, ◌<◌};
ghost use Rattle.rand_pcg.specs.Lcg.{advance};
ghost use Rattle.rand_pcg.specs.Pcg.{multiplier_128};
ghost use Rattle.lt_draw.specs.Word.{slots};
ghost use Rattle.lt_draw.specs.inner.Half.{HasStream};

use crate::jump_table::{DIGITS, JUMPS};
use rand_pcg::Pcg64;

/// A generator, once it has given so many words more: one jump for each digit of their number, the lowest first.
pub fn moved_on(generator: &Pcg64, words: u32) -> Pcg64
    requires stream { HasStream generator.now }
    requires few { words < slots }
    ensures { result ≡ advance 128 multiplier_128 words generator.now }
{
    let stream = generator.stream();
    let increment = (stream << 1) | 1;
    let mut state = generator.state();
    let mut rest = words as usize;
    let mut place = 0;
    'digits: while rest > 0 {
        let row = DIGITS * place + rest % DIGITS;
        state = JUMPS[row].state_after(state, increment);
        rest /= DIGITS;
        place += 1;
    }
    Pcg64::from_state(state, stream)
}
