// Decision words: the bit of state s in a step's word is 1 where the way into it with oldest bit 1 is the better one.
ghost use Rattle.std.specs.Prelude.{◌≡◌, ℕ, ◌+◌, ◌-◌, ◌/◌, ◌%◌, ◌^◌, ◌<◌, ◌≤◌, length, nat_le, slice_index, slice_set};
ghost use Rattle.laws.specs.Lists.{choose, filled};
ghost use Rattle.laws.specs.Packing.{packed};
ghost use Rattle.search.specs.Stored.{top};
ghost use Rattle.search.specs.Words.{Chosen, eight_bytes, seat, bit_in};
ghost use Rattle.search.specs.Followed.{followed};

// Eight bytes from place k on as one number, the first the lowest.
fn eight(bytes: &[u8; 16], k: usize) -> u64
    requires { k ≤ 8 }
    ensures { result ≡ eight_bytes bytes.now k }
{
    u64::from_le_bytes([
        bytes[k],
        bytes[k + 1],
        bytes[k + 2],
        bytes[k + 3],
        bytes[k + 4],
        bytes[k + 5],
        bytes[k + 6],
        bytes[k + 7],
    ])
}

// The word of a step's choices, four to a byte: bit 8 (s % 8) + s / 8 is that of state s.
pub fn word_of(chosen: &[u8; 16]) -> u64
    requires { (j : ℕ) → j < 16 → slice_index chosen.now j ≤ 85 }
    ensures { (f : ℕ → ℕ) → Chosen f chosen.now → result ≡ packed 64 (λ p. top (f (seat p))) }
{
    eight(chosen, 0) + 2 * eight(chosen, 8)
}

// Bit p of a word.
fn bit_of(word: u64, p: u64) -> u64
    requires { p < 64 }
    ensures { (result ≡ word / 2 ^ p % 2) × (result < 2) }
{
    (word >> p) % 2
}

// The bit that leaves the register at step t came in at step t - 6; before that the register was empty.
fn put_input(train: &mut [u8], t: usize, bit: u64)
    requires { (bit < 2) × (t < length train.old + 6) }
    ensures { train.new ≡ choose (nat_le 6 t) (slice_set train.old (t - 6) bit) train.old }
{
    if 6 <= t {
        train[t - 6] = bit as u8;
    }
}

// From state 0 back along the words, which are zero afterwards; the train of n bits is what left the register on the way.
pub fn follow(n: usize, train: &mut [u8], words: &mut [u64])
    requires { (n ≤ 3472) × (n ≤ length train.old) × (n + 6 ≤ length words.old) }
    ensures found { train.new ≡ filled n (λ k. slice_index (followed (bit_in words.old) (n + 6) 0) (n - 1 - k)) train.old }
    ensures zeroed { words.new ≡ filled (n + 6) (λ _. 0) words.old }
{
    let mut s = 0u64;
    for t in (0..n + 6).rev() {
        let bit = bit_of(words[t], 8 * (s % 8) + s / 8);
        words[t] = 0;
        put_input(train, t, bit);
        s = (2 * s + bit) % 64;
    }
}
