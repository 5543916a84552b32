// The search and the mark under C names, so that a host can hold each of them against other decoders. What is not fit to be searched
// is answered with 4,294,967,295, and nothing is changed. The calls with document 01's refusals are those of `modem`.
#![tactic(auto)]

ghost use Rattle.std.specs.Prelude.{◌≡◌, MatchOption};
ghost use Rattle.gauge.specs.Gauge.{Fit, Gauged, Marks};

// The C interface has a number for no answer.
const UNFIT: u32 = 4294967295;

// The number of bits, where it is in range and the lengths are those that it needs.
fn fit(n: u32, heard: usize, train: usize) -> Option<usize>
    ensures { MatchOption result (Fit n heard train → ⊥) (λ bits. (bits ≡ n) × Fit n heard train) }
{
    let bits = n as usize;
    if n <= 3472 && heard == 2 * (bits + 6) && bits <= train {
        Some(bits)
    } else {
        None
    }
}

#[unsafe(no_mangle)]
pub extern "C" fn gauge_search(n: u32, heard: &[u8], train: &mut [u8], words: &mut [u64]) -> u32
    ensures { Gauged n heard.now train.old words.old result train.new words.new }
{
    let Some(bits) = fit(n, heard.len(), train.len()) else {
        return UNFIT;
    };
    if words.len() < bits + 6 {
        return UNFIT;
    }
    search::search(bits, heard, train, words)
}

// 1 for confirmed, 0 for not.
#[unsafe(no_mangle)]
pub extern "C" fn gauge_mark(n: u32, heard: &[u8], train: &[u8]) -> u32
    ensures { Marks n heard.now train.now result }
{
    let Some(bits) = fit(n, heard.len(), train.len()) else {
        return UNFIT;
    };
    if !points::bits_ok(&train[..bits]) {
        return UNFIT;
    }
    u32::from(search::mark(bits, heard, train))
}
