// The loop that interleaves bits, and the number of first bits that two codes share.
ghost use Rattle.std.specs.Prelude.{◌≡◌, ℕ, ◌+◌, ◌-◌, ◌*◌, ◌/◌, ◌%◌, ◌^◌, ◌<◌, ◌≤◌, length, bit_xor};
ghost use Rattle.std.specs.Int.Count.{count_leading_zeros};
ghost use Rattle.std.specs.List.{AllByRecursion};
ghost use Rattle.zorder.specs.Code.{digits, turns, after, total, woven};
ghost use Rattle.zorder.specs.Raising.{widths_of, values_of};
ghost use Rattle.zorder.specs.Sharing.{Shares};

// A raised coordinate, and the number of bits of its axis.
#[derive(Clone, Copy, PartialEq, Eq, Debug)]
pub struct Raised {
    pub width: u32,
    pub value: u32,
}

// One round: a turn of each axis, after `done` rounds, with the bits put behind those of `code`.
fn round(code: u64, done: u32, point: &[Raised]) -> u64
    requires narrow { AllByRecursion (λ k. k ≤ 32) (widths_of point.now) }
    requires fits { digits code (turns (after done (widths_of point.now)) (values_of point.now)) < 2 ^ 64 }
    ensures { result ≡ digits code (turns (after done (widths_of point.now)) (values_of point.now)) }
{
    let mut woven = code;
    for raised in point {
        let Raised { width, value } = *raised;
        if done < width {
            woven = woven * 2 + u64::from((value >> (width - 1 - done)) & 1);
        }
    }
    woven
}

// The number of bits of the widest axis.
fn widest(point: &[Raised]) -> u32
    ensures all { AllByRecursion (λ k. k ≤ result) (widths_of point.now) }
    ensures least { (n : ℕ) → AllByRecursion (λ k. k ≤ n) (widths_of point.now) → result ≤ n }
{
    let mut most = 0;
    for raised in point {
        if raised.width > most {
            most = raised.width;
        }
    }
    most
}

// The code of a point's raised coordinates, axis by axis: rounds of turns until the widest axis has no bit left.
pub fn weave(point: &[Raised]) -> u64
    requires narrow { AllByRecursion (λ k. k ≤ 32) (widths_of point.now) }
    requires few { total (widths_of point.now) ≤ 60 }
    ensures { result ≡ woven (widths_of point.now) (values_of point.now) }
{
    let mut code = 0;
    for done in 0..widest(point) {
        code = round(code, done, point);
    }
    code
}

// How many first bits two codes of `width` bits share.
pub fn shared_bits(width: u32, a: u64, b: u64) -> u32
    requires few { width ≤ 60 }
    requires a_fits { a < 2 ^ width }
    requires b_fits { b < 2 ^ width }
    ensures shares { Shares width result a b }
    ensures zeros { result ≡ count_leading_zeros width (bit_xor a b) }
{
    (a ^ b).leading_zeros() - (64 - width)
}
