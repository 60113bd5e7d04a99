// Runs calls on many pseudo-random points. Without an argument it prints a checksum of their answers; with the argument `time`, how many nanoseconds a call takes.
#![tactic(auto)]

ghost use Rattle.kinds.specs.Kind.{On};

use kinds::bar::BarPoint;
use kinds::kind::PointKind;
use kinds::lay::LayPoint;
use kinds::points::depth;
use std::time::Instant;
use std::{env, io};

// How many calls make a checksum, and how many are timed.
const SUMMED: u32 = 2000;

const TIMED: u32 = 1000000;

// Pseudo-random numbers.
#[derive(Drop)]
struct Random {
    state: u64,
}

impl Random {
    fn new() -> Random {
        Random { state: 1 }
    }

    // The next 34 bits.
    fn draw(&mut self) -> u64 {
        self.state = self
            .state
            .wrapping_mul(6364136223846793005)
            .wrapping_add(1442695040888963407);
        self.state >> 30
    }
}

// Kinds whose points can be drawn at random.
trait Sample: PointKind {
    // The next point, on its axes.
    fn sample(random: &mut Random) -> Self
        ensures { On Self.PointKind.kind result };
}

impl Sample for LayPoint {
    fn sample(random: &mut Random) -> LayPoint {
        // casts, as each rest fits
        let bits = random.draw();
        LayPoint {
            course: (bits % 65536) as u16,
            shog: (bits / 65536 % 4096) as i16 - 2048,
        }
    }
}

impl Sample for BarPoint {
    fn sample(random: &mut Random) -> BarPoint {
        // casts, as each rest fits
        let bits = random.draw();
        BarPoint {
            course: (bits % 65536) as u16,
            bar: (bits / 65536 % 64) as u16,
            shog: (bits / 4194304 % 4096) as i16 - 2048,
        }
    }
}

// A checksum with one more answer.
fn mix(sum: u64, answer: u64) -> u64 {
    sum.wrapping_mul(31).wrapping_add(answer)
}

// Mixes one more answer into a checksum for each of so many points that are drawn.
fn checksum<K: Sample, F: FnMut(u64, K) -> u64>(
    random: &mut Random,
    count: u32,
    mut mixed: F,
) -> u64
    requires { (state : F) (sum : _) (point : K) → On K.PointKind.kind point → F.pre state sum point }
{
    let mut sum = 0;
    for _ in 0..count {
        sum = mixed(sum, K::sample(random));
    }
    sum
}

// The code of each point.
fn codes<K: Sample>(count: u32) -> u64 {
    checksum(
        &mut Random::new(),
        count,
        |sum, point: K|
            requires { On K.PointKind.kind point }
        { mix(sum, point.code()) },
    )
}

// The first bits that each point's code shares with that of the point before.
fn depths<K: Sample>(count: u32) -> u64 {
    let mut random = Random::new();
    let mut before = K::sample(&mut random);
    checksum(
        &mut random,
        count,
        |sum, point: K|
            requires { On K.PointKind.kind point }
        {
            let other = std::mem::replace(&mut before, point);
            if other.on_axes() {
                mix(sum, u64::from(depth(&other, &point)))
            } else {
                sum
            }
        },
    )
}

// A checksum with the bytes of a point.
fn mix_bytes<K: PointKind>(before: u64, point: K) -> u64 {
    // no heap in what is timed
    let mut room = [0; 12];
    let out = &mut room[..K::SIZE];
    point.write(out);
    out.iter()
        .fold(before, |sum, byte| mix(sum, u64::from(*byte)))
}

// The bytes of each point.
fn bytes<K: Sample>(count: u32) -> u64 {
    checksum(&mut Random::new(), count, mix_bytes::<K>)
}

// Prints the checksum of so many answers, or times them.
fn report<F: Fn(u32) -> u64>(rt: &HostRuntime, call: &str, time: bool, summed: F) -> io::Result<()>
    requires { F.IsAlwaysCallable summed }
{
    if !time {
        return println!(rt; "{call} {}", summed(SUMMED));
    }
    let start = Instant::now(rt)?;
    let sum = summed(TIMED);
    let each = start.elapsed(rt)?.as_nanos() / u128::from(TIMED);
    println!(rt; "{call} {each} ns a call (checksum {sum})")
}

fn main(rt: HostRuntime) -> io::Result<()> {
    let time = env::args(&rt)?.skip(1).any(|word| word.as_str() == "time");
    report(&rt, "lay code", time, codes::<LayPoint>)?;
    report(&rt, "lay depth", time, depths::<LayPoint>)?;
    report(&rt, "lay bytes", time, bytes::<LayPoint>)?;
    report(&rt, "bar code", time, codes::<BarPoint>)?;
    report(&rt, "bar depth", time, depths::<BarPoint>)?;
    report(&rt, "bar bytes", time, bytes::<BarPoint>)
}
