//! The numbers that a writer draws.
ghost use Rattle.std.specs.Prelude.{◌≡◌, ◌<◌};
ghost use Rattle.drill_plan.specs.Numbers as spec;

/// The factor and the summand by which each number follows from the one before it.
const FACTOR: u64 = 6364136223846793005;

const SUMMAND: u64 = 1442695040888963407;

/// How far apart the first numbers of two seeds are.
const WRITERS_OF_A_SEED: u64 = 16;

/// How many entries a unit has room for.
const SLOTS: u64 = 64;

const KINDS: u64 = 4;

/// The number that a writer begins with.
#[tactic(auto, using(crate::proofs::Drawing::first_drawn))]
pub(crate) fn first_number(seed: u64, writer: u32) -> u64
    ensures { result ≡ spec.first_number seed writer }
{
    seed.wrapping_mul(WRITERS_OF_A_SEED)
        .wrapping_add(u64::from(writer))
}

/// The number after this one.
#[tactic(auto, using(crate::proofs::Drawing::next_drawn))]
pub(crate) fn next_number(number: u64) -> u64
    ensures { result ≡ spec.next_number number }
{
    number.wrapping_mul(FACTOR).wrapping_add(SUMMAND)
}

/// Which entry below its unit the writer takes up.
pub(crate) fn slot_of(number: u64) -> usize
    ensures slot { result ≡ spec.slot_of number }
    ensures low { result < 64 }
{
    (top_bits(number) % SLOTS) as usize
}

/// What is done to it, where it is there.
pub(crate) fn kind_of(number: u64) -> u64
    ensures kind { result ≡ spec.kind_of number }
    ensures low { result < 4 }
{
    top_bits(number) / SLOTS % KINDS
}

/// The top 16 bits.
fn top_bits(number: u64) -> u64
    ensures { result ≡ spec.top_bits number }
{
    number >> 48
}
