// The word of the sums of given generators.
#![tactic(auto)]

ghost use Rattle.std.specs.Prelude.{◌-◌, ◌<◌, ◌≡◌, ◌||◌, ◌&&◌, not, leb, eqb, length};
ghost use Rattle.std.specs.Int.Bits.{bit_and};
ghost use Rattle.semigroups.specs.Lists.{member_of};
ghost use Rattle.semigroups.specs.Sets.{gaps_to};
ghost use Rattle.semigroups.specs.Words.{bit, word_of};
ghost use Rattle.semigroups.specs.Positions.{bits_from};
ghost use Rattle.answers.specs.Answers.{answered};
ghost use Rattle.sums.specs.Divisors.{gcd, gcd_of};
ghost use Rattle.sums.specs.Sums.{spans};
ghost use Rattle.sums.specs.WordFrom.{word_from_of};

use answers::Refusal;

// The gaps up to 64 as a word, and the number of gaps up to 127.
#[derive(Clone, Copy)]
struct Gaps {
    word: u64,
    count: u64,
}

// The greatest common divisor of two numbers, by Euclid's algorithm.
fn gcd_of_two(a: u64, b: u64) -> u64
    ensures { result ≡ gcd a b }
{
    let mut x = a;
    let mut y = b;
    while y != 0 {
        let rest = x % y;
        x = y;
        y = rest;
    }
    x
}

// The greatest common divisor of a list, from its end on.
fn gcd_of(list: &[u8]) -> u64
    ensures { result ≡ gcd_of list.now }
{
    list.iter()
        .rev()
        .fold(0, |divisor, &a| gcd_of_two(u64::from(a), divisor))
}

// The number `a` as a bit, where it is from `first` to `first + 63`; else no bit.
fn bit_from(a: u64, first: u64) -> u64
    ensures { result ≡ bits_from (eqb a) first }
{
    if a < first {
        return 0;
    }
    let place = a - first;
    if 64 <= place {
        return 0;
    }
    1 << place
}

// The members from `first` to `first + 63` as bits.
fn members(list: &[u8], first: u64) -> u64
    ensures { result ≡ bits_from (member_of list.now) first }
{
    let mut bits = 0;
    for &a in list {
        bits |= bit_from(u64::from(a), first);
    }
    bits
}

// Is `k + 1` a sum? Bit i of `seen` tells whether k - i is one, bit i of `low` whether i + 1 is a member, bit i of `high` whether i + 65 is.
fn is_sum(seen: u64, low: u64, high: u64, k: u64) -> bool
    requires { k < 128 }
    ensures { result ≡ (not (eqb (bit_and seen low) 0) || leb 64 k && bit high (k - 64)) }
{
    if seen & low != 0 {
        return true;
    }
    if k < 64 {
        return false;
    }
    high >> (k - 64) & 1 == 1
}

// The gaps that the sums of members leave.
fn gaps_of_sums(list: &[u8]) -> Gaps
    ensures { (result.word ≡ word_of (gaps_to (spans list.now) 64)) × (result.count ≡ length (gaps_to (spans list.now) 127)) }
{
    let low = members(list, 1);
    let high = members(list, 65);
    let mut seen = 1;
    let mut word = 0;
    let mut count = 0;
    for k in 0..127u64 {
        if is_sum(seen, low, high, k) {
            seen = seen << 1 | 1;
        } else {
            seen = seen << 1;
            count += 1;
            if k < 64 {
                word |= 1 << k;
            }
        }
    }
    Gaps { word, count }
}

// The word of the sums of a list of generators, or what is wrong with the list.
#[tactic(auto, unfolding(crate::specs::WordFrom::word_from_of, crate::specs::WordFrom::few_gaps))]
pub fn word_from(list: &[u8]) -> Result<u64, Refusal>
    ensures { answered result ≡ word_from_of list.now }
{
    if !answers::all_positive(list) {
        return Err(Refusal::ZeroGenerator);
    }
    if gcd_of(list) != 1 {
        return Err(Refusal::CommonDivisor);
    }
    let gaps = gaps_of_sums(list);
    if 32 < gaps.count {
        return Err(Refusal::TooManyGapsGenerated);
    }
    Ok(gaps.word)
}
