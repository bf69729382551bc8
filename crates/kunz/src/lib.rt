// Kunz coordinates by multiplicity: those of a gap word as bytes, and the word of a list of them.
#![tactic(auto)]

ghost use Rattle.std.specs.Prelude.{◌+◌, ◌-◌, ◌*◌, ◌%◌, ◌^◌, ◌≤◌, ◌<◌, min, ◌≡◌, ◌&&◌, eqb, length};
ghost use Rattle.semigroups.specs.Lists.{sum_over, fronted};
ghost use Rattle.semigroups.specs.Sets.{gaps_to};
ghost use Rattle.semigroups.specs.Words.{closed, genus, word_of};
ghost use Rattle.answers.specs.Answers.{answered, listed};
ghost use Rattle.coordinates.specs.Coordinates.{kunz_coordinates, set_said, coordinates_of, word_from_coordinates_of};
ghost use Rattle.kunz.specs.Private.{AcceptedWithMultiplicity, multiples_as_bits};

use answers::Refusal;

// The multiples of `m` as bits: bit j stands where m divides j.
fn multiples(m: u64) -> u64
    requires { (0 < m) × (m ≤ 65) }
    ensures { result ≡ multiples_as_bits m }
{
    let mut bits = 0;
    for at in (0..64u64).step_by(m as usize) {
        bits |= 1 << at;
    }
    bits
}

// Writes the coordinates of an accepted word of multiplicity `m`: the bits that stand at multiples of m, in the word shifted down to the
// residue, are the gaps of that residue.
fn write_coordinates(word: u64, m: u64, out: &mut [u8])
    requires { AcceptedWithMultiplicity word m × (length (kunz_coordinates word) ≤ length out.old) }
    ensures { out.new ≡ fronted (kunz_coordinates word) out.old }
{
    let places = multiples(m);
    for (k, entry) in out[..m as usize - 1].iter_mut().enumerate() {
        *entry = (word >> k & places).count_ones() as u8;
    }
}

// The coordinates of an accepted word of multiplicity `m` into the lent list.
fn coordinates_of(word: u64, m: u64, out: &mut [u8]) -> Result<u64, Refusal>
    requires { AcceptedWithMultiplicity word m }
    ensures { listed result out.new ≡ coordinates_of word out.old }
{
    let count = m - 1;
    if (out.len() as u64) < count {
        return Err(Refusal::ListTooShort);
    }
    write_coordinates(word, m, out);
    Ok(count)
}

// The Kunz coordinates of a word at 1 to m - 1, with m the multiplicity, as bytes into the lent list; their number m - 1 is given. Refused
// with more than 32 gaps, a set that is not closed under addition, or a list that does not hold them all: then nothing is written.
pub fn coordinates(word: u64, out: &mut [u8]) -> Result<u64, Refusal>
    ensures { listed result out.new ≡ coordinates_of word out.old }
{
    let report = words::look(word)?;
    coordinates_of(word, report.multiplicity, out)
}

// The sum with a byte more, or 33 where it is larger.
fn add_to_33(sum: u64, a: u8) -> u64
    requires { sum ≤ 32 }
    ensures { result ≡ min (sum + a) 33 }
{
    (sum + a as u64).min(33)
}

// The sum of a list, or 33 where it is larger: a list of positive bytes is read to its 33rd place at most.
fn sum_to_33(list: &[u8]) -> u64
    ensures { result ≡ min (sum_over (λ x. x) list.now) 33 }
{
    let mut sum = 0;
    for &x in list {
        sum = add_to_33(sum, x);
        if sum == 33 {
            return sum;
        }
    }
    sum
}

// Of the multiples of `m` as bits the first `x`: those below m x.
fn first_multiples(places: u64, m: u64, x: u8) -> u64
    requires { m ≤ 65 }
    ensures { result ≡ places % 2 ^ (m * x) }
{
    let end = m * (x as u64);
    if 64 <= end {
        return places;
    }
    places & ((1 << end) - 1)
}

// The word of the gaps up to 64 that a list says: for each place as many numbers of its residue as its entry.
fn gap_word(list: &[u8]) -> u64
    requires { length list.now ≤ 32 }
    ensures { result ≡ word_of (gaps_to (set_said list.now) 64) }
{
    let m = list.len() as u64 + 1;
    let places = multiples(m);
    let mut word = 0;
    for (k, &x) in list.iter().enumerate() {
        word |= first_multiples(places, m, x) << k;
    }
    word
}

// Is the word accepted, with this genus?
fn accepted_of_genus(word: u64, g: u64) -> bool
    requires { g ≤ 32 }
    ensures { result ≡ (closed word && eqb (genus word) g) }
{
    words::look(word).is_ok_and(|report| report.genus == g)
}

// The word of a list of Kunz coordinates, whose length is m - 1, or what is wrong with the list: an entry 0, a sum above 32, or an
// inequality that fails. Where the set is closed under addition, its gaps are as many as the sum and all up to 64.
pub fn word_from_coordinates(list: &[u8]) -> Result<u64, Refusal>
    ensures { answered result ≡ word_from_coordinates_of list.now }
{
    if !answers::all_positive(list) {
        return Err(Refusal::ZeroCoordinate);
    }
    let sum = sum_to_33(list);
    if 32 < sum {
        return Err(Refusal::CoordinateSumTooLarge);
    }
    let word = gap_word(list);
    if !accepted_of_genus(word, sum) {
        return Err(Refusal::FailedInequality);
    }
    Ok(word)
}
