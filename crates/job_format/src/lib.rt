// The format of saved jobs: the bit map and the fields of a job, read from any list of bytes and laid out into a lent one.
#![tactic(auto)]

ghost use Rattle.std.specs.Prelude.{◌+◌, ◌≤◌, ◌<◌, ◌≡◌, true, not, ◌||◌, ◌++◌, length, get_or, take, drop, if◌then◌else◌, Some, None};
ghost use Rattle.semigroups.specs.Lists.{fronted};
ghost use Rattle.semigroups.specs.Words.{bit};
ghost use Rattle.answers.specs.Answers.{answered, listed, into_lent};
ghost use Rattle.job_format.specs.Bytes.{bytes_of, value_of};
ghost use Rattle.job_format.specs.Format.{field_width, version_has, field_size, field_place, job_length, laid, map_in, field_in, has_version, version_in, has_bits};
ghost use Rattle.job_format.specs.Fields.{field_or_none, all_in, knows, fields_of};

use answers::Refusal;

// The bit map of a job, and its fields, each where its bit stands.
#[derive(Clone, Copy, Debug, PartialEq, Eq)]
pub struct Fields {
    pub map: u8,
    pub genus: Option<u8>,
    pub lowest: Option<u8>,
    pub highest: Option<u8>,
    pub word: Option<u64>,
    pub written: Option<u64>,
    pub finished: bool,
}

// The number of bytes of the field of a bit that a version has, and `None` for a bit that it has not: reader and writer go by this match. The
// width is the same in every version that has the bit. A bit is told by its number, as in the format's table, so that loops go over them.
fn form_of(bit: usize, version: u8) -> Option<usize>
    ensures { result ≡ (if version_has version bit then Some (field_width bit) else None) }
{
    match bit {
        0..=2 => Some(1),
        3 => Some(8),
        4 if version < 2 => None,
        4 => Some(8),
        5 => Some(0),
        7 => Some(1),
        _ => None,
    }
}

// Does a bit of the bit map stand? From number 8 on there is none.
pub fn stands(map: u8, at: usize) -> bool
    ensures { result ≡ bit map at }
{
    if 8 <= at {
        return false;
    }
    (map as usize >> at) % 2 == 1
}

// The number of bytes that the field of a bit has in a job with this bit map.
#[tactic(auto, using(crate::proofs::Format::width_had), unfolding(crate::specs::Format::field_size))]
fn field_size(map: u8, at: usize) -> usize
    ensures { result ≡ field_size map at }
{
    if !stands(map, at) {
        return 0;
    }
    form_of(at, 2).unwrap_or(0)
}

// Where the field of a bit begins; of bit 7, the number of bytes of the whole job.
fn field_place(map: u8, at: usize) -> usize
    requires { at < 8 }
    ensures { result ≡ field_place map at }
{
    let before: usize = (0..at).map(|bit| field_size(map, bit)).sum();
    1 + field_size(map, 7) + before
}

// Has the version this bit, if it stands?
fn allows(map: u8, version: u8, at: usize) -> bool
    ensures { result ≡ (not (bit map at) || version_has version at) }
{
    !stands(map, at) || form_of(at, version).is_some()
}

// Has the version all bits that stand?
fn allows_all(map: u8, version: u8) -> bool
    ensures { result ≡ has_bits version map }
{
    (0..8).all(|bit| allows(map, version, bit))
}

// Does the reader of version 2 know the version, and has it all bits that stand?
#[tactic(auto, unfolding(crate::specs::Fields::knows))]
fn knows(version: u8, map: u8) -> bool
    ensures { result ≡ knows 2 version map }
{
    (1..=2).contains(&version) && allows_all(map, version)
}

// Is there a bit map, and where it says so a version byte?
#[tactic(auto, unfolding(crate::specs::Format::has_version))]
fn has_version(job: &[u8]) -> bool
    ensures { result ≡ has_version job.now }
{
    match job {
        [] => false,
        [map] => !stands(*map, 7),
        _ => true,
    }
}

// The version of a job.
#[tactic(auto, using(crate::proofs::Format::has_map, crate::proofs::Format::has_version_byte), unfolding(crate::specs::Format::version_in))]
fn version_of(job: &[u8]) -> u8
    requires { has_version job.now ≡ true }
    ensures { result ≡ version_in job.now }
{
    if stands(job[0], 7) { job[1] } else { 1 }
}

// The number whose bytes, lowest byte first, are so many from a place on. Where it is called the compiler knows how many, so that the copy is no call.
fn value_at(job: &[u8], place: usize, size: usize) -> u64
    requires size_bound { size ≤ 8 }
    requires size_in_bounds { place + size ≤ length job.now }
    ensures { result ≡ value_of (take size (drop place job.now)) }
{
    let mut bytes = [0; 8];
    bytes[..size].copy_from_slice(&job[place..place + size]);
    u64::from_le_bytes(bytes)
}

// The value of the field of a bit below 7.
fn field_in(job: &[u8], at: usize) -> u64
    requires at_bound { at < 7 }
    requires job_len { length job.now ≡ job_length (map_in job.now) }
    ensures { result ≡ field_in job.now at }
{
    let map = job[0];
    value_at(job, field_place(map, at), field_size(map, at))
}

// The value of the field of a bit below 7, where the bit stands.
fn word_in(job: &[u8], at: usize) -> Option<u64>
    requires at_bound { at < 7 }
    requires job_len { length job.now ≡ job_length (map_in job.now) }
    ensures { result ≡ field_or_none job.now at }
{
    if !stands(job[0], at) {
        return None;
    }
    Some(field_in(job, at))
}

// The same of a field of one byte.
fn byte_in(job: &[u8], at: usize) -> Option<u8>
    requires at_bound { at < 3 }
    requires job_len { length job.now ≡ job_length (map_in job.now) }
    ensures { result ≡ field_or_none job.now at }
{
    match word_in(job, at) {
        Some(value) => Some(value as u8),
        None => None,
    }
}

// The bit map and the fields of a job that is as long as its bit map says.
fn all_in(job: &[u8]) -> Fields
    requires { length job.now ≡ job_length (map_in job.now) }
    ensures { result ≡ all_in job.now }
{
    let map = job[0];
    Fields {
        map,
        genus: byte_in(job, 0),
        lowest: byte_in(job, 1),
        highest: byte_in(job, 2),
        word: word_in(job, 3),
        written: word_in(job, 4),
        finished: stands(map, 5),
    }
}

// Reads the bit map and the fields of a job of version 1 or 2.
#[tactic(auto, using(crate::proofs::Format::has_map), unfolding(crate::specs::Fields::fields_of))]
pub fn fields_from(job: &[u8]) -> Result<Fields, Refusal>
    ensures { answered result ≡ fields_of 2 job.now }
{
    if !has_version(job) {
        return Err(Refusal::WrongJobLength);
    }
    let map = job[0];
    if !knows(version_of(job), map) {
        return Err(Refusal::WrongJobVersion);
    }
    if job.len() != field_place(map, 7) {
        return Err(Refusal::WrongJobLength);
    }
    Ok(all_in(job))
}

// Writes a number of lowest bytes of a value from the place `at` on, and gives the place after them. It is a loop: the number of bytes is known at run
// time alone, so that a copy would be a call of memcpy, which the library for C does not need.
fn put_value(value: u64, size: usize, at: usize, out: &mut [u8]) -> usize
    requires size_bound { size ≤ 8 }
    requires size_in_bounds { at + size ≤ length out.old }
    ensures { (out.new ≡ fronted (take at out.old ++ bytes_of size value) out.old) × (result ≡ at + size) }
{
    let end = at + size;
    for (i, place) in out[at..end].iter_mut().enumerate() {
        *place = ((value >> (8 * i)) % 256) as u8;
    }
    end
}

// Writes a bit map and the fields whose bit stands at the front of a list that holds them, and gives their length.
fn put_fields(map: u8, values: [u64; 8], out: &mut [u8]) -> usize
    requires { job_length map ≤ length out.old }
    ensures { (out.new ≡ fronted (laid map (λ i. get_or values i 0)) out.old) × (result ≡ job_length map) }
{
    out[0] = map;
    let mut at = put_value(values[7], field_size(map, 7), 1, out);
    for i in 0..7 {
        at = put_value(values[i], field_size(map, i), at, out);
    }
    at
}

// Writes a bit map and the fields whose bit stands, of values given by the numbers of their bits, as a job at the front of the lent list, and
// gives the job's length. Refused for a list too short: then nothing is written.
pub fn lay_out(map: u8, values: [u64; 8], out: &mut [u8]) -> Result<u64, Refusal>
    ensures { listed result out.new ≡ into_lent (laid map (λ i. get_or values i 0)) out.old }
{
    if out.len() < field_place(map, 7) {
        return Err(Refusal::ListTooShort);
    }
    Ok(put_fields(map, values, out) as u64)
}
