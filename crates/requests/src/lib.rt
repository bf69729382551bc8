// The reading of the listing program's input: what it asks for.
#![tactic(auto)]

ghost use Rattle.std.specs.Prelude.{◌≡◌, [], ◌∷◌};
ghost use Rattle.answers.specs.Answers.{answered};
ghost use Rattle.requests.specs.Request.{request_of};

use answers::Refusal;

// What an input asks for: header lines alone, or the listing of a genus.
#[derive(Clone, Copy, Debug, PartialEq, Eq)]
pub enum Request {
    Headers,
    Listing(u64),
}

// What two digits ask for, of an input that ends behind them in a line feed: the listing of their genus.
#[tactic(auto, using(crate::proofs::Requests::request_listing, crate::proofs::Requests::request_too_large, crate::proofs::Requests::request_no_digits))]
fn request_of_two(tens: u8, ones: u8) -> Result<Request, Refusal>
    ensures { answered result ≡ request_of (tens ∷ ones ∷ 10 ∷ []) }
{
    if !tens.is_ascii_digit() || !ones.is_ascii_digit() {
        return Err(Refusal::MalformedInput);
    }
    let genus = u64::from(tens - b'0') * 10 + u64::from(ones - b'0');
    if 32 < genus {
        return Err(Refusal::GenusTooLarge);
    }
    Ok(Request::Listing(genus))
}

// What an input asks for: no bytes ask for header lines alone; one digit is read as two, the first of which is 0.
#[tactic(auto, using(crate::proofs::Requests::request_empty, crate::proofs::Requests::request_of_two_bytes, crate::proofs::Requests::request_of_three_bytes, crate::proofs::Requests::request_other))]
pub fn read(input: &[u8]) -> Result<Request, Refusal>
    ensures { answered result ≡ request_of input.now }
{
    match input {
        [] => Ok(Request::Headers),
        [ones, b'\n'] => request_of_two(b'0', *ones),
        [tens, ones, b'\n'] => request_of_two(*tens, *ones),
        _ => Err(Refusal::MalformedInput),
    }
}
