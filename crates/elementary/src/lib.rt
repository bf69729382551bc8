// The number of elementary semigroups of a genus with a largest gap.
#![tactic(auto)]

ghost use Rattle.std.specs.Prelude.{◌≡◌, ◌<◌};
ghost use Rattle.answers.specs.Answers.{answered};
ghost use Rattle.elementary.specs.Elementary.{binomial as choose};
ghost use Rattle.elementary.specs.Answers.{elementary_of};

use answers::Refusal;

mod pascal;

// The binomial of n over k.
fn binomial(n: u64, k: u64) -> u64
    requires { (n < 32) × (k < 32) }
    ensures { result ≡ choose n k }
{
    pascal::PASCAL[(n * 32 + k) as usize]
}

// How many semigroups of the genus are elementary with this largest gap: none but for one from the genus to twice the genus, less 1.
#[tactic(auto, using(crate::proofs::Counts::elementary_refused, crate::proofs::Counts::elementary_inside, crate::proofs::Counts::elementary_outside))]
pub fn elementary(frobenius: u64, genus: u64) -> Result<u64, Refusal>
    ensures { answered result ≡ elementary_of frobenius genus }
{
    if 32 < genus {
        return Err(Refusal::GenusTooLarge);
    }
    if !(genus..2 * genus).contains(&frobenius) {
        return Ok(0);
    }
    Ok(binomial((frobenius + 1) / 2 - 1, frobenius - genus))
}
