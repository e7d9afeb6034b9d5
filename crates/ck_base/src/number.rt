// Numbers in texts.
ghost use Rattle.std.specs.Prelude.{◌≡◌};
ghost use Rattle.ck_base.specs.Numbers.{number_of};

/// The number that a text is, as std's `parse` reads a u64.
#[tactic(auto, using(crate::proofs::NumberLemmas::parsed_number))]
pub fn read_number(text: &str) -> Option<u64>
    ensures { result ≡ number_of text.now }
{
    match text.parse::<u64>() {
        Ok(number) => Some(number),
        Err(_) => None,
    }
}
