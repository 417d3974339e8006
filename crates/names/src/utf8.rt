// UTF-8, checked by the library.
ghost use Rattle.std.specs.Prelude.{IsUtf8, MatchResult};
ghost use Rattle.names.specs.WellFormed.{WellFormed, Front, WellFormedIsUtf8};

use std::str;

// Refuses bytes that are not UTF-8 with the length of their longest front that is.
pub fn check_utf8(bytes: &[u8]) -> Result<(), usize>
    ensures well_formed { MatchResult result (λ _. WellFormed bytes.now) (λ n. Front bytes.now n) }
    ensures utf8 { MatchResult result (λ _. IsUtf8 bytes.now) (λ _. IsUtf8 bytes.now → ⊥) }
    ensures one_notion { WellFormedIsUtf8 }
{
    // kept: no plainer with map and map_err: tried, and the proof has to take the two closures apart again, case by case
    match str::from_utf8(bytes) {
        Ok(_) => Ok(()),
        Err(fault) => Err(fault.valid_up_to()),
    }
}
