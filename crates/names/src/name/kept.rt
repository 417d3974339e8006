// Names that are kept: made of bytes that are copied, and compared by them.
ghost use Rattle.std.specs.Prelude.{◌≡◌, Decides, MatchResult, nat_eq};
ghost use Rattle.faults.specs.Rules.{FirstBroken};
ghost use Rattle.names.specs.GoodName.{GoodName};
ghost use Rattle.names.specs.NameRules.{name_rules, told, GoodExactlyWhenKept};
ghost use Rattle.names.specs.NameBytes.{name_bytes};
ghost use Rattle.std.specs.Cmp.{on_per, partial_equiv_from_equiv};
ghost use Rattle.std.specs.Cmp.Lexicographic.{pointwise, nat_list_eq_equiv};
ghost use Rattle.std.specs.Ordering.{on};

use super::{MAX_LEN, Name, NameFault, check_name};

impl Name {
    pub fn new(bytes: &[u8]) -> Result<Name, NameFault>
        ensures made { MatchResult result (λ name. (name_bytes name ≡ bytes.now) × GoodName bytes.now) (λ fault. FirstBroken (name_rules bytes.now) (told fault)) }
        ensures rules { GoodExactlyWhenKept }
    {
        check_name(bytes)?;
        let mut kept = [0u8; MAX_LEN];
        kept[..bytes.len()].copy_from_slice(bytes);
        Ok(Name {
            bytes: kept,
            len: bytes.len() as u8,
        })
    }

    pub fn as_bytes(&self) -> &[u8]
        ensures same { result.now ≡ name_bytes self.now }
        ensures good { GoodName result.now }
    {
        &self.bytes[..usize::from(self.len)]
    }
}

// kept: no plainer: a derived `==` would compare the spare bytes, and promise `value` alone, where `decides` must stay
impl PartialEq for Name {
    ghost eq = { on name_bytes (pointwise nat_eq) };

    ghost laws = { on_per name_bytes (partial_equiv_from_equiv nat_list_eq_equiv) };

    fn eq(&self, other: &Name) -> bool
        ensures value { result ≡ on name_bytes (pointwise nat_eq) self.now other.now }
        ensures decides { Decides result (name_bytes self.now ≡ name_bytes other.now) }
    {
        self.as_bytes() == other.as_bytes()
    }
}
