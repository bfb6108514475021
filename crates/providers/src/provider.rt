// A flow provider, by its member, the order among them, and one as it is sent.
ghost use Rattle.std.specs.Prelude.{◌≡◌};
ghost use Rattle.providers.specs.Members.{by_member, has_member};
ghost use Rattle.providers.specs.Reading.{read};
ghost use Rattle.providers.specs.Settings.{says_nothing};
ghost use Rattle.std.proofs.Common.{rules};

use crate::fault::{Fault, Field};
use fields::{nonzero, ranged};
use ordered::{Keyed, Ordered};

// Bit k - 1 of `agreements` stands for the executor k.
#[derive(Clone, Copy, PartialEq, Eq, Default, Debug)]
pub struct Provider {
    pub member: u8,
    pub agreements: u8,
    // Its default executor, if any.
    pub default: Option<u8>,
}

impl Provider {
    // No agreement and no default.
    pub(crate) fn says_nothing(self) -> bool
        ensures { result ≡ says_nothing self }
    {
        self.agreements == 0 && self.default.is_none()
    }
}

impl Ordered<()> for Provider {
    ghost ahead = { by_member };

    ghost irreflexive = { Prim.search rules };

    ghost transitive = { Prim.search rules };

    ghost ranked = { Prim.search rules };

    fn is_ahead(&self, other: &Provider, _by: ()) -> bool {
        self.member < other.member
    }
}

impl Keyed<u8> for Provider {
    ghost has = { has_member };

    fn has_key(&self, member: u8) -> bool {
        self.member == member
    }
}

// A provider as it is sent, whatever numbers its fields are. The ranges are those that are not refused.
#[derive(Clone, Copy, PartialEq, Eq, Debug)]
pub struct ProviderFields {
    // 1 to 250.
    pub member: u64,
    // 0 to 255.
    pub agreements: u64,
    // 0 for none, to 255.
    pub default: u64,
}

// The provider, or the first field at fault.
impl TryFrom<ProviderFields> for Provider {
    type Error = Fault;

    ghost try_from_gives = { λ fields r. r ≡ read fields };

    fn try_from(fields: ProviderFields) -> Result<Provider, Fault> {
        let member = ranged(fields.member, 1..=250, Field::Member)? as u8;
        let agreements = ranged(fields.agreements, 0..=255, Field::Agreements)? as u8;
        let default = ranged(fields.default, 0..=255, Field::Default)?;
        Ok(Provider {
            member,
            agreements,
            default: nonzero(default).map(|executor| executor as u8),
        })
    }
}
