// The providers, their members in order and each once: what members have agreed, and what is looked up of them.
ghost use Rattle.std.proofs.Props.{props};
ghost use Rattle.ordered.specs.Bounded.{items};
ghost use Rattle.providers.specs.Members.{DefaultsAreNumbered, MembersStandInOrderAndOnce};

use crate::fault::Fault;
use crate::mask::{agreed, agreements_in};
use crate::provider::{Provider, ProviderFields};
use ordered::BoundedList;

const CAPACITY: usize = 64;

#[derive(Clone, Copy)]
pub struct Providers {
    list: BoundedList<Provider, CAPACITY>,
    ghost order: { MembersStandInOrderAndOnce (items list) } by { Prim.hlevel props },
    ghost named: { DefaultsAreNumbered (items list) } by { Prim.hlevel props },
}

impl Providers {
    ghost use Rattle.std.specs.Prelude.{◌≡◌, ◌≤◌, ℕ, [], IfSome, OnErr, Some, Ok, slice_set};
    ghost use Rattle.providers.specs.Held.{held};
    ghost use Rattle.providers.specs.Keeping.{SetsJustThat};
    ghost use Rattle.providers.specs.Lookups.{agrees, default_of, provider_of};
    ghost use Rattle.providers.specs.Reading.{read};
    ghost use Rattle.providers.specs.Settings.{placed, put, puts, sets, settled};

    pub fn new() -> Providers
        ensures { held result ≡ [] }
    {
        Providers {
            list: BoundedList::new(),
        }
    }

    fn look(&self, member: u8) -> Option<Provider>
        ensures { result ≡ provider_of member (held self.now) }
    {
        self.list.get(self.list.find(member)?)
    }

    // The default executor of a member.
    #[tactic(auto, using(crate::proofs::Numbered::found_numbered))]
    pub fn default_of(&self, member: u8) -> Option<u8>
        ensures answer { result ≡ default_of member (held self.now) }
        ensures named { IfSome result (λ executor. 1 ≤ executor) }
    {
        self.look(member)?.default
    }

    // Whether a member agrees with an executor, as it always does with itself.
    pub fn agrees(&self, member: u8, executor: u8) -> bool
        ensures { result ≡ agrees member executor (held self.now) }
    {
        member == executor
            || self
                .look(member)
                .is_some_and(|provider| agreed(provider.agreements, executor))
    }

    // Writes a provider over the one of its member.
    fn replace(&mut self, place: usize, provider: Provider)
        requires own { placed provider.member (held self.old) ≡ Some place }
        requires named { IfSome provider.default (λ executor. 1 ≤ executor) }
        ensures { held self.new ≡ slice_set (held self.old) place provider }
    {
        self.list.set(place, provider);
    }

    // Has the provider stand in its place, or nowhere if it says nothing.
    fn put(&mut self, provider: Provider) -> Result<u32, Fault>
        requires { IfSome provider.default (λ executor. 1 ≤ executor) }
        ensures answer { result ≡ puts provider (held self.old) }
        ensures after { held self.new ≡ put provider (held self.old) }
        ensures refused { OnErr result (self.new ≡ self.old) }
    {
        match (self.list.find(provider.member), provider.says_nothing()) {
            (Some(place), true) => {
                self.list.remove(place);
            }
            (Some(place), false) => self.replace(place, provider),
            (None, true) => {}
            (None, false) => self.list.insert(provider, ())?,
        }
        Ok(agreements_in(provider.agreements))
    }

    // Sets what a member has agreed and its default, and answers with how many executors it has agreed.
    pub fn set(&mut self, fields: ProviderFields) -> Result<u32, Fault>
        ensures answer { result ≡ sets fields (held self.old) }
        ensures after { held self.new ≡ settled fields (held self.old) }
        ensures refused { OnErr result (self.new ≡ self.old) }
        ensures lookups { (p : Provider) (n : ℕ) → read fields ≡ Ok p → result ≡ Ok n → SetsJustThat p n (held self.old) (held self.new) }
        ensures order { MembersStandInOrderAndOnce (held self.new) }
    {
        self.put(Provider::try_from(fields)?)
    }
}
