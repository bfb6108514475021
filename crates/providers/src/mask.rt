// The executors in a mask.
ghost use Rattle.std.specs.Prelude.{◌≡◌};
ghost use Rattle.providers.specs.Lookups.{MasksAreTheirExecutors, agreed};
ghost use Rattle.providers.specs.Settings.{agreements_in};

// Whether a mask has the executor.
pub(crate) fn agreed(mask: u8, executor: u8) -> bool
    ensures { result ≡ agreed mask executor }
{
    (1..=8).contains(&executor) && (mask >> (executor - 1)) % 2 == 1
}

// How many executors a mask agrees with.
pub(crate) fn agreements_in(mask: u8) -> u32
    ensures { result ≡ agreements_in mask }
{
    mask.count_ones()
}

// Which executors a mask has settles the mask.
fn masks_are_their_executors()
    ensures { MasksAreTheirExecutors }
{}
