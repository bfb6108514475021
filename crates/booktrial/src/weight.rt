// What the orders that were compared weigh, so that a sum tells what was compared.
ghost use Rattle.std.specs.Prelude.{◌≡◌};
ghost use Rattle.booktrial.specs.Weight.{weight_of};

use book::Resting;

// The place, from 1, times the number times the volume.
pub(crate) fn weight_of(place: usize, order: &Resting) -> u64
    ensures { result ≡ weight_of place order.now }
{
    let shares = (order.number as u64).wrapping_mul(order.volume as u64);
    shares.wrapping_mul((place as u64).wrapping_add(1))
}
