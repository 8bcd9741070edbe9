//! The free places that the devices show: the next place of each device.
ghost use Rattle.std.specs.Prelude.{◌≡◌, ℕ, ◌<◌, IfOk, length, vec_len, slice_index_or, slice_set};
ghost use Rattle.plan_solver.specs.Costs.{nowhere};
ghost use Rattle.plan_solver.specs.Layout.{place_before};

use crate::costs::Place;
use std::alloc::{AllocError, Global};

/// The last place of each device.
pub(crate) fn last_places(alloc: Global, devices: usize) -> Result<Vec<Place>, AllocError>
    ensures len { IfOk result (λ places. vec_len places ≡ devices) }
    ensures places { IfOk result (λ places. (d : ℕ) → d < devices
        → slice_index_or places.items d nowhere ≡ record { device = d; after = 0 }) }
{
    let mut places = Vec::new(alloc);
    for device in 0..devices {
        places.push(Place { device, after: 0 })?;
    }
    Ok(places)
}

/// Replaces a place by the place before it.
pub(crate) fn advance(free: &mut [Place], at: usize)
    requires here { at < length free.old }
    requires room { (slice_index_or free.old at nowhere).after < u64.MAX }
    ensures { free.new ≡ slice_set free.old at (place_before (slice_index_or free.old at nowhere)) }
{
    free[at].after += 1;
}
