//! The names of devices, in the order of a plan's lists.
ghost use Rattle.std.specs.Prelude.{◌≡◌, ◌↔◌, All, IsTrue};
ghost use Rattle.plan_text.specs.NamedPlan.{HasOneEach, name_at};

use base_types::{DeviceId, Text};
use plan_prices::PlannedClass;

/// The name of a device, empty if it has none.
pub fn name_of(names: &[Text], device: DeviceId) -> &[u8]
    ensures { result.now ≡ name_at names.now device }
{
    match names.get(device.place()) {
        Some(name) => name.as_bytes(),
        None => &[],
    }
}

/// Returns whether each class has a list of jobs and a list of place prices for each device.
pub fn has_one_each(devices: &[Text], classes: &[PlannedClass]) -> bool
    ensures { IsTrue result ↔ All (HasOneEach devices.now) classes.now }
{
    for class in classes {
        if class.priced.way.queues().len() != devices.len() {
            return false;
        }
        if class.priced.prices.places().len() != devices.len() {
            return false;
        }
    }
    true
}
