//! The cause that no device is able to print a job: the first filter that leaves none.
ghost use Rattle.std.specs.Prelude.{◌≡◌, ◌↔◌, IsNone, max, slice_get};
ghost use Rattle.std.specs.Option.{option_copied};
ghost use Rattle.plan_problem.specs.Cause.{cause_of, HasAbleDevice, order_of};

use crate::able_device::first_failed;
use base_types::{Cause, DeviceNow, Needs, PrinterSet};

/// The cause that no device of its printer can print a job: the first filter that leaves no device, after
/// those before it; `None` if a device is able.
///
/// `devices` are those of the settings, in order. A place of the printer without a device is ignored.
pub fn stranded_cause(needs: &Needs, printer: &PrinterSet, devices: &[DeviceNow]) -> Option<Cause>
    ensures cause { result ≡ cause_of needs.now printer.now devices.now }
    ensures none { IsNone result ↔ HasAbleDevice needs.now printer.now devices.now }
{
    let mut cause = Cause::NoDevice;
    for device in printer.devices() {
        if let Some(now) = device_at(devices, device.place()) {
            match first_failed(needs, now) {
                None => return None,
                Some(failed) => cause = later(cause, failed),
            }
        }
    }
    Some(cause)
}

/// The later of two filters, by their causes.
fn later(first: Cause, second: Cause) -> Cause
    ensures { order_of result ≡ max (order_of first) (order_of second) }
{
    if (first as u8) < (second as u8) {
        second
    } else {
        first
    }
}

/// The device at a place of the settings, if there is one.
fn device_at(devices: &[DeviceNow], place: usize) -> Option<&DeviceNow>
    ensures { option_copied result ≡ slice_get devices.now place }
{
    devices.get(place)
}
