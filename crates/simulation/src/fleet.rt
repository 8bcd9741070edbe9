//! The devices of a day: the devices of the settings, without those that are away, and with additional
//! devices.
ghost use Rattle.std.specs.Prelude.{IfOk};
ghost use Rattle.settings_file.specs.Settings.{MeetsLimits};

use crate::device_words::{device_of, like_in};
use crate::fault::{DayFault, refused};
use crate::further_device::extended;
use crate::planned::report_to;
use base_types::{Moment, Report};
use dispatcher::Core;
use drawing::Page;
use plan_solver::AugmentingPaths;
use settings_file::{DeviceSettings, Settings};
use std::alloc::{AllocError, Global};

/// A further device.
#[derive(Clone, Copy)]
pub struct Added<'a> {
    pub name: &'a str,
    /// The name of the device that it is like. If neither this nor the words give it, that is the first of the
    /// settings.
    pub like: Option<&'a str>,
    /// Words about how it differs, as `rate_one=1000 setup=2000`.
    pub words: &'a str,
}

/// The words about a further device with which the settings aren't valid.
const NO_MORE: &str =
    " more: a name has 1 to 32 letters, digits, _ and -, there are 32 devices at most, and a device has at most 16 media and formats";

/// The fault of the device with a name, by the words before and after the name.
fn device_fault(alloc: Global, before: &str, name: &str, tail: &str) -> DayFault {
    let sentence = Page::new(alloc).put("the settings ").put(before);
    refused(sentence.put(" \"").put(name).put("\"").put(tail))
}

/// The place of the device with a name, or the fault that there is none.
fn known(alloc: Global, settings: &Settings, name: &str) -> Result<usize, DayFault> {
    match settings.device_named(name.as_bytes()) {
        Some(device) => Ok(device.place()),
        None => Err(device_fault(alloc, "have no device", name, "")),
    }
}

/// The place of the device that a further one is like, or the fault that there is none.
fn place_of_like(alloc: Global, settings: &Settings, added: Added<'_>) -> Result<usize, DayFault> {
    match added.like.or(like_in(added.words)) {
        Some(name) => known(alloc, settings, name),
        None => Ok(0),
    }
}

/// A further device for some settings, and the place of the device that it is like.
fn further_device(
    alloc: Global,
    settings: &Settings,
    added: Added<'_>,
) -> Result<(usize, DeviceSettings), DayFault> {
    let place = place_of_like(alloc, settings, added)?;
    if settings.device_named(added.name.as_bytes()).is_some() {
        return Err(device_fault(alloc, "have a device", added.name, " already"));
    }
    match settings.devices.get(place) {
        Some(like) => Ok((
            place,
            device_of(alloc, added.name, like, added.words, settings)?,
        )),
        None => Err(device_fault(alloc, "take no device", added.name, NO_MORE)),
    }
}

/// Settings with a further device. It is after all others, and belongs to each printer that has the device
/// that it is like.
fn with_device(alloc: Global, settings: Settings, added: Added<'_>) -> Result<Settings, DayFault>
    requires { MeetsLimits settings }
    ensures { IfOk result MeetsLimits }
{
    let (place, device) = further_device(alloc, &settings, added)?;
    match extended(alloc, settings, place, device)? {
        Some(settings) => Ok(settings),
        None => Err(device_fault(alloc, "take no device", added.name, NO_MORE)),
    }
}

/// Settings with further devices.
pub(crate) fn with_devices(
    alloc: Global,
    settings: Settings,
    added: &[Added<'_>],
) -> Result<Settings, DayFault>
    requires { MeetsLimits settings }
    ensures { IfOk result MeetsLimits }
{
    let mut all = settings;
    for device in added {
        all = with_device(alloc, all, *device)?;
    }
    Ok(all)
}

/// Makes all devices of a core ready, except those at some places.
fn make_all_ready(core: &mut Core<AugmentingPaths>, away: &[usize]) -> Result<(), AllocError> {
    for place in 0..core.settings().devices.len() {
        if !away.contains(&place) {
            report_to(core, place, Report::Ready, Moment::start())?;
        }
    }
    Ok(())
}

/// The places of the devices with these names.
fn places_of(alloc: Global, settings: &Settings, names: &[&str]) -> Result<Vec<usize>, DayFault> {
    let mut places = Vec::new(alloc);
    for name in names {
        places.push(known(alloc, settings, name)?)?;
    }
    Ok(places)
}

/// Returns whether all devices of some settings are at these places.
fn are_all(settings: &Settings, places: &[usize]) -> bool {
    for place in 0..settings.devices.len() {
        if !places.contains(&place) {
            return false;
        }
    }
    true
}

/// Makes all devices of a core ready, except those with some names, which are away. At least one device is to
/// be ready.
pub(crate) fn make_ready(
    alloc: Global,
    core: &mut Core<AugmentingPaths>,
    away: &[&str],
) -> Result<(), DayFault> {
    let places = places_of(alloc, core.settings(), away)?;
    if are_all(core.settings(), &places) {
        return Err(refused(Page::new(alloc).put("all devices are away: none prints a job")));
    }
    Ok(make_all_ready(core, &places)?)
}
