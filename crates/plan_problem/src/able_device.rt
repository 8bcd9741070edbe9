//! The test whether a device is able to print a job.
ghost use Rattle.std.specs.Prelude.{◌≡◌, ◌↔◌, ◌&&◌, IsTrue};
ghost use Rattle.std.specs.List.{list_any};
ghost use Rattle.std.specs.Str.{bytes_eq};
ghost use Rattle.plan_problem.specs.Able.{IsAble, is_running};
ghost use Rattle.plan_problem.specs.Cause.{prints_formats, prints_sides, finishes, has_media, filters_of, first_failed};

use base_types::{Activity, Cause, DeviceId, DeviceNow, Medium, Needs, PrinterSet, Sides, Text};

/// Returns whether the device at a place of the settings, with the state `now`, can print the job for a
/// printer. Such a device is a device of the printer, prints each document format of the job, prints
/// two-sided if the job is two-sided, has every finishing of the job and its media loaded, and runs.
pub fn able(needs: &Needs, device: DeviceId, now: &DeviceNow, printer: &PrinterSet) -> bool
    ensures { IsTrue result ↔ IsAble needs.now device now.now printer.now }
{
    printer.devices().contains(&device) && first_failed(needs, now).is_none()
}

/// The cause of the first test that a device doesn't pass.
pub(crate) fn first_failed(needs: &Needs, now: &DeviceNow) -> Option<Cause>
    ensures { result ≡ first_failed (filters_of needs.now) now.now }
{
    if !prints_formats(needs, now) {
        Some(Cause::Format)
    } else if !prints_sides(needs, now) {
        Some(Cause::Sides)
    } else if !finishes(needs, now) {
        Some(Cause::Finishings)
    } else if !has_media(needs, now) {
        Some(Cause::Media)
    } else if !is_running(now) {
        Some(Cause::Running)
    } else {
        None
    }
}

/// Returns whether the device prints each document format of the job.
fn prints_formats(needs: &Needs, now: &DeviceNow) -> bool
    ensures { result ≡ prints_formats needs.now now.now }
{
    let known = &now.formats;
    needs.formats.iter().all(|format| has_text(known, format))
}

/// Returns whether the device prints two-sided, if the job is two-sided.
fn prints_sides(needs: &Needs, now: &DeviceNow) -> bool
    ensures { result ≡ prints_sides needs.now now.now }
{
    match needs.sides {
        Sides::One => true,
        Sides::LongEdge | Sides::ShortEdge => now.rate_two.is_some(),
    }
}

/// Returns whether the device has every finishing of the job.
fn finishes(needs: &Needs, now: &DeviceNow) -> bool
    ensures { result ≡ finishes needs.now now.now }
{
    now.finishings.has(needs.finishings)
}

/// Returns whether the device has the job's media loaded.
fn has_media(needs: &Needs, now: &DeviceNow) -> bool
    ensures { result ≡ has_media needs.now now.now }
{
    let wanted = needs.media.as_bytes();
    has_loaded(&now.media, wanted)
}

/// Returns whether the device runs.
fn is_running(now: &DeviceNow) -> bool
    ensures { result ≡ is_running now.now.activity }
{
    match now.activity {
        Activity::Running(_) => true,
        Activity::Stopped(_) => false,
    }
}

/// Returns whether a text is one of the texts.
fn has_text(texts: &[Text], text: &Text) -> bool
    ensures { result ≡ list_any (bytes_eq text.now) texts.now }
{
    let wanted = text.as_bytes();
    texts.iter().any(|known| wanted == known.as_bytes())
}

/// Returns whether the wanted medium is one of the media, and loaded.
fn has_loaded(media: &[Medium], wanted: &[u8]) -> bool
    ensures { result ≡ list_any (λ m. m.loaded && bytes_eq wanted.now m.name) media.now }
{
    media.iter().any(|medium| is_loaded(medium, wanted))
}

/// Returns whether a medium is the wanted medium, and loaded.
fn is_loaded(medium: &Medium, wanted: &[u8]) -> bool
    ensures { result ≡ (medium.now.loaded && bytes_eq wanted.now medium.now.name) }
{
    medium.loaded && wanted == medium.name.as_bytes()
}
