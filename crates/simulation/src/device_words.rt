//! Words about a further device, as `rate_one=1000 setup=2000 media=A4,A3`.
ghost use Rattle.std.specs.Prelude.{◌≤◌, IfSome};
ghost use Rattle.std.specs.Option.{ForSome};
ghost use Rattle.base_types.specs.Ranges.{IsRate};

use crate::fault::{DayFault, refused};
use crate::job::copies_of;
use crate::medium::medium_of;
use base_types::{Finishings, Limits, Text};
use drawing::Page;
use settings_file::{DeviceSettings, Settings};
use std::alloc::{AllocError, Global};

/// The keys of the words.
const KEYS: &str = "like, rate_one, rate_two, setup, media, formats and finishings";

/// The value for nothing, of the rate for two sides and of finishings.
const NONE: &str = "none";

/// The number of a value, from `least` to `most`.
fn number_in(value: &str, least: u32, most: u32) -> Option<u32>
    ensures { IfSome result (λ number. (least ≤ number) × (number ≤ most)) }
{
    let number = value.parse::<u32>().ok()?;
    if least <= number && number <= most {
        Some(number)
    } else {
        None
    }
}

/// The rate of a value.
fn rate_of(value: &str) -> Option<u32>
    ensures { IfSome result IsRate }
{
    number_in(value, 1, Limits::RATE)
}

/// The rate of a value for two sides.
fn rate_two_of(value: &str) -> Option<Option<u32>>
    ensures { IfSome result (λ rate. ForSome rate IsRate) }
{
    if value == NONE {
        Some(None)
    } else {
        Some(Some(rate_of(value)?))
    }
}

/// The finishings with those of a word.
fn with_word(found: Finishings, word: &str) -> Option<Finishings> {
    let mut all = found;
    match word {
        "staple" => all.staple = true,
        "punch" => all.punch = true,
        "bind" => all.bind = true,
        _ => return None,
    }
    Some(all)
}

/// The finishings of a value.
fn finishings_of(value: &str) -> Option<Finishings> {
    let mut found = Finishings::none();
    if value != NONE {
        for word in value.split(",") {
            found = with_word(found, word)?;
        }
    }
    Some(found)
}

/// Appends a text, if it isn't there yet. The only error is out of memory.
fn add_once(alloc: Global, texts: &mut Vec<Text>, text: &[u8]) -> Result<(), AllocError> {
    if !texts.iter().any(|other| other.as_bytes() == text) {
        texts.push(Text::copy_of(alloc, text)?)?;
    }
    Ok(())
}

/// The media of a value; `None` if a name is none of a medium. The only error is out of memory.
fn media_of(
    alloc: Global,
    value: &str,
    settings: &Settings,
) -> Result<Option<Vec<Text>>, AllocError> {
    let mut media = Vec::new(alloc);
    for name in value.split(",") {
        let Some(medium) = medium_of(name.as_bytes(), settings) else {
            return Ok(None);
        };
        add_once(alloc, &mut media, medium)?;
    }
    Ok(Some(media))
}

/// The texts of a value. The only error is out of memory.
fn texts_of(alloc: Global, value: &str) -> Result<Vec<Text>, AllocError> {
    let mut texts = Vec::new(alloc);
    for text in value.split(",") {
        add_once(alloc, &mut texts, text.as_bytes())?;
    }
    Ok(texts)
}

/// The words for the values of a key.
fn wanted(key: &str) -> &'static str {
    match key {
        "rate_one" => "is 1 to 60,000, in ms",
        "rate_two" => "is 1 to 60,000, in ms, or none",
        "setup" => "is 0 to 3,600,000, in ms",
        "media" => "are names of media, with commas between them",
        _ => "are staple, punch and bind, with commas between them, or none",
    }
}

/// The beginning of a sentence about a device.
fn about(alloc: Global, name: &str) -> Page {
    Page::new(alloc).put("device \"").put(name).put("\": ")
}

/// The fault of a word.
fn bad_word(alloc: Global, name: &str, word: &str) -> DayFault {
    let sentence = about(alloc, name).put("\"").put(word);
    refused(
        sentence
            .put("\" is none of ")
            .put(KEYS)
            .put(", each with = and its value"),
    )
}

/// The fault of a value of a key.
fn bad_value(alloc: Global, name: &str, key: &str) -> DayFault {
    refused(about(alloc, name).put(key).put(" ").put(wanted(key)))
}

/// Changes a number or the finishings of a device. Returns `None` if the key doesn't allow the value.
fn take_plain(device: &mut DeviceSettings, key: &str, value: &str) -> Option<()> {
    match key {
        "rate_one" => device.rate_one = rate_of(value)?,
        "rate_two" => device.rate_two = rate_two_of(value)?,
        "setup" => device.setup = number_in(value, 0, Limits::SETUP)?,
        _ => device.finishings = finishings_of(value)?,
    }
    Some(())
}

/// Changes what a key names of a device. Returns whether the key allows the value. The only error is out of memory.
fn take(
    alloc: Global,
    device: &mut DeviceSettings,
    key: &str,
    value: &str,
    settings: &Settings,
) -> Result<bool, AllocError> {
    match key {
        "like" => {}
        "media" => match media_of(alloc, value, settings)? {
            Some(media) => device.media = media,
            None => return Ok(false),
        },
        "formats" => device.formats = texts_of(alloc, value)?,
        _ => return Ok(take_plain(device, key, value).is_some()),
    }
    Ok(true)
}

/// Changes what a word specifies of the device of a name.
fn take_word(
    alloc: Global,
    device: &mut DeviceSettings,
    name: &str,
    word: &str,
    settings: &Settings,
) -> Result<(), DayFault> {
    let Some((key, value)) = word.split_once("=") else {
        return Err(bad_word(alloc, name, word));
    };
    if !is_key(key) {
        return Err(bad_word(alloc, name, word));
    }
    if take(alloc, device, key, value, settings)? {
        Ok(())
    } else {
        Err(bad_value(alloc, name, key))
    }
}

/// A copy of a device under a name. The only error is out of memory.
fn renamed(
    alloc: Global,
    device: &DeviceSettings,
    name: &str,
) -> Result<DeviceSettings, AllocError> {
    Ok(DeviceSettings {
        name: Text::copy_of(alloc, name.as_bytes())?,
        rate_one: device.rate_one,
        rate_two: device.rate_two,
        setup: device.setup,
        media: copies_of(alloc, &device.media)?,
        formats: copies_of(alloc, &device.formats)?,
        finishings: device.finishings,
    })
}

/// A device of a name that is like another, except for what the words specify.
pub(crate) fn device_of(
    alloc: Global,
    name: &str,
    like: &DeviceSettings,
    words: &str,
    settings: &Settings,
) -> Result<DeviceSettings, DayFault> {
    let mut device = renamed(alloc, like, name)?;
    for word in words.split_whitespace() {
        take_word(alloc, &mut device, name, word, settings)?;
    }
    Ok(device)
}

/// Returns whether a word is a key.
fn is_key(word: &str) -> bool {
    matches!(
        word,
        "like" | "rate_one" | "rate_two" | "setup" | "media" | "formats" | "finishings"
    )
}

/// The name of the device that a further one is like, if the words give it.
pub(crate) fn like_in(words: &str) -> Option<&str> {
    for word in words.split_whitespace() {
        if let Some(name) = word.strip_prefix("like=") {
            return Some(name);
        }
    }
    None
}
