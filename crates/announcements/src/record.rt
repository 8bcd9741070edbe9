//! The strings of the TXT record of a printer.
ghost use Rattle.std.specs.Prelude.{◌≡◌, ◌++◌, [], ◌∷◌, IfOk, OnOk};
ghost use Rattle.announcements.specs.Records.{record_of, yes_or_no, ability_key, ability_record, queue_records, model, product, kind_records, ability_records, records_of, formats_text, pdl_room};
ghost use Rattle.announcements.specs.Printer.{formats_of};

use crate::ability::{Ability, is_able};
use crate::formats::{formats_of, put_formats};
use crate::protocol::Protocol;
use base_types::Text;
use settings_file::{PrinterSettings, Settings};
use std::alloc::{AllocError, Global};

/// The most octets of a string of TXT (RFC 6763, section 6.1) after `pdl=`.
const PDL_ROOM: usize = 251;

/// The strings of a printer for one of its protocols. The only error is out of memory.
pub(crate) fn records_of(
    alloc: Global,
    settings: &Settings,
    printer: &PrinterSettings,
    protocol: Protocol,
) -> Result<Vec<Text>, AllocError>
    ensures { IfOk result (λ records. records.items ≡ records_of settings.now printer.now protocol) }
{
    let mut records = Vec::new(alloc);
    add_queue(alloc, &mut records, printer, protocol)?;
    add_kind(alloc, &mut records, settings, printer)?;
    add_abilities(alloc, &mut records, settings, printer)?;
    Ok(records)
}

/// Adds the string of a key and its value. The only error is out of memory.
fn add(alloc: Global, records: &mut Vec<Text>, key: &str, value: &[u8]) -> Result<(), AllocError>
    ensures { OnOk result (records.new.items ≡ records.old.items ++ record_of key.now value.now ∷ []) }
{
    let record = record_of(alloc, key, value)?;
    records.push(record)?;
    Ok(())
}

fn record_of(alloc: Global, key: &str, value: &[u8]) -> Result<Text, AllocError>
    ensures { IfOk result (λ text. text ≡ record_of key.now value.now) }
{
    let mut bytes = Vec::from_slice(alloc, key.as_bytes())?;
    bytes.extend_from_slice(b"=")?;
    bytes.extend_from_slice(value)?;
    Ok(Text::new(bytes))
}

/// Adds the strings about the queue. The only error is out of memory.
fn add_queue(
    alloc: Global,
    records: &mut Vec<Text>,
    printer: &PrinterSettings,
    protocol: Protocol,
) -> Result<(), AllocError>
    ensures { OnOk result (records.new.items ≡ records.old.items ++ queue_records protocol printer.now) }
{
    let resource = protocol.resource(alloc, &printer.name)?;
    add(alloc, records, "txtvers", b"1")?;
    add(alloc, records, "qtotal", b"1")?;
    add(alloc, records, "rp", &resource)?;
    add(alloc, records, "priority", protocol.priority().as_bytes())
}

/// Adds the strings of the printer's description and of its formats. The only error is out of memory.
fn add_kind(
    alloc: Global,
    records: &mut Vec<Text>,
    settings: &Settings,
    printer: &PrinterSettings,
) -> Result<(), AllocError>
    ensures { OnOk result (records.new.items ≡ records.old.items ++ kind_records settings.now printer.now) }
{
    let formats = pdl(alloc, settings, printer)?;
    add(alloc, records, "ty", model().as_bytes())?;
    add(alloc, records, "product", product().as_bytes())?;
    add(alloc, records, "pdl", &formats)
}

/// The printer's description.
#[tactic(auto, unfolding(crate::specs::Records::model))]
fn model() -> &'static str
    ensures { result.now ≡ model }
{
    "Hoodbasil print server"
}

/// The same description in parentheses, by which clients choose a driver.
#[tactic(auto, unfolding(crate::specs::Records::product))]
fn product() -> &'static str
    ensures { result.now ≡ product }
{
    "(Hoodbasil print server)"
}

/// The formats that fit into a string. The only error is out of memory.
fn pdl(alloc: Global, settings: &Settings, printer: &PrinterSettings) -> Result<Vec<u8>, AllocError>
    ensures { IfOk result (λ text. text.items ≡ formats_text pdl_room (formats_of settings.now printer.now)) }
{
    let formats = formats_of(alloc, settings, printer)?;
    let mut text = Vec::new(alloc);
    put_formats(&mut text, &formats, PDL_ROOM)?;
    Ok(text)
}

/// Adds the strings of the abilities that a job may ask for. The only error is out of memory.
fn add_abilities(
    alloc: Global,
    records: &mut Vec<Text>,
    settings: &Settings,
    printer: &PrinterSettings,
) -> Result<(), AllocError>
    ensures { OnOk result (records.new.items ≡ records.old.items ++ ability_records settings.now printer.now) }
{
    add(alloc, records, "Copies", b"T")?;
    add_ability(alloc, records, settings, printer, Ability::TwoSided)?;
    add_ability(alloc, records, settings, printer, Ability::Staple)?;
    add_ability(alloc, records, settings, printer, Ability::Punch)?;
    add_ability(alloc, records, settings, printer, Ability::Bind)
}

/// Adds the string that states whether some device of the printer has an ability. The only error is out of
/// memory.
fn add_ability(
    alloc: Global,
    records: &mut Vec<Text>,
    settings: &Settings,
    printer: &PrinterSettings,
    ability: Ability,
) -> Result<(), AllocError>
    ensures { OnOk result (records.new.items ≡ records.old.items ++ ability_record settings.now printer.now ability ∷ []) }
{
    let able = is_able(settings, printer, ability);
    add(
        alloc,
        records,
        ability_key(ability),
        yes_or_no(able).as_bytes(),
    )
}

fn ability_key(ability: Ability) -> &'static str
    ensures { result.now ≡ ability_key ability }
{
    match ability {
        Ability::TwoSided => "Duplex",
        Ability::Staple => "Staple",
        Ability::Punch => "Punch",
        Ability::Bind => "Bind",
    }
}

fn yes_or_no(able: bool) -> &'static str
    ensures { result.now ≡ yes_or_no able }
{
    if able { "T" } else { "F" }
}
