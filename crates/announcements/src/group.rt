//! The file of a service group that Avahi reads (avahi.service(5)).
ghost use Rattle.std.specs.Prelude.{◌≡◌, ◌++◌, IfOk, OnOk, OnErr};
ghost use Rattle.announcements.specs.Group.{record_line, record_lines, service_text, printer_service, group_head, group_end, group_name, printer_group};

use crate::protocol::Protocol;
use crate::record::records_of;
use crate::xml::{put_element, put_escaped};
use base_types::Text;
use settings_file::{PrinterSettings, Settings};
use std::alloc::{AllocError, Global};

/// The ports of the doors for clients.
#[derive(Clone, Copy, PartialEq, Eq)]
pub struct Ports {
    /// The port for clients of IPP.
    pub ipp: u16,
    /// The port for clients of LPD.
    pub lpd: u16,
}

/// Appends the service group of a printer of the settings. The only error is out of memory, and nothing is
/// appended then.
pub fn write_service(
    alloc: Global,
    settings: &Settings,
    printer: &PrinterSettings,
    ports: Ports,
    output: &mut Vec<u8>,
) -> Result<(), AllocError>
    ensures ok { OnOk result (output.new.items ≡ output.old.items ++ printer_group settings.now printer.now ports) }
    ensures err { OnErr result (output.new.items ≡ output.old.items) }
{
    let text = printer_group(alloc, settings, printer, ports)?;
    output.extend_from_slice(&text)
}

fn printer_group(
    alloc: Global,
    settings: &Settings,
    printer: &PrinterSettings,
    ports: Ports,
) -> Result<Vec<u8>, AllocError>
    ensures { IfOk result (λ text. text.items ≡ printer_group settings.now printer.now ports) }
{
    let mut text = Vec::new(alloc);
    put_head(&mut text)?;
    put_name(&mut text, &printer.name)?;
    put_printer(
        alloc,
        &mut text,
        settings,
        printer,
        Protocol::Ipp,
        ports.ipp,
    )?;
    put_printer(
        alloc,
        &mut text,
        settings,
        printer,
        Protocol::Lpd,
        ports.lpd,
    )?;
    put_end(&mut text)?;
    Ok(text)
}

/// Appends the text before the name of every group. The only error is out of memory.
#[tactic(auto, unfolding(crate::specs::Group::group_head))]
fn put_head(output: &mut Vec<u8>) -> Result<(), AllocError>
    ensures { OnOk result (output.new.items ≡ output.old.items ++ group_head) }
{
    output.extend_from_slice(
        b"<?xml version='1.0' standalone='no'?>\n<!DOCTYPE service-group SYSTEM 'avahi-service.dtd'>\n<service-group>\n",
    )
}

/// Appends the text that ends every group. The only error is out of memory.
#[tactic(auto, unfolding(crate::specs::Group::group_end))]
fn put_end(output: &mut Vec<u8>) -> Result<(), AllocError>
    ensures { OnOk result (output.new.items ≡ output.old.items ++ group_end) }
{
    output.extend_from_slice(b"</service-group>\n")
}

/// Appends the name of the services: the printer's name, and the name of the machine. The only error is out
/// of memory.
#[tactic(auto, unfolding(crate::specs::Group::group_name))]
fn put_name(output: &mut Vec<u8>, name: &Text) -> Result<(), AllocError>
    ensures { OnOk result (output.new.items ≡ output.old.items ++ group_name name.now) }
{
    output.extend_from_slice(b"<name replace-wildcards='yes'>")?;
    put_escaped(output, name.as_bytes())?;
    output.extend_from_slice(b" @ %h</name>\n")
}

/// Appends the service of a printer over one protocol. The only error is out of memory.
#[tactic(auto, unfolding(crate::specs::Group::printer_service))]
fn put_printer(
    alloc: Global,
    output: &mut Vec<u8>,
    settings: &Settings,
    printer: &PrinterSettings,
    protocol: Protocol,
    port: u16,
) -> Result<(), AllocError>
    ensures { OnOk result (output.new.items ≡ output.old.items ++ printer_service settings.now printer.now protocol port) }
{
    let records = records_of(alloc, settings, printer, protocol)?;
    put_service(alloc, output, protocol.kind(), port, &records)
}

/// Appends a service. The only error is out of memory.
fn put_service(
    alloc: Global,
    output: &mut Vec<u8>,
    kind: &str,
    port: u16,
    records: &[Text],
) -> Result<(), AllocError>
    ensures { OnOk result (output.new.items ≡ output.old.items ++ service_text kind.now port records.now) }
{
    let number = format!(in alloc; "{port}")?;
    output.extend_from_slice(b"<service>\n")?;
    put_element(output, "type", kind.as_bytes())?;
    put_element(output, "port", number.as_bytes())?;
    put_records(output, records)?;
    output.extend_from_slice(b"</service>\n")
}

/// Appends an element for each string of TXT. The only error is out of memory.
fn put_records(output: &mut Vec<u8>, records: &[Text]) -> Result<(), AllocError>
    ensures { OnOk result (output.new.items ≡ output.old.items ++ record_lines records.now) }
{
    for string in records {
        put_record(output, string)?;
    }
    Ok(())
}

/// Appends the element of a string of TXT. The only error is out of memory.
fn put_record(output: &mut Vec<u8>, string: &Text) -> Result<(), AllocError>
    ensures { OnOk result (output.new.items ≡ output.old.items ++ record_line string.now) }
{
    put_element(output, "txt-record", string.as_bytes())
}
