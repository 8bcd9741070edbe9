//! The announcement of a printer: the port of a base of URIs, and the file that Avahi reads.
use announcements::{Ports, ipp_port, only_printer, printer_named, write_service};
use settings_file::read_settings_bytes;
use std::alloc::Global;

/// Bases of URIs, and the port of each (RFC 3986, section 3.2.3).
const BASES: [(&[u8], u16); 9] = [
    (b"ipp://localhost:8631", 8631),
    (b"ipp://localhost", 631),
    (b"ipp://print.example:80/base:9", 80),
    (b"ipp://[::1]:6310", 6310),
    (b"ipp://[2001:db8::7]", 631),
    (b"ipp://[2001:db8::7]/", 631),
    (b"ipp://print.example:65536", 631),
    (b"ipp://print.example:", 631),
    (b"print.example:8631", 631),
];

/// Two printers, the first of them with two devices. Some of its formats have special characters of XML, and
/// together they are too long for one string of TXT.
const SETTINGS: &str = r#"version = 2
uri_base = "ipp://localhost:8631"

[[device]]
name = "a"
rate_one = 1
media = ["iso_a4_210x297mm"]
formats = ["text/<&>", "x/1-abcdefghijklmnopqrstuvwxyz0123456789abcdefghijklmnopqrstuvwx", "x/2-abcdefghijklmnopqrstuvwxyz0123456789abcdefghijklmnopqrstuvwx"]
finishings = ["staple"]

[[device]]
name = "b"
rate_one = 1
rate_two = 1
media = ["iso_a4_210x297mm"]
formats = ["text/<&>", "x/3-abcdefghijklmnopqrstuvwxyz0123456789abcdefghijklmnopqrstuvwx", "x/4-abcdefghijklmnopqrstuvwxyz0123456789abcdefghijklmnopqrstuvwx"]

[[device]]
name = "c"
rate_one = 1
media = ["iso_a4_210x297mm"]
formats = ["application/pdf"]
finishings = ["bind"]

[[printer]]
name = "orders"
devices = ["a", "b"]
media_default = "iso_a4_210x297mm"
format_default = "text/plain"

[[printer]]
name = "others"
devices = ["c"]
media_default = "iso_a4_210x297mm"
format_default = "application/pdf"
"#;

/// The first printer of these settings, as avahi.service(5) has it.
const SERVICE: &str = r#"<?xml version='1.0' standalone='no'?>
<!DOCTYPE service-group SYSTEM 'avahi-service.dtd'>
<service-group>
<name replace-wildcards='yes'>orders @ %h</name>
<service>
<type>_ipp._tcp</type>
<port>8631</port>
<txt-record>txtvers=1</txt-record>
<txt-record>qtotal=1</txt-record>
<txt-record>rp=printers/orders</txt-record>
<txt-record>priority=20</txt-record>
<txt-record>ty=Hoodbasil print server</txt-record>
<txt-record>product=(Hoodbasil print server)</txt-record>
<txt-record>pdl=text/&lt;&amp;&gt;,x/1-abcdefghijklmnopqrstuvwxyz0123456789abcdefghijklmnopqrstuvwx,x/2-abcdefghijklmnopqrstuvwxyz0123456789abcdefghijklmnopqrstuvwx,x/3-abcdefghijklmnopqrstuvwxyz0123456789abcdefghijklmnopqrstuvwx</txt-record>
<txt-record>Copies=T</txt-record>
<txt-record>Duplex=T</txt-record>
<txt-record>Staple=T</txt-record>
<txt-record>Punch=F</txt-record>
<txt-record>Bind=F</txt-record>
</service>
<service>
<type>_printer._tcp</type>
<port>515</port>
<txt-record>txtvers=1</txt-record>
<txt-record>qtotal=1</txt-record>
<txt-record>rp=orders</txt-record>
<txt-record>priority=50</txt-record>
<txt-record>ty=Hoodbasil print server</txt-record>
<txt-record>product=(Hoodbasil print server)</txt-record>
<txt-record>pdl=text/&lt;&amp;&gt;,x/1-abcdefghijklmnopqrstuvwxyz0123456789abcdefghijklmnopqrstuvwx,x/2-abcdefghijklmnopqrstuvwxyz0123456789abcdefghijklmnopqrstuvwx,x/3-abcdefghijklmnopqrstuvwxyz0123456789abcdefghijklmnopqrstuvwx</txt-record>
<txt-record>Copies=T</txt-record>
<txt-record>Duplex=T</txt-record>
<txt-record>Staple=T</txt-record>
<txt-record>Punch=F</txt-record>
<txt-record>Bind=F</txt-record>
</service>
</service-group>
"#;

#[test]
fn ports_of_bases(rt: HostRuntime) {
    for &(base, port) in &BASES {
        assert!(rt; ipp_port(base) == port);
    }
}

/// Returns whether the service of a printer of the settings is this text.
fn announces(alloc: Global, name: &[u8], text: &[u8]) -> bool {
    let Ok(settings) = read_settings_bytes(alloc, SETTINGS.as_bytes()) else {
        return false;
    };
    let Some(printer) = printer_named(&settings, name) else {
        return false;
    };
    let ports = Ports {
        ipp: ipp_port(settings.uri_base.as_bytes()),
        lpd: 515,
    };
    let mut output = Vec::new(alloc);
    match write_service(alloc, &settings, printer, ports, &mut output) {
        Ok(()) => output.as_slice() == text,
        Err(_) => false,
    }
}

/// Returns whether the settings have exactly one printer.
fn has_only_printer(alloc: Global) -> bool {
    match read_settings_bytes(alloc, SETTINGS.as_bytes()) {
        Ok(settings) => only_printer(&settings).is_some(),
        Err(_) => false,
    }
}

#[test]
fn service_of_a_printer(rt: HostRuntime) {
    assert!(rt; announces(rt.alloc(), b"orders", SERVICE.as_bytes()));
    assert!(rt; !announces(rt.alloc(), b"nobody", SERVICE.as_bytes()));
    assert!(rt; !has_only_printer(rt.alloc()));
}
