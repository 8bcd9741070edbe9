//! The settings that are built in.

/// The text of the settings of a server that is started without settings: an office with one printer and one
/// device, as a file to begin with.
pub const BUILT_IN_SETTINGS: &str =
    r#"# An office: one printer for everybody, and tail it one device. What each line may say is in docs/SETTINGS.md.
version = 1

# What the URIs of printers and jobs begin with: the name of this machine, and the port of IPP clients.
uri_base = "ipp://localhost:8631"

# Users who may do with any job what its owner may, and pause printers.
operators = ["root"]

# A device is a machine that prints. It connects to the devices' port and says this name.
[[device]]
name = "window"
# Time for a side printed alone, for a side of a two-sided sheet, and before a job's first side, in ms.
rate_one = 1200
rate_two = 900
setup = 3000
media = ["iso_a4_210x297mm", "na_letter_8.5x11in"]
formats = ["application/octet-stream", "text/plain", "application/pdf", "application/postscript"]

# A printer is what people print to; its jobs go to its devices.
[[printer]]
name = "lab"
devices = ["window"]
media_default = "iso_a4_210x297mm"
format_default = "application/octet-stream"
"#;
