//! Laws of both sides of the protocol, as contracts of functions that do nothing.
ghost use Rattle.adapter_core.specs.SentOrders.{ParsedAsMeant};
ghost use Rattle.adapter_core.specs.Reports.{ReadAsMeant};

/// The bytes of the server, by `device_link`'s `write_job` and `write_cancel`, are read as their orders.
pub fn orders_read_back()
    ensures { ParsedAsMeant }
{}

/// The line of a device, by [`write_report`](crate::write_report), is read by `device_link` as its report.
pub fn report_read_back()
    ensures { ReadAsMeant }
{}
