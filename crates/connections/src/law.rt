//! A law of the asks of connections, as the contract of a function that does nothing.
ghost use Rattle.connections.specs.Choice.{AsksOne};

/// Two asks of one entry with the same choices are the same, and lead to the same entry.
pub fn one_ask()
    ensures { AsksOne }
{
    http_front::one_prefix();
    lpd::one_prefix();
    device_link::one_prefix();
    ipp_operations::one_asked();
}
