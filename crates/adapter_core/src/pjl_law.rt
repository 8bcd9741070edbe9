//! A law of a printer's PJL stream, as the contract of a function that does nothing.
ghost use Rattle.adapter_core.specs.PjlStream.{SegmentationKeepsStatuses};

/// Bytes that are fed at once and in two parts have the same statuses.
pub fn segmentation_keeps_statuses()
    ensures { SegmentationKeepsStatuses }
{}
