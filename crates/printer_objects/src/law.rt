//! A law of the groups, as the contract of a function that does nothing.
ghost use Rattle.std.specs.Prelude.{◌≡◌, ◌≤◌, ℕ, List, length};
ghost use Rattle.ipp_codec.specs.Grammar.{IsGroup};
ghost use Rattle.ipp_codec.specs.Message.{plain};
ghost use Rattle.job_objects.specs.declared.job_state.JobState.{JobState};
ghost use Rattle.job_objects.specs.declared.reason.JobReasons.{JobReasons};
ghost use Rattle.printer_objects.specs.Attribute.{text};
ghost use Rattle.printer_objects.specs.Created.{created_attributes};
ghost use Rattle.printer_objects.specs.JobShown.{ShownJob, job_attributes};
ghost use Rattle.printer_objects.specs.PrinterShown.{ShownPrinter, printer_attributes};
ghost use Rattle.printer_objects.specs.declared.attribute.TheConstants.{VALUE_BYTES};
ghost use Rattle.printer_objects.specs.declared.job_attribute.JobAttribute.{JobAttribute};

/// Each group has a spelling, with any texts in it. A text that fits in a value is shown whole.
pub fn groups_are_spelt()
    ensures job { (shown : ShownJob) (attributes : List JobAttribute) → IsGroup (job_attributes shown attributes) }
    ensures created { (uri_base : List ℕ) (id : ℕ) (state : JobState) (reasons : JobReasons) → IsGroup (created_attributes uri_base id state reasons) }
    ensures printer { (shown : ShownPrinter) (requested : List (List ℕ)) → IsGroup (printer_attributes shown requested) }
    ensures whole { (tag : ℕ) (bytes : List ℕ) → length bytes ≤ VALUE_BYTES → text tag bytes ≡ plain tag bytes }
{}
