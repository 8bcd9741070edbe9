//! A law of traces, as the contract of a function that does nothing.
ghost use Rattle.std.specs.Prelude.{Bool, ℕ, List};
ghost use Rattle.settings_file.specs.Settings.{ServerSettings, device_names};
ghost use Rattle.replay.specs.OneRun.{SpeaksOfNoConnection, IsOneRun};
ghost use Rattle.replay.specs.Replay.{LinesGive};
ghost use Rattle.program.specs.Output.{ProgramOutput};

/// The printed text of a trace without connections is that of one run of the core. The events of the lines,
/// in order and each at the current moment of the trace, are a run from the start of a server with these
/// settings. The text has the replies of the run's outcomes, each followed by the notes of its event: its
/// cancels, and the dispatch.
pub fn lines_are_one_run()
    ensures { (texts : Bool) (settings : ServerSettings) (number : ℕ) (lines : List (List ℕ)) (output : ProgramOutput) → SpeaksOfNoConnection (device_names settings) lines → LinesGive texts settings number lines output → IsOneRun texts settings number lines output }
{}
