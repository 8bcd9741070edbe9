//! The examples, and the names of their files.

use Program::{Check, Draw, DrawText, Log, NoDrawing, NoText, Replay, Same, Verify};
use program::ExitStatus::{self, Done, No, Refused};
use std::alloc::{AllocError, Global};

/// What plays an example.
#[derive(Clone, Copy)]
pub enum Program {
    /// `printd replay`.
    Replay,
    /// `printd check --starts`.
    Check,
    /// `printd draw`.
    Draw,
    /// `printd draw`, which draws nothing.
    NoDrawing,
    /// `printd draw --text`.
    DrawText,
    /// `printd draw --text`, which draws nothing.
    NoText,
    /// `printd replay --verify`.
    Verify,
    /// `printd replay --verify`, which finds the day the same.
    Same,
    /// `printd log`.
    Log,
}

impl Program {
    /// The file that the program is given in the example of a name.
    pub fn input(self, alloc: Global, name: &str) -> Result<String, AllocError> {
        match self {
            Replay | Verify | Same | Log => format!(in alloc; "{name}.trace"),
            Check | Draw | NoDrawing | DrawText | NoText => format!(in alloc; "{name}.plan"),
        }
    }

    /// The file with what the program must write in the example of a name.
    pub fn output(self, alloc: Global, name: &str) -> Result<String, AllocError> {
        match self {
            Replay | Check | Verify => format!(in alloc; "{name}.out"),
            Draw => format!(in alloc; "{name}.svg"),
            DrawText => format!(in alloc; "{name}.txt"),
            NoDrawing | NoText => format!(in alloc; "no_picture.txt"),
            Same => format!(in alloc; "recorded_day.out"),
            Log => format!(in alloc; "{name}.log"),
        }
    }
}

/// The examples: the name of each, what plays it, and how that must end.
pub const EXAMPLES: [(&str, Program, ExitStatus); 133] = [
    ("two_devices", Replay, Done),
    ("equal_jobs_in_order", Replay, Done),
    ("two_priorities", Replay, Done),
    ("not_running", Replay, Done),
    ("stop_and_continue", Replay, Done),
    ("device_reports", Replay, Done),
    ("clock_never_back", Replay, Done),
    ("no_device", Replay, Done),
    ("stranded_by_media", Replay, Done),
    ("unsupported_template", Replay, Done),
    ("stapled_without_stapler", Replay, Done),
    ("stapled_and_bound", Replay, Done),
    ("finishings_of_two_devices", Replay, Done),
    ("finishings_before_media", Replay, Done),
    ("finishings_refused", Replay, Done),
    ("third_version", Replay, Refused),
    ("collection", Replay, Done),
    ("refused_requests", Replay, Done),
    ("malformed_messages", Replay, Done),
    ("heads_at_the_limit", Replay, Done),
    ("collections_returned", Replay, Done),
    ("names_repeated", Replay, Done),
    ("validated", Replay, Done),
    ("printer_attributes", Replay, Done),
    ("get_jobs", Replay, Done),
    ("job_attributes", Replay, Done),
    ("hold_and_release", Replay, Done),
    ("cancel_printing", Replay, Done),
    ("documents_one_by_one", Replay, Done),
    ("pause_and_resume", Replay, Done),
    ("refused_operations", Replay, Done),
    ("not_before", Replay, Done),
    ("free_early", Replay, Done),
    ("refused_line", Replay, Refused),
    ("http_exchange", Replay, Done),
    ("two_requests_in_a_piece", Replay, Done),
    ("hostile_requests", Replay, Done),
    ("bytes_after_the_closing", Replay, Done),
    ("one_client_too_many", Replay, Done),
    ("lpd_session", Replay, Done),
    ("lpd_queries", Replay, Done),
    ("lpd_faults", Replay, Done),
    ("bytes_interleaved", Replay, Done),
    ("device_bytes", Replay, Done),
    ("finished_job_on_a_device", Replay, Done),
    ("device_faults", Replay, Done),
    ("unfinished_streams", Replay, Done),
    ("number_opened_twice", Replay, Refused),
    ("input_of_no_connection", Replay, Refused),
    ("input_after_the_end", Replay, Refused),
    ("best_of_three_jobs", Replay, Done),
    ("two_classes_of_jobs", Replay, Done),
    ("late_device_for_jobs", Replay, Done),
    ("devices_one_by_one", Replay, Done),
    ("stranded_by_sides", Replay, Done),
    ("stranded_by_format", Replay, Done),
    ("format_with_a_parameter", Replay, Done),
    ("lpd_queue", Replay, Done),
    ("unknown_queue", Replay, Done),
    ("lpd_removals", Replay, Done),
    ("control_bytes_in_a_listing", Replay, Done),
    ("http_framing", Replay, Done),
    ("refused_heads", Replay, Done),
    ("chunks", Replay, Done),
    ("limits_of_heads", Replay, Done),
    ("device_lines", Replay, Done),
    ("canceled_on_a_device", Replay, Done),
    ("lpd_lines", Replay, Done),
    ("control_files", Replay, Done),
    ("offered_together", Replay, Done),
    ("printer_description", Replay, Done),
    ("paused_while_stopped", Replay, Done),
    ("jobs_shown", Replay, Done),
    ("documents_in_pieces", Replay, Done),
    ("document_of_two_pages", Replay, Done),
    ("finished_jobs_kept", Replay, Done),
    ("lp_of_cups", Replay, Done),
    ("settings_missing", Replay, Refused),
    ("settings_twice", Replay, Refused),
    ("settings_rate_of_zero", Replay, Refused),
    ("settings_unknown_key", Replay, Refused),
    ("settings_unknown_device", Replay, Refused),
    ("settings_version_as_text", Replay, Refused),
    ("settings_no_toml", Replay, Refused),
    ("settings_finishings_in_version_1", Replay, Refused),
    ("settings_unknown_finishing", Replay, Refused),
    ("settings_finishings_as_text", Replay, Refused),
    ("settings_many_devices", Replay, Refused),
    ("settings_too_many_devices", Replay, Refused),
    ("settings_none", Replay, Refused),
    ("settings_without_an_end", Replay, Refused),
    ("two_classes", Check, Done),
    ("best_of_three", Check, Done),
    ("greedy", Check, No),
    ("late_device", Check, Done),
    ("shortest_first", Check, Done),
    ("positive_place", Check, No),
    ("job_left_out", Check, No),
    ("job_twice", Check, No),
    ("job_unknown", Check, No),
    ("waits_before", Check, No),
    ("equal_jobs", Check, Done),
    ("equal_jobs_turned", Check, Done),
    ("wrong_total", Check, No),
    ("price_too_high", Check, No),
    ("not_able", Check, No),
    ("no_end", Check, Refused),
    ("out_of_range", Check, Refused),
    ("bad_line", Check, Refused),
    ("later_start", Check, Done),
    ("stranded_besides", Check, Done),
    ("stranded_in_the_lower_class", Check, No),
    ("stranded_in_the_upper_class", Check, No),
    ("stranded_besides", Draw, Done),
    ("two_classes", DrawText, Done),
    ("stranded_besides", DrawText, Done),
    ("late_device", DrawText, Done),
    ("greedy", DrawText, No),
    ("waits_before", NoText, No),
    ("job_twice", NoDrawing, No),
    ("bad_line", NoDrawing, Refused),
    ("malformed_at_once", Replay, Done),
    ("exchange_at_once", Replay, Done),
    ("chunked_at_once", Replay, Done),
    ("lpd_at_once", Replay, Done),
    ("documents_at_once", Replay, Done),
    ("recorded_day", Verify, Done),
    ("recorded_day", Log, Done),
    ("late_jobs", Same, Done),
    ("late_jobs", Log, Done),
    ("recorded_day_torn", Verify, Done),
    ("recorded_day_changed", Verify, No),
    ("recorded_heads", Same, Done),
];
