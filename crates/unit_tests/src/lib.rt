//! Tests over public calls: the readers of bytes and words, plans and jobs; the core's runs, the engine over a wire in
//! memory, its restarts from a journal, and a server over the system's sockets.
#![tactic(auto)]

#[cfg(test)]
mod announced_printers;
#[cfg(test)]
mod attached_printers;
#[cfg(test)]
mod best_ways;
#[cfg(test)]
mod between_turns;
#[cfg(test)]
mod clock_times;
#[cfg(test)]
mod command_words;
#[cfg(test)]
mod core_runs;
#[cfg(test)]
mod device_sessions;
#[cfg(test)]
mod exchanges;
#[cfg(test)]
mod in_memory;
#[cfg(test)]
mod ipp_messages;
#[cfg(test)]
mod ipp_replies;
#[cfg(test)]
mod job_ids;
#[cfg(test)]
mod job_list_lines;
#[cfg(test)]
mod job_states;
#[cfg(test)]
mod jobs_as_rows;
#[cfg(test)]
mod lpd_sessions;
mod measured_jobs;
#[cfg(test)]
mod over_sockets;
#[cfg(test)]
mod plan_sentences;
#[cfg(test)]
mod plan_texts;
#[cfg(test)]
mod queue_metrics;
#[cfg(test)]
mod quoted_bytes;
#[cfg(test)]
mod restarts;
#[cfg(test)]
mod settings_sentences;
#[cfg(test)]
mod settings_warnings;
#[cfg(test)]
mod text_bytes;
