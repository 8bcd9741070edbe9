//! Several days, each played on several sets of devices.
ghost use Rattle.settings_file.specs.Settings.{MeetsLimits};

use crate::draft::ListedJob;
use crate::fault::DayFault;
use crate::floor::Watch;
use crate::run::{Figures, Question, figures_of};
use crate::summary::Waits;
use settings_file::Settings;
use std::alloc::Global;

/// The places of a day and of the set of devices on which it is played.
#[derive(Clone, Copy)]
pub struct Round {
    pub set: usize,
    pub day: usize,
}

/// The figures of a day, on a set of devices, by a rule.
#[derive(Clone, Copy)]
pub(crate) struct Entry {
    pub(crate) round: Round,
    /// The name of the rule.
    pub(crate) rule: &'static str,
    pub(crate) waits: Waits,
    /// The mean by the plan.
    pub(crate) planned: u64,
    /// The number of jobs that no device can print.
    pub(crate) stranded: usize,
}

/// The figures of days that were played on sets of devices.
#[derive(Drop)]
pub struct Comparison {
    pub(crate) alloc: Global,
    pub(crate) entries: Vec<Entry>,
}

impl Comparison {
    /// Creates a comparison without days.
    pub fn new(alloc: Global) -> Comparison {
        Comparison {
            alloc,
            entries: Vec::new(alloc),
        }
    }

    /// Adds the figures of a day.
    fn add(&mut self, round: Round, figures: &Figures) -> Result<(), DayFault> {
        let mut planned = None;
        for (rule, waits) in &figures.rules {
            let first = planned.unwrap_or(waits.mean);
            planned = Some(first);
            self.entries.push(Entry {
                round,
                rule: *rule,
                waits: *waits,
                planned: first,
                stranded: figures.stranded,
            })?;
        }
        Ok(())
    }

    /// Plays the jobs of a day on a set of devices, and adds the figures.
    ///
    /// # Errors
    ///
    /// Those of [`crate::run_simulation`].
    pub fn play<W: Watch>(
        &mut self,
        round: Round,
        settings: Settings,
        listed: &[ListedJob],
        question: Question<'_>,
        watch: &mut W,
    ) -> Result<(), DayFault>
        requires { MeetsLimits settings }
    {
        let figures = figures_of(self.alloc, settings, listed, question, watch)?;
        self.add(round, &figures)
    }
}
