//! Priorities of jobs.
ghost use Rattle.std.specs.Prelude.{◌≡◌, ℕ, ◌↔◌, IsSome, IfSome};
ghost use Rattle.base_types.specs.Ranges.{IsPriority};

use crate::limits::Limits;
use std::marker::Model;

/// The priority of a job: 1 to 100, 100 the most urgent (RFC 8011, section 5.2.1). In clauses it
/// is that number.
#[derive(Clone, Copy, PartialEq, Eq, PartialOrd, Ord)]
pub struct Priority {
    level: u8,
}

impl Model for Priority {
    ghost Value = { ℕ };

    ghost view = { λ p. p.level };

    ghost invariant = { λ p. IsPriority p.level };

    ghost inverse = { λ n. record { level = n } };
}

impl Priority {
    /// The priority of a level, if the level is in range.
    pub fn new(level: u8) -> Option<Priority>
        ensures in_range { IsSome result ↔ IsPriority level }
        ensures value { IfSome result (λ p. p ≡ level) }
    {
        if 1 <= level && level <= Limits::HIGHEST_PRIORITY {
            Some(Priority { level })
        } else {
            None
        }
    }

    /// The priority of a job without job-priority.
    pub fn normal() -> Priority
        ensures { result ≡ Limits.DEFAULT_PRIORITY }
    {
        Priority {
            level: Limits::DEFAULT_PRIORITY,
        }
    }

    /// The level of the priority, 1 to 100.
    pub fn level(self) -> u8
        ensures value { result ≡ self }
        ensures in_range { IsPriority self }
    {
        self.level
    }
}
