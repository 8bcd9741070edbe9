//! A law of the order of a listing.
ghost use Rattle.std.specs.Prelude.{List};
ghost use Rattle.std.specs.List.Sorted.{IsPermutation};
ghost use Rattle.job_objects.specs.Job.{JobRecord};
ghost use Rattle.listings.specs.declared.turn.Turn.{Turn};
ghost use Rattle.listings.specs.Listing.{by_turn};
ghost use Rattle.listings.specs.Order.{InOrder};

/// Sorting by turns permutes the jobs, and no job's turn comes before that of an earlier job.
pub fn listing_is_ordered()
    ensures same { (turn : JobRecord → Turn) (jobs : List JobRecord) → IsPermutation jobs (by_turn turn jobs) }
    ensures ordered { (turn : JobRecord → Turn) (jobs : List JobRecord) → InOrder turn (by_turn turn jobs) }
{}
