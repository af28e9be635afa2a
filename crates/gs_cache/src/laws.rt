//! Laws about what caches answer. Each holds by its definitions only, and its function does nothing.
ghost use Rattle.std.specs.Prelude.{◌≡◌};
ghost use Rattle.gs_cache.specs.CachedMessages.{most_announced};
ghost use Rattle.gs_cache.specs.Sightings.{StepsNeedWhatCounts};

use crate::message_cache::MOST_ANNOUNCED;

/// What counts after a step depends only on what counted before it, not on anything that was forgotten. So a cache that
/// forgets agrees with a record of all sightings.
pub fn a_step_needs_only_what_counts()
    ensures { StepsNeedWhatCounts }
{}

/// The limit of announcements in the code equals that of the definitions.
pub fn limit_of_announcements()
    ensures { MOST_ANNOUNCED ≡ most_announced }
{}
