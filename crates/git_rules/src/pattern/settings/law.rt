//! The law that the contracts of [`settings_for`](crate::pattern::settings::settings_for) and
//! [`settings_without_place`](crate::pattern::settings::settings_without_place) determine the results.

ghost use Rattle.git_rules.specs.SettingsLaws.{BestIsLastTaken, NoneTakenWithoutBest, OneAnswer};

/// A name, an optional place, and the entries of a configuration determine which entries Git uses. The best entry,
/// as [`best_entry`](crate::pattern::entries::best_entry) finds it for a place, is the last one that Git takes; if
/// there is no best entry, Git takes no entry.
pub fn law_settings()
    ensures one_answer { OneAnswer }
    ensures last { BestIsLastTaken }
    ensures none { NoneTakenWithoutBest }
{}
