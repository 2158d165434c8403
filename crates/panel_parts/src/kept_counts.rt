ghost use Rattle.std.specs.Prelude.{◌≡◌, ◌≤◌, [], length};
ghost use Rattle.site_types.specs.declared.retained.Retained.{Retained as RetainedOf};
ghost use Rattle.site_types.specs.declared.site.Site.{Site as SiteOf};

use crate::parts::Parts;
use site_types::Retained;

/// The entries into the fire alarm condition that are kept. Panel 1 stands first.
#[derive(Clone, Copy, Debug)]
pub struct KeptCounts {
    /// How many of each panel's entries since opening are kept.
    pub entries: [u64; 8],
    /// The counters that are kept.
    pub counters: [u32; 8],
}

impl KeptCounts {
    ghost use Rattle.panel_parts.specs.Entries.{AreLeft, CountsFor, counts_kept};

    /// What is kept at opening.
    pub fn at_opening(kept: &Retained) -> KeptCounts
        ensures { (site : SiteOf) → CountsFor site kept.now [] result }
    {
        KeptCounts {
            entries: [0; 8],
            counters: kept.counters,
        }
    }

    /// How many of these entries aren't kept yet.
    pub fn left_of(&self, entries: &[u64; 8]) -> [u64; 8]
        ensures { AreLeft entries.now self.now.entries result }
    {
        let mut left = *entries;
        for place in 0..8 {
            left[place] = left[place].saturating_sub(self.entries[place]);
        }
        left
    }

    /// Notes what is kept after a turn of Keep, unless it failed.
    pub fn note(&mut self, failed: bool, entries: &[u64; 8], stored: &Retained)
        ensures { self.new ≡ counts_kept failed entries.now stored.now self.old }
    {
        if !failed {
            self.entries = *entries;
            self.counters = stored.counters;
        }
    }
}

ghost use Rattle.panel_parts.specs.Entries.{TellsEntries};

/// How often each panel entered the fire alarm condition since opening.
pub fn entries_of(panels: &[Parts]) -> [u64; 8]
    requires { length panels.now ≤ 8 }
    ensures told { TellsEntries panels.now result }
    ensures sized { length result ≡ 8 }
{
    let mut entries = [0; 8];
    for place in 0..panels.len() {
        entries[place] = panels[place].hold.counter_entries();
    }
    entries
}
