// Which depths some of many entries hold: a table with the first of them from each depth up, so that one place answers.
ghost use Rattle.std.specs.Prelude.{◌≡◌};
ghost use Rattle.sheet.specs.Depths.{nearest as nearestOf, with_depths, shares_any};

use crate::Entry;

// The first depth from one up, of the one so far and those of an entry.
fn nearest(entry: Entry, depth: u8, first: u8) -> u8
    ensures { result ≡ nearestOf entry depth first }
{
    if entry.highest < depth {
        first
    } else {
        first.min(depth.max(entry.lowest))
    }
}

// The depths of one entry more.
pub fn with_depths(most: u8, table: [u8; 6], entry: Entry) -> [u8; 6]
    ensures { result ≡ with_depths most table entry }
{
    let mut more = table;
    if entry.is_reached(most) {
        for (depth, first) in more.iter_mut().enumerate() {
            *first = nearest(entry, depth as u8, *first);
        }
    }
    more
}

// Whether an entry shares a depth with one of the table.
#[tactic(auto, unfolding(crate::specs::Depths::shares_any))]
pub fn shares_any(most: u8, table: [u8; 6], entry: Entry) -> bool
    ensures { result ≡ shares_any most table entry }
{
    let first = table.get(usize::from(entry.lowest));
    entry.is_reached(most) && first.is_some_and(|first| *first <= entry.highest)
}
