//! The greatest index for which marks are enough.
ghost use Rattle.std.specs.Prelude.{◌≡◌, ℕ, ◌≤◌, ◌<◌, max, nat_le, IfOk, IfErr};
ghost use Rattle.group_quorum.specs.Marks.{mark_of};
ghost use Rattle.replica_model.specs.Enough.{greatest_upto};
ghost use Rattle.replica_model.specs.Laws.{IsGreatest};
ghost use Rattle.replica_log.specs.Window.{base_index, last_index};
ghost use Rattle.promise_rules.specs.Raising.{enough_by, is_settled_by, is_of_term as is_of_term_at, passes};

use replica_log::{Configs, Log};

/// The greatest index above `had` and up to `top` for which the marks are enough, with an entry of the term where one
/// is given; or `had` where there is none.
///
/// Indices between two changes of the configuration share it, and by its sorted marks they are enough up to one index
/// and no further. So no index is tried by itself but for its term.
pub fn greatest_enough(
    log: &Log,
    term: Option<u64>,
    marks: &[(u32, u64)],
    had: u64,
    top: u64,
) -> u64
    requires had { base_index log.now ≤ had }
    requires top { top ≤ last_index log.now }
    ensures greatest { result ≡ greatest_upto (passes log.now term (mark_of marks.now)) had top }
    ensures least { had ≤ result }
    ensures most { result ≤ max had top }
{
    let mut top = top;
    while top > had {
        match search_stretch(log, term, marks, had, top) {
            Ok(found) => return found,
            Err(below) => top = below,
        }
    }
    had
}

/// Searches the indices up to `top` at which one configuration stands: `Ok` is the greatest that passes, `Err` the index
/// below them all where none does.
fn search_stretch(
    log: &Log,
    term: Option<u64>,
    marks: &[(u32, u64)],
    had: u64,
    top: u64,
) -> Result<u64, u64>
    requires had { base_index log.now ≤ had }
    requires less { had < top }
    requires top { top ≤ last_index log.now }
    ensures found { IfOk result (λ i. i ≡ greatest_upto (passes log.now term (mark_of marks.now)) had top) }
    ensures within { IfOk result (λ i. (had < i) × (i ≤ top)) }
    ensures below { IfErr result (λ i. greatest_upto (passes log.now term (mark_of marks.now)) had top
        ≡ greatest_upto (passes log.now term (mark_of marks.now)) had i) }
    ensures lower { IfErr result (λ i. (had ≤ i) × (i < top)) }
{
    let configs = log.configs_to(top);
    let below = configs.newest_index.max(had + 1) - 1;
    let reached = reach(&configs, log.committed(), marks).min(top);
    let found = last_of_term(log, term, below, reached);
    if found > below { Ok(found) } else { Err(below) }
}

/// The marks are enough for an index at which these configurations stand, where it is at most this one. Index 0 is
/// always reached.
fn reach(configs: &Configs, committed: u64, marks: &[(u32, u64)]) -> u64
    ensures { (i : ℕ) → 1 ≤ i → enough_by configs.now committed (mark_of marks.now) i ≡ nat_le i result }
{
    if !is_settled(configs, committed, marks) {
        return 0;
    }
    configs.newest.greatest_met(marks)
}

/// The newest configuration is committed, or a quorum of the one before it reaches the newest one's index.
fn is_settled(configs: &Configs, committed: u64, marks: &[(u32, u64)]) -> bool
    ensures { result ≡ is_settled_by configs.now committed (mark_of marks.now) }
{
    configs.newest_index <= committed || configs.older.greatest_met(marks) >= configs.newest_index
}

/// The greatest index above `had` and up to `top` with an entry of the term, or `had`.
fn last_of_term(log: &Log, term: Option<u64>, had: u64, top: u64) -> u64
    ensures { IsGreatest (is_of_term_at log.now term) had top result }
{
    let mut index = top;
    while index > had {
        if is_of_term(log, term, index) {
            return index;
        }
        index -= 1;
    }
    had
}

/// Whether the entry at an index is of the term, where one is given.
fn is_of_term(log: &Log, term: Option<u64>, index: u64) -> bool
    ensures { result ≡ is_of_term_at log.now term index }
{
    match term {
        Some(term) => log.term_at(index) == Some(term),
        None => true,
    }
}
