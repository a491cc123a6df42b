//! Each public call on its happy path, and the rows of ballots.

use crate::{Ballot, LastEntry, Votes, judge_ask, stand};
use group_quorum::Config;
use replica_log::Configs;
use std::test::Fail;

fn last_entry(index: u64, term: u64) -> LastEntry {
    LastEntry { index, term }
}

#[test]
fn the_later_term_wins(rt: HostRuntime) -> Result<(), Fail> {
    let mut ballot = Ballot { term: 5, vote: 0 };
    let own = last_entry(3, 1);
    assert!(rt; judge_ask(&mut ballot, own, 2, last_entry(2, 2)));
    assert_eq!(rt; ballot, Ballot { term: 5, vote: 2 });
    assert!(rt; !judge_ask(&mut ballot, own, 3, last_entry(2, 2)));
    assert!(rt; judge_ask(&mut ballot, own, 2, last_entry(3, 1)));
    stand(&mut ballot, 1);
    assert_eq!(rt; ballot, Ballot { term: 6, vote: 1 });
    Ok(())
}

#[test]
fn an_older_term_loses(rt: HostRuntime) -> Result<(), Fail> {
    let mut ballot = Ballot { term: 5, vote: 0 };
    let own = last_entry(3, 2);
    assert!(rt; !judge_ask(&mut ballot, own, 2, last_entry(9, 1)));
    assert!(rt; !judge_ask(&mut ballot, own, 2, last_entry(2, 2)));
    assert_eq!(rt; ballot, Ballot { term: 5, vote: 0 });
    Ok(())
}

#[test]
fn a_change_needs_both_configurations(rt: HostRuntime) -> Result<(), Fail> {
    let configs = Configs {
        newest: Config::new(&[1, 2, 3, 4], 0)?,
        newest_index: 7,
        older: Config::new(&[1, 5, 6], 0)?,
    };
    let mut votes = Votes::new(1);
    assert!(rt; !votes.win(&configs, 6));
    assert!(rt; !votes.count_vote(2, &configs, 6));
    assert!(rt; !votes.count_vote(9, &configs, 6));
    assert!(rt; !votes.count_vote(4, &configs, 6));
    let mut committed = votes;
    assert!(rt; committed.count_vote(4, &configs, 7));
    assert!(rt; votes.count_vote(6, &configs, 6));
    assert!(rt; votes.win(&configs, 6));
    Ok(())
}
