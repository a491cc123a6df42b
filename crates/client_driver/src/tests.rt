//! Whom a driver asks after each thing that it sees, and how many turns a want has.

use crate::{Driver, MAX_TURNS, Seen, Turn};

#[test]
fn each_turn_follows_what_was_seen(rt: HostRuntime) {
    let mut driver = Driver::new(2);
    assert_eq!(rt; driver.next_turn(), None);
    driver.begin_want();
    let first = Turn {
        target: 2,
        wake: true,
    };
    assert_eq!(rt; driver.next_turn(), Some(first));
    for (seen, target, wake) in [
        (Seen::Silence, 5, true),
        (Seen::Other, 1, true),
        (Seen::Led(5), 5, false),
        (Seen::Progress, 5, false),
        // the leader that was named does not run
        (Seen::Led(4), 1, true),
    ] {
        driver.seen(seen, &[1, 2, 5]);
        assert_eq!(rt; driver.next_turn(), Some(Turn { target, wake }));
    }
    driver.seen(Seen::Silence, &[]);
    let same = Turn {
        target: 1,
        wake: true,
    };
    assert_eq!(rt; driver.next_turn(), Some(same));
    driver.seen(Seen::Report, &[1, 2, 5]);
    assert_eq!(rt; driver.next_turn(), None);
    driver.begin_want();
    let kept = Turn {
        target: 1,
        wake: false,
    };
    assert_eq!(rt; driver.next_turn(), Some(kept));
}

#[test]
fn a_want_has_its_turns(rt: HostRuntime) {
    let mut driver = Driver::new(1);
    driver.begin_want();
    for _ in 0..MAX_TURNS {
        assert!(rt; driver.next_turn().is_some());
        driver.seen(Seen::Silence, &[1]);
    }
    assert_eq!(rt; driver.next_turn(), None);
}
