use crate::{Config, ConfigFault};
use std::test::Fail;

#[test]
fn quorums_of_given_sizes(rt: HostRuntime) -> Result<(), Fail> {
    let all = [
        1, 2, 3, 4, 5, 6, 7, 8, 9, 10, 11, 12, 13, 14, 15, 16, 17, 18, 19, 20, 21, 22, 23, 24, 25,
        26, 27, 28, 29, 30, 31,
    ];
    assert_eq!(rt; Config::new(&all[..1], 0)?.quorum(), 1);
    assert_eq!(rt; Config::new(&all[..3], 0)?.quorum(), 2);
    assert_eq!(rt; Config::new(&all[..4], 1)?.quorum(), 4);
    assert_eq!(rt; Config::new(&all[..5], 1)?.quorum(), 4);
    assert_eq!(rt; Config::new(&all[..6], 2)?.quorum(), 6);
    assert_eq!(rt; Config::new(&all[..7], 1)?.quorum(), 5);
    assert_eq!(rt; Config::new(&all, 15)?.quorum(), 31);
    Ok(())
}

#[test]
fn what_a_quorum_has_reached(rt: HostRuntime) -> Result<(), Fail> {
    let config = Config::new(&[5, 3, 1, 2, 4], 1)?;
    assert_eq!(rt; config.greatest_met(&[(1, 9), (2, 7), (3, 7), (4, 3)]), 3);
    assert!(rt; config.met(&[4, 9, 1, 2, 3]));
    assert!(rt; !config.met(&[1, 1, 2, 3, 9]));
    Ok(())
}

#[test]
fn one_voter_more_or_less(rt: HostRuntime) -> Result<(), Fail> {
    let three = Config::new(&[7, 2, 65_535], 1)?;
    assert_eq!(rt; three.voters(), [2, 7, 65_535].as_slice());
    assert_eq!(rt; three.margin(), 1);
    assert!(rt; three.holds(7) && !three.holds(3));
    assert_eq!(rt; three.with(3)?.voters(), [2, 3, 7, 65_535].as_slice());
    assert_eq!(rt;
        three.with(3)?.without(7)?.voters(),
        [2, 3, 65_535].as_slice()
    );
    assert_eq!(rt; three.with_margin(0)?.quorum(), 2);
    assert_eq!(rt; three.without(7), Err(ConfigFault::TooFew(2)));
    assert_eq!(rt; three.with(7), Err(ConfigFault::Double(7)));
    assert_eq!(rt; three.with(65_536), Err(ConfigFault::BadId(65_536)));
    assert_eq!(rt; Config::new(&[0; 32], 0), Err(ConfigFault::TooMany(32)));
    Ok(())
}
