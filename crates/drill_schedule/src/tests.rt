use crate::drill_events;
use std::test::Fail;
use values::{ClientId, Event, Hash, Want};

/// Client 2 of a drill.
const SECOND: ClientId = ClientId([0, 0, 0, 0, 0, 0, 0, 0, 0, 0, 0, 0, 0, 0, 0, 2]);

#[test]
fn the_drill_of_seed_7_begins_so(rt: HostRuntime) -> Result<(), Fail> {
    let events = drill_events(rt.alloc(), 7, 5)?;
    let events = events.as_slice();
    assert_eq!(rt; events.len(), 60);
    assert_eq!(rt; events.get(1), Some(&Event::Tick { replica: 1 }));
    assert_eq!(rt; events.get(2), Some(&Event::Settle { most: 32 }));
    let say = Event::Say {
        client: SECOND,
        replica: 1,
    };
    assert_eq!(rt; events.get(11), Some(&say));
    let hear = Event::Hear {
        client: SECOND,
        answer: 4,
    };
    assert_eq!(rt; events.get(16), Some(&hear));
    Ok(())
}

#[test]
fn words_of_seed_7_say_what_is_wanted(rt: HostRuntime) -> Result<(), Fail> {
    let events = drill_events(rt.alloc(), 7, 5)?;
    let events = events.as_slice();
    let right = Want::Recover { pin: Hash([3; 32]) };
    let expected = Event::Want {
        client: SECOND,
        want: right,
    };
    assert_eq!(rt; events.get(42), Some(&expected));
    // The fifth word is 3 modulo 4.
    assert_eq!(rt; events.get(54), Some(&Event::Tick { replica: 1 }));
    assert_eq!(rt; events.get(55), Some(&Event::Settle { most: 8 }));
    Ok(())
}
