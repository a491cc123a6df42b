//! Small driven schedules, through the top call.

use crate::table_tests::{command_row, outcome};
use std::test::Fail;

/// Of the one voter, what a client that recovers nothing brings about.
const MISSING: &str = "\
event,1,begin,0,100,1
event,2,want,00000000000000000000000000000001,recover,1111111111111111111111111111111111111111111111111111111111111111
event,3,tick,1
lead,1,1
commit,1,1,1,noop
event,4,say,00000000000000000000000000000001,1
commit,1,2,1,ask,00000000000000000000000000000001,1,1a220a201111111111111111111111111111111111111111111111111111111111111111
answer,1,1,00000000000000000000000000000001,1,outcome,2,done,12020802
event,5,hear,00000000000000000000000000000001,1
client,00000000000000000000000000000001,missing
log,2
rollbacks,within
end,5,0,1
";

#[test]
fn clients_are_driven(rt: HostRuntime) -> Result<(), Fail> {
    let rows = [
        command_row(
            "drive",
            "begin,0,100,1\nwant,00000000000000000000000000000001,recover,1111111111111111111111111111111111111111111111111111111111111111\n",
            0,
            MISSING,
        ),
        // nothing is in flight
        command_row(
            "drive",
            "begin,0,100,1\nagain,00000000000000000000000000000001\n",
            0,
            "event,1,begin,0,100,1\nlog,0\nrollbacks,within\nend,1,0,0\n",
        ),
        command_row(
            "drive",
            "again,00000000000000000000000000000001\n",
            3,
            "stopped,schedule,1,nobegin,0\n",
        ),
        // it is a word of driven schedules alone
        command_row(
            "replay",
            "begin,0,100,1\nagain,00000000000000000000000000000001\n",
            3,
            "event,1,begin,0,100,1\nstopped,schedule,2,word,1\n",
        ),
        command_row("drive --turns 1", "", 2, ""),
    ];
    for row in &rows {
        let (status, written) = outcome(rt.alloc(), row)?;
        assert_eq!(rt; status.code(), row.code);
        assert_eq!(rt; written.as_slice(), row.written.as_bytes());
    }
    Ok(())
}
