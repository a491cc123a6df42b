use crate::table_tests::{command_row, outcome};
use std::test::Fail;

#[test]
fn a_drill_tells_what_its_seed_came_to(rt: HostRuntime) -> Result<(), Fail> {
    let rows = [
        // What stands in the source is not read.
        command_row(
            "drill --seed 7 --clients 10",
            "tick,1\n",
            0,
            "drill,7,10\nevents,852\nmessages,768\nanswers,30\nstored,10\nrecovered,7\nwrongpin,1\ndeleted,2\nhalts,0\nlog,31\nrollbacks,within\ntrace,e1fe9bc1b9a55043a1759ee9ba881bbeabddc43574ab55c969e5f5271931db34\n",
        ),
        command_row("drill --seed 7 --clients 0", "", 2, ""),
        command_row("drill --seed 7 --clients 2001", "", 2, ""),
        command_row("drill --seed 07 --clients 1", "", 2, ""),
        command_row("drill --seed 18446744073709551616 --clients 1", "", 2, ""),
        command_row("drill --seed 7", "", 2, ""),
        command_row("drill --clients 1", "", 2, ""),
    ];
    for row in &rows {
        let (status, written) = outcome(rt.alloc(), row)?;
        assert_eq!(rt; status.code(), row.code);
        assert_eq!(rt; written.as_slice(), row.written.as_bytes());
    }
    Ok(())
}
