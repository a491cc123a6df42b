use crate::table_tests::{command_row, outcome};
use std::test::Fail;

#[test]
fn a_group_plays_what_its_host_does(rt: HostRuntime) -> Result<(), Fail> {
    let rows = [
        command_row(
            "replay",
            "begin,0,100,1\ntick,1\nstart,2\nadmit,1,2\njoin,1,9\nremove,1,5\nroll,1,3\ndeliver,1\ntick,9\nstart,2\n",
            0,
            "event,1,begin,0,100,1\nevent,2,tick,1\nlead,1,1\ncommit,1,1,1,noop\nevent,3,start,2\nevent,4,admit,1,2\nrefused,notcaughtup,0,1\nevent,5,join,1,9\nrefused,nolink,9\nevent,6,remove,1,5\nrefused,notvoter,5\nevent,7,roll,1,3\nrefused,nostate,3\nevent,8,deliver,1\nrefused,nomessage,1\nevent,9,tick,9\nrefused,notrunning,9\nevent,10,start,2\nrefused,alreadystarted,2\nlog,1\nrollbacks,within\nend,10,0,0\n",
        ),
        command_row(
            "replay",
            "begin,0,100,1\ntick,1\nstart,2\njoin,1,2\nsave,1\nsave,2\ndeliver,1\ndeliver,2\nroll,1,1\ntick,1\n",
            0,
            "event,1,begin,0,100,1\nevent,2,tick,1\nlead,1,1\ncommit,1,1,1,noop\nevent,3,start,2\nevent,4,join,1,2\nsent,1,1,2,part,1,1,0,1,0\nevent,5,save,1\nsaved,1,1\nevent,6,save,2\nsaved,2,1\nevent,7,deliver,1\ntaken,2,1,b976e321401b66f36561506966de59703464a9ebff6cd6d584a174a14c409ab1\nsent,2,2,1,parttaken,1,1,1\nevent,8,deliver,2\nsent,3,1,2,append,1,1,0,1,1\nevent,9,roll,1,1\nevent,10,tick,1\nsent,4,1,2,part,1,1,0,1,0\nlog,1\nrollbacks,exceeded\nend,10,4,0\n",
        ),
        command_row(
            "replay",
            "begin,0,100,1,2,3\ntick,1\nsettle,16\nsave,2\nroll,2,1\nroll,2,1\n",
            0,
            "event,1,begin,0,100,1,2,3\nevent,2,tick,1\nsent,1,1,2,askvote,1,0,0\nsent,2,1,3,askvote,1,0,0\nevent,3,deliver,1\nsent,3,2,1,vote,1,1\nevent,4,deliver,2\nsent,4,3,1,vote,1,1\nevent,5,deliver,3\nlead,1,1\nsent,5,1,2,append,1,0,1,0,0\nsent,6,1,3,append,1,0,1,0,0\nevent,6,deliver,4\nevent,7,deliver,5\nsent,7,2,1,accepted,1,1,0\nevent,8,deliver,6\nsent,8,3,1,accepted,1,1,0\nevent,9,deliver,7\nsent,9,1,2,append,1,1,0,1,0\nsent,10,1,3,append,1,1,0,1,0\nevent,10,deliver,8\nevent,11,deliver,9\nsent,11,2,1,accepted,1,1,1\nevent,12,deliver,10\nsent,12,3,1,accepted,1,1,1\nevent,13,deliver,11\ncommit,1,1,1,noop\nsent,13,1,2,append,1,1,0,1,1\nsent,14,1,3,append,1,1,0,1,1\nevent,14,deliver,12\nevent,15,deliver,13\ncommit,2,1,1,noop\nsent,15,2,1,accepted,1,1,1\nevent,16,deliver,14\ncommit,3,1,1,noop\nsent,16,3,1,accepted,1,1,1\nevent,17,deliver,15\nevent,18,deliver,16\nevent,19,save,2\nsaved,2,1\nevent,20,roll,2,1\nevent,21,roll,2,1\nlog,1\nrollbacks,exceeded\nend,21,16,0\n",
        ),
        command_row(
            "replay",
            "begin,1,100,1,2,3,4,5\ntick,1\nsettle,32\nsave,2\nask,1,00000000000000000000000000000001,1,12360a10aaaaaaaaaaaaaaaaaaaaaaaaaaaaaaaa122011111111111111111111111111111111111111111111111111111111111111111803\nsettle,24\ntick,2\nsettle,4\nroll,2,1\ntick,2\ndeliver,61\ndeliver,62\ndeliver,63\ndeliver,69\ndeliver,70\nask,1,00000000000000000000000000000001,2,2200\n",
            0,
            "event,1,begin,1,100,1,2,3,4,5\nevent,2,tick,1\nsent,1,1,2,askvote,1,0,0\nsent,2,1,3,askvote,1,0,0\nsent,3,1,4,askvote,1,0,0\nsent,4,1,5,askvote,1,0,0\nevent,3,deliver,1\nsent,5,2,1,vote,1,1\nevent,4,deliver,2\nsent,6,3,1,vote,1,1\nevent,5,deliver,3\nsent,7,4,1,vote,1,1\nevent,6,deliver,4\nsent,8,5,1,vote,1,1\nevent,7,deliver,5\nevent,8,deliver,6\nevent,9,deliver,7\nlead,1,1\nsent,9,1,2,append,1,0,1,0,0\nsent,10,1,3,append,1,0,1,0,0\nsent,11,1,4,append,1,0,1,0,0\nsent,12,1,5,append,1,0,1,0,0\nevent,10,deliver,8\nevent,11,deliver,9\nsent,13,2,1,accepted,1,1,0\nevent,12,deliver,10\nsent,14,3,1,accepted,1,1,0\nevent,13,deliver,11\nsent,15,4,1,accepted,1,1,0\nevent,14,deliver,12\nsent,16,5,1,accepted,1,1,0\nevent,15,deliver,13\nevent,16,deliver,14\nevent,17,deliver,15\nsent,17,1,2,append,1,1,0,1,0\nsent,18,1,3,append,1,1,0,1,0\nsent,19,1,4,append,1,1,0,1,0\nsent,20,1,5,append,1,1,0,1,0\nevent,18,deliver,16\nevent,19,deliver,17\nsent,21,2,1,accepted,1,1,1\nevent,20,deliver,18\nsent,22,3,1,accepted,1,1,1\nevent,21,deliver,19\nsent,23,4,1,accepted,1,1,1\nevent,22,deliver,20\nsent,24,5,1,accepted,1,1,1\nevent,23,deliver,21\nevent,24,deliver,22\nevent,25,deliver,23\ncommit,1,1,1,noop\nsent,25,1,2,append,1,1,0,1,1\nsent,26,1,3,append,1,1,0,1,1\nsent,27,1,4,append,1,1,0,1,1\nsent,28,1,5,append,1,1,0,1,1\nevent,26,deliver,24\nevent,27,deliver,25\ncommit,2,1,1,noop\nsent,29,2,1,accepted,1,1,1\nevent,28,deliver,26\ncommit,3,1,1,noop\nsent,30,3,1,accepted,1,1,1\nevent,29,deliver,27\ncommit,4,1,1,noop\nsent,31,4,1,accepted,1,1,1\nevent,30,deliver,28\ncommit,5,1,1,noop\nsent,32,5,1,accepted,1,1,1\nevent,31,deliver,29\nevent,32,deliver,30\nevent,33,deliver,31\nevent,34,deliver,32\nevent,35,save,2\nsaved,2,1\nevent,36,ask,1,00000000000000000000000000000001,1,12360a10aaaaaaaaaaaaaaaaaaaaaaaaaaaaaaaa122011111111111111111111111111111111111111111111111111111111111111111803\nsent,33,1,2,append,1,1,1,1,1\nsent,34,1,3,append,1,1,1,1,1\nsent,35,1,4,append,1,1,1,1,1\nsent,36,1,5,append,1,1,1,1,1\nevent,37,deliver,33\nsent,37,2,1,accepted,1,2,1\nevent,38,deliver,34\nsent,38,3,1,accepted,1,2,1\nevent,39,deliver,35\nsent,39,4,1,accepted,1,2,1\nevent,40,deliver,36\nsent,40,5,1,accepted,1,2,1\nevent,41,deliver,37\nevent,42,deliver,38\nevent,43,deliver,39\nsent,41,1,2,append,1,2,0,2,1\nsent,42,1,3,append,1,2,0,2,1\nsent,43,1,4,append,1,2,0,2,1\nsent,44,1,5,append,1,2,0,2,1\nevent,44,deliver,40\nevent,45,deliver,41\nsent,45,2,1,accepted,1,2,2\nevent,46,deliver,42\nsent,46,3,1,accepted,1,2,2\nevent,47,deliver,43\nsent,47,4,1,accepted,1,2,2\nevent,48,deliver,44\nsent,48,5,1,accepted,1,2,2\nevent,49,deliver,45\nevent,50,deliver,46\nevent,51,deliver,47\ncommit,1,2,1,ask,00000000000000000000000000000001,1,12360a10aaaaaaaaaaaaaaaaaaaaaaaaaaaaaaaa122011111111111111111111111111111111111111111111111111111111111111111803\nanswer,1,1,00000000000000000000000000000001,1,outcome,2,done,0a020801\nsent,49,1,2,append,1,2,0,2,2\nsent,50,1,3,append,1,2,0,2,2\nsent,51,1,4,append,1,2,0,2,2\nsent,52,1,5,append,1,2,0,2,2\nevent,52,deliver,48\nevent,53,deliver,49\ncommit,2,2,1,ask,00000000000000000000000000000001,1,12360a10aaaaaaaaaaaaaaaaaaaaaaaaaaaaaaaa122011111111111111111111111111111111111111111111111111111111111111111803\nsent,53,2,1,accepted,1,2,2\nevent,54,deliver,50\ncommit,3,2,1,ask,00000000000000000000000000000001,1,12360a10aaaaaaaaaaaaaaaaaaaaaaaaaaaaaaaa122011111111111111111111111111111111111111111111111111111111111111111803\nsent,54,3,1,accepted,1,2,2\nevent,55,deliver,51\ncommit,4,2,1,ask,00000000000000000000000000000001,1,12360a10aaaaaaaaaaaaaaaaaaaaaaaaaaaaaaaa122011111111111111111111111111111111111111111111111111111111111111111803\nsent,55,4,1,accepted,1,2,2\nevent,56,deliver,52\ncommit,5,2,1,ask,00000000000000000000000000000001,1,12360a10aaaaaaaaaaaaaaaaaaaaaaaaaaaaaaaa122011111111111111111111111111111111111111111111111111111111111111111803\nsent,56,5,1,accepted,1,2,2\nevent,57,deliver,53\nevent,58,deliver,54\nevent,59,deliver,55\nevent,60,deliver,56\nevent,61,tick,2\nsent,57,2,1,askvote,2,2,1\nsent,58,2,3,askvote,2,2,1\nsent,59,2,4,askvote,2,2,1\nsent,60,2,5,askvote,2,2,1\nevent,62,deliver,57\nsent,61,1,2,vote,2,1\nevent,63,deliver,58\nsent,62,3,2,vote,2,1\nevent,64,deliver,59\nsent,63,4,2,vote,2,1\nevent,65,deliver,60\nsent,64,5,2,vote,2,1\nevent,66,roll,2,1\nevent,67,tick,2\nsent,65,2,1,askvote,2,1,1\nsent,66,2,3,askvote,2,1,1\nsent,67,2,4,askvote,2,1,1\nsent,68,2,5,askvote,2,1,1\nevent,68,deliver,61\nevent,69,deliver,62\nevent,70,deliver,63\nlead,2,2\nsent,69,2,1,append,2,1,1,1,1\nsent,70,2,3,append,2,1,1,1,1\nsent,71,2,4,append,2,1,1,1,1\nsent,72,2,5,append,2,1,1,1,1\nevent,71,deliver,69\nhalt,1,2,d65ece3d95eaf047ca8b9e931b88f9ca754bd3034377f8ed9b2af30efba7be15,d91f517380d31953df95b5c82963cfb37bb4916f281987020c81259cb4f00210\nevent,72,deliver,70\nhalt,3,2,d65ece3d95eaf047ca8b9e931b88f9ca754bd3034377f8ed9b2af30efba7be15,d91f517380d31953df95b5c82963cfb37bb4916f281987020c81259cb4f00210\nevent,73,ask,1,00000000000000000000000000000001,2,2200\nanswer,2,1,00000000000000000000000000000001,2,halted,2\nlog,2\nrollbacks,within\nend,73,72,2\n",
        ),
    ];
    for row in &rows {
        let (status, written) = outcome(rt.alloc(), row)?;
        assert_eq!(rt; status.code(), row.code);
        assert_eq!(rt; written.as_slice(), row.written.as_bytes());
    }
    Ok(())
}

#[test]
fn a_client_stores_and_asks_for_a_secret(rt: HostRuntime) -> Result<(), Fail> {
    let rows = [command_row(
        "replay",
        "begin,0,100,1\ntick,1\nwant,00000000000000000000000000000001,store,aaaaaaaaaaaaaaaaaaaaaaaaaaaaaaaa,1111111111111111111111111111111111111111111111111111111111111111,3\nsay,00000000000000000000000000000001,1\nhear,00000000000000000000000000000001,1\nsay,00000000000000000000000000000001,1\nhear,00000000000000000000000000000001,2\nwant,00000000000000000000000000000001,recover,2222222222222222222222222222222222222222222222222222222222222222\nsay,00000000000000000000000000000001,1\nhear,00000000000000000000000000000001,3\n",
        0,
        "event,1,begin,0,100,1\nevent,2,tick,1\nlead,1,1\ncommit,1,1,1,noop\nevent,3,want,00000000000000000000000000000001,store,aaaaaaaaaaaaaaaaaaaaaaaaaaaaaaaa,1111111111111111111111111111111111111111111111111111111111111111,3\nevent,4,say,00000000000000000000000000000001,1\ncommit,1,2,1,ask,00000000000000000000000000000001,1,12360a10aaaaaaaaaaaaaaaaaaaaaaaaaaaaaaaa122011111111111111111111111111111111111111111111111111111111111111111803\nanswer,1,1,00000000000000000000000000000001,1,outcome,2,done,0a020801\nevent,5,hear,00000000000000000000000000000001,1\nevent,6,say,00000000000000000000000000000001,1\ncommit,1,3,1,ask,00000000000000000000000000000001,2,2a120a10aaaaaaaaaaaaaaaaaaaaaaaaaaaaaaaa\nanswer,2,1,00000000000000000000000000000001,2,outcome,3,done,22020801\nevent,7,hear,00000000000000000000000000000001,2\nclient,00000000000000000000000000000001,stored\nevent,8,want,00000000000000000000000000000001,recover,2222222222222222222222222222222222222222222222222222222222222222\nevent,9,say,00000000000000000000000000000001,1\ncommit,1,4,1,ask,00000000000000000000000000000001,3,1a220a202222222222222222222222222222222222222222222222222222222222222222\nanswer,3,1,00000000000000000000000000000001,3,outcome,4,done,120408031802\nevent,10,hear,00000000000000000000000000000001,3\nclient,00000000000000000000000000000001,wrongpin,2\nlog,4\nrollbacks,within\nend,10,0,3\n",
    )];
    for row in &rows {
        let (status, written) = outcome(rt.alloc(), row)?;
        assert_eq!(rt; status.code(), row.code);
        assert_eq!(rt; written.as_slice(), row.written.as_bytes());
    }
    Ok(())
}

#[test]
fn a_text_ends_at_a_record_or_at_a_limit(rt: HostRuntime) -> Result<(), Fail> {
    let rows = [
        command_row(
            "replay",
            "begin,1,100,1,2\n",
            3,
            "stopped,schedule,1,toofew,0\n",
        ),
        command_row("replay", "tick,1\n", 3, "stopped,schedule,1,nobegin,0\n"),
        command_row(
            "replay",
            "begin,0,1,1\nstart,2\nstart,3\nstart,4\nstart,5\nstart,6\nstart,7\nstart,8\nstart,9\nstart,10\nstart,11\nstart,12\nstart,13\nstart,14\nstart,15\nstart,16\nstart,17\nstart,18\nstart,19\nstart,20\nstart,21\nstart,22\nstart,23\nstart,24\nstart,25\nstart,26\nstart,27\nstart,28\nstart,29\nstart,30\nstart,31\nstart,32\nstart,33\nstart,34\nstart,35\nstart,36\nstart,37\nstart,38\nstart,39\nstart,40\nstart,41\nstart,42\nstart,43\nstart,44\nstart,45\nstart,46\nstart,47\nstart,48\nstart,49\nstart,50\nstart,51\nstart,52\nstart,53\nstart,54\nstart,55\nstart,56\nstart,57\nstart,58\nstart,59\nstart,60\nstart,61\nstart,62\nstart,63\nstart,64\nstart,65\n",
            7,
            "event,1,begin,0,1,1\nevent,2,start,2\nevent,3,start,3\nevent,4,start,4\nevent,5,start,5\nevent,6,start,6\nevent,7,start,7\nevent,8,start,8\nevent,9,start,9\nevent,10,start,10\nevent,11,start,11\nevent,12,start,12\nevent,13,start,13\nevent,14,start,14\nevent,15,start,15\nevent,16,start,16\nevent,17,start,17\nevent,18,start,18\nevent,19,start,19\nevent,20,start,20\nevent,21,start,21\nevent,22,start,22\nevent,23,start,23\nevent,24,start,24\nevent,25,start,25\nevent,26,start,26\nevent,27,start,27\nevent,28,start,28\nevent,29,start,29\nevent,30,start,30\nevent,31,start,31\nevent,32,start,32\nevent,33,start,33\nevent,34,start,34\nevent,35,start,35\nevent,36,start,36\nevent,37,start,37\nevent,38,start,38\nevent,39,start,39\nevent,40,start,40\nevent,41,start,41\nevent,42,start,42\nevent,43,start,43\nevent,44,start,44\nevent,45,start,45\nevent,46,start,46\nevent,47,start,47\nevent,48,start,48\nevent,49,start,49\nevent,50,start,50\nevent,51,start,51\nevent,52,start,52\nevent,53,start,53\nevent,54,start,54\nevent,55,start,55\nevent,56,start,56\nevent,57,start,57\nevent,58,start,58\nevent,59,start,59\nevent,60,start,60\nevent,61,start,61\nevent,62,start,62\nevent,63,start,63\nevent,64,start,64\nstopped,limit,replicas\n",
        ),
    ];
    for row in &rows {
        let (status, written) = outcome(rt.alloc(), row)?;
        assert_eq!(rt; status.code(), row.code);
        assert_eq!(rt; written.as_slice(), row.written.as_bytes());
    }
    Ok(())
}
