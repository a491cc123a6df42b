//! Enclaves that are handed contents, against worked bytes.
use crate::{Enclave, EnclaveFault, HostFault};
use std::alloc::Global;
use std::test::Fail;

// Replica 1 begins alone: margin 0, at most 100 rows.
const BEGIN: [u8; 15] = [1, 0, 0, 0, 1, 0, 0, 0, 0, 100, 1, 0, 0, 0, 1];
// Client 0 asks for a delete, as its number 1.
const ASK: [u8; 27] = [
    5, 0, 0, 0, 0, 0, 0, 0, 0, 0, 0, 0, 0, 0, 0, 0, 0, 0, 0, 0, 0, 0, 0, 0, 1, 0x22, 0,
];

/// The batch that a content leaves.
fn batch(alloc: Global, enclave: &mut Enclave, content: &[u8]) -> Result<Vec<u8>, EnclaveFault> {
    let mut out = Vec::new(alloc);
    enclave.call(content, &mut out)?;
    Ok(out)
}

/// The fault of a content.
fn fault(alloc: Global, enclave: &mut Enclave, content: &[u8]) -> Option<EnclaveFault> {
    batch(alloc, enclave, content).err()
}

#[test]
fn a_voter_alone_leads_at_its_first_tick(rt: HostRuntime) -> Result<(), Fail> {
    let mut enclave = Enclave::start(rt.alloc(), &BEGIN)?;
    let out = batch(rt.alloc(), &mut enclave, &[3])?;
    // It leads in term 1, and has committed its first entry, which is empty.
    let leads = b"\x01\0\0\0\x08\0\0\0\0\0\0\0\x01";
    let commits = b"\x05\0\0\0\x11\0\0\0\0\0\0\0\x01\0\0\0\0\0\0\0\x01\0";
    assert!(rt; out.as_slice().starts_with(leads.as_slice()));
    assert!(rt; out.as_slice().ends_with(commits.as_slice()));
    assert_eq!(rt; out.len(), leads.len() + commits.len());
    Ok(())
}

#[test]
fn a_saved_state_is_put_back(rt: HostRuntime) -> Result<(), Fail> {
    let mut enclave = Enclave::start(rt.alloc(), &BEGIN)?;
    batch(rt.alloc(), &mut enclave, &[3])?;
    let saved = batch(rt.alloc(), &mut enclave, &[9])?;
    assert_eq!(rt; saved.as_slice(), b"\x08\0\0\0\x04\0\0\0\x01".as_slice());
    let asked = batch(rt.alloc(), &mut enclave, &ASK)?;
    assert!(rt; !asked.is_empty());
    let rolled = batch(rt.alloc(), &mut enclave, &[10, 0, 0, 0, 1])?;
    assert!(rt; rolled.is_empty());
    let again = batch(rt.alloc(), &mut enclave, &ASK)?;
    assert_eq!(rt; again.as_slice(), asked.as_slice());
    // There is no state 7.
    let refused = batch(rt.alloc(), &mut enclave, &[10, 0, 0, 0, 7])?;
    let nostate = b"\x09\0\0\0\x11\x0a\0\0\0\0\0\0\0\x07\0\0\0\0\0\0\0\0";
    assert_eq!(rt; refused.as_slice(), nostate.as_slice());
    Ok(())
}

#[test]
fn a_frame_that_is_not_taken_is_refused(rt: HostRuntime) -> Result<(), Fail> {
    let mut enclave = Enclave::start(rt.alloc(), &BEGIN)?;
    let refusals: [(&[u8], u8, u8); 3] = [
        // Cut, for replica 2, and from replica 2, which is not linked.
        (b"\x04\x63", 12, 0),
        (b"\x04\0\0\0\x02\0\0\0\x02", 11, 2),
        (b"\x04\0\0\0\x02\0\0\0\x01", 8, 2),
    ];
    for (content, code, number) in refusals.iter() {
        let refused = batch(rt.alloc(), &mut enclave, content)?;
        let item = [
            9, 0, 0, 0, 17, *code, 0, 0, 0, 0, 0, 0, 0, *number, 0, 0, 0, 0, 0, 0, 0, 0,
        ];
        assert_eq!(rt; refused.as_slice(), item.as_slice());
    }
    let linked = batch(rt.alloc(), &mut enclave, &[11, 0, 0, 0, 2])?;
    assert!(rt; linked.is_empty());
    // An empty message is none.
    let refused = batch(rt.alloc(), &mut enclave, b"\x04\0\0\0\x02\0\0\0\x01")?;
    assert!(rt;
        refused
            .as_slice()
            .starts_with(b"\x09\0\0\0\x11\x0c".as_slice())
    );
    let ticked = batch(rt.alloc(), &mut enclave, &[3])?;
    assert!(rt; !ticked.is_empty());
    Ok(())
}

#[test]
fn each_fault_has_its_name(rt: HostRuntime) -> Result<(), Fail> {
    let unknown = EnclaveFault::Frame(HostFault::Kind(99));
    assert_eq!(rt; Enclave::start(rt.alloc(), &[99]).err(), Some(unknown));
    assert_eq!(rt;
        Enclave::start(rt.alloc(), &[3]).err(),
        Some(EnclaveFault::NotBegun)
    );
    let mut enclave = Enclave::start(rt.alloc(), b"\x02\0\0\0\x02\x01\0\0\0\x01")?;
    assert_eq!(rt;
        fault(rt.alloc(), &mut enclave, &BEGIN),
        Some(EnclaveFault::BegunAgain)
    );
    assert_eq!(rt; fault(rt.alloc(), &mut enclave, &[99]), Some(unknown));
    assert_eq!(rt; fault(rt.alloc(), &mut enclave, &[3]), None);
    Ok(())
}
