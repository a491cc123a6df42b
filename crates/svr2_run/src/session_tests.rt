use crate::{Status, run};
use group_world::LocalField;
use std::test::Fail;
use svr_base::{MemSink, MemSource};

/// A Begin of one voter, and a Tick.
const FRAMES: &[u8] = b"\0\0\0\x0f\x01\0\0\0\x01\0\0\0\0\x64\x01\0\0\0\x01\0\0\0\x01\x03";

/// An empty batch, and one that tells the lead and the commit of its Noop.
const BATCHES: &[u8] =
    b"\0\0\0\0\0\0\0\x23\x01\0\0\0\x08\0\0\0\0\0\0\0\x01\x05\0\0\0\x11\0\0\0\0\0\0\0\x01\0\0\0\0\0\0\0\x01\0";

#[test]
fn one_enclave_is_served(rt: HostRuntime) -> Result<(), Fail> {
    let mut words = Vec::new(rt.alloc());
    words.push(String::from_str(rt.alloc(), "serve")?)?;
    let frames = Vec::from_slice(rt.alloc(), FRAMES)?;
    let mut source = MemSource::new(frames, 3, Vec::new(rt.alloc()));
    let mut sink = MemSink::new(rt.alloc(), 100, Vec::new(rt.alloc()))?;
    let field = LocalField::new(rt.alloc());
    let (status, _field) = run(rt.alloc(), words.as_slice(), &mut source, &mut sink, field);
    assert_eq!(rt; status, Status::Done);
    assert_eq!(rt; sink.taken(), BATCHES);
    Ok(())
}
