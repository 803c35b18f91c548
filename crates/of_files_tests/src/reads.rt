use of_calls::ScriptFault;
use of_client::ClientCall;
use of_files::{Fault, given_up, read_calls, read_image, read_whole, refused, write_whole};
use of_refusal::Refusal;
use std::alloc::Global;
use std::test::Fail;

/// What of a file is read as its image.
fn image_in(alloc: Global, text: &[u8]) -> Option<Vec<u8>> {
    let mut file = text;
    read_image(alloc, &mut file).ok()
}

#[test]
fn files_are_read(rt: HostRuntime) {
    let mut file = b"f1 08".as_slice();
    let whole = read_whole(rt.alloc(), &mut file).unwrap_or(Vec::new(rt.alloc()));
    assert_eq!(rt; whole.as_slice(), b"f1 08".as_slice());
    let image = image_in(rt.alloc(), b"f1 08\n0A").unwrap_or(Vec::new(rt.alloc()));
    assert_eq!(rt; image.as_slice(), b"\xf1\x08\x0a".as_slice());
    let image = image_in(rt.alloc(), b"\xf1\x08\x0a").unwrap_or(Vec::new(rt.alloc()));
    assert_eq!(rt; image.as_slice(), b"\xf1\x08\x0a".as_slice());
}

#[test]
fn calls_are_read(rt: HostRuntime) {
    let mut file = b"peer d0000000\n".as_slice();
    let calls = read_calls(rt.alloc(), &mut file).unwrap_or(Vec::new(rt.alloc()));
    assert!(rt; matches!(calls.as_slice(), [ClientCall::Peer(_)]));
}

#[test]
fn files_are_written(rt: HostRuntime) -> Result<(), Fail> {
    let mut out = Vec::new(rt.alloc());
    assert!(rt; write_whole(&mut out, b"abc").is_ok());
    assert_eq!(rt; out.as_slice(), b"abc".as_slice());
    Ok(())
}

#[test]
fn refusals_are_faults(rt: HostRuntime) {
    assert!(rt; matches!(refused(7, Refusal::ImageTooLong), Fault::TooLong(7)));
    assert!(rt;
        matches!(
            given_up(ScriptFault::NoItem(3)),
            Fault::GivenUp(ScriptFault::NoItem(3))
        )
    );
}
