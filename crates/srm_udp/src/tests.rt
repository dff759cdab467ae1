//! Which failure is noted as the first. Who is no wire can't note one, so these stand inside.

use crate::{FirstFailure, WireFailure};
use srm_names::Member;
use std::io;
use std::io::ErrorKind;
use std::net::{Ipv4Addr, SocketAddr};
use std::test::Fail;

/// Some port of this machine.
fn local() -> SocketAddr {
    SocketAddr::from((Ipv4Addr::LOCALHOST, 0))
}

#[test]
fn the_first_failure_is_noted(rt: HostRuntime) -> Result<(), Fail> {
    let (own, other) = (local(), SocketAddr::from((Ipv4Addr::LOCALHOST, 9)));
    let failure = FirstFailure::new(own, [own, other].to_vec(rt.alloc())?);
    let to = Member::new(1).ok_or("a member")?;
    // What is lost is no failure.
    failure.note_receive(&io::Error::from_raw_os_error(111));
    failure.note_send(to, &io::Error::from_raw_os_error(113));
    assert_eq!(rt; failure.first(), None);
    failure.note_send(to, &io::Error::from_raw_os_error(22));
    failure.note_receive(&io::Error::from_raw_os_error(9));
    let sending = WireFailure::Send(other, ErrorKind::InvalidInput);
    assert_eq!(rt; failure.first(), Some(sending));
    let text = format!(in rt.alloc(); "{sending}")?;
    assert_eq!(rt;
        text.as_str(),
        "cannot send to 127.0.0.1:9: invalid input parameter"
    );
    Ok(())
}

#[test]
fn a_receive_that_fails_is_noted(rt: HostRuntime) -> Result<(), Fail> {
    let failure = FirstFailure::new(local(), Vec::new(rt.alloc()));
    failure.note_receive(&io::Error::from_raw_os_error(12));
    let receiving = WireFailure::Receive(local(), ErrorKind::OutOfMemory);
    assert_eq!(rt; failure.first(), Some(receiving));
    let text = format!(in rt.alloc(); "{receiving}")?;
    assert_eq!(rt;
        text.as_str(),
        "cannot receive at 127.0.0.1:0: out of memory"
    );
    Ok(())
}
