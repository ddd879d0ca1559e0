//! Requests that are taken or refused.

use crate::head_rows::{
    HeadRow, bodies, fields, hosts, lists, origins, processes, queries, start_lines, stops,
    targets, tokens,
};
use beam_http::{Door, PortAccess, request_of};
use std::alloc::{AllocError, Global};
use std::test::*;

/// The door that a row's head comes through.
fn door_of(alloc: Global, row: &HeadRow) -> Result<Door, AllocError> {
    if row.port == 0 {
        return Ok(Door::Socket);
    }
    let token = match row.token {
        "" => None,
        token => Some(Vec::from_slice(alloc, token.as_bytes())?),
    };
    Ok(Door::Port(PortAccess::new(alloc, row.port, token)?))
}

/// The first row whose head gets another answer than the wanted one, with that answer; nothing if there is none.
fn first_miss(alloc: Global, rows: &[HeadRow]) -> Result<String, AllocError> {
    for row in rows {
        let door = door_of(alloc, row)?;
        let answer = request_of(alloc, row.head.as_bytes(), &door)?;
        let text = format!(in alloc; "{answer:?}")?;
        if text.as_str() != row.wanted {
            return format!(in alloc; "{}: {text}", row.title);
        }
    }
    Ok(String::new(alloc))
}

#[test]
fn a_port_asks_for_its_host(rt: HostRuntime) -> Result<(), Fail> {
    assert_eq!(rt; first_miss(rt.alloc(), hosts())?, String::new(rt.alloc()));
    Ok(())
}

#[test]
fn fields_are_read(rt: HostRuntime) -> Result<(), Fail> {
    assert_eq!(rt; first_miss(rt.alloc(), fields())?, String::new(rt.alloc()));
    Ok(())
}

#[test]
fn versions_and_methods_are_read(rt: HostRuntime) -> Result<(), Fail> {
    assert_eq!(rt;
        first_miss(rt.alloc(), start_lines())?,
        String::new(rt.alloc())
    );
    Ok(())
}

#[test]
fn bodies_are_refused(rt: HostRuntime) -> Result<(), Fail> {
    assert_eq!(rt; first_miss(rt.alloc(), bodies())?, String::new(rt.alloc()));
    Ok(())
}

#[test]
fn paths_are_found(rt: HostRuntime) -> Result<(), Fail> {
    assert_eq!(rt; first_miss(rt.alloc(), targets())?, String::new(rt.alloc()));
    Ok(())
}

#[test]
fn tokens_are_compared(rt: HostRuntime) -> Result<(), Fail> {
    assert_eq!(rt; first_miss(rt.alloc(), tokens())?, String::new(rt.alloc()));
    Ok(())
}

#[test]
fn foreign_origins_are_refused(rt: HostRuntime) -> Result<(), Fail> {
    assert_eq!(rt; first_miss(rt.alloc(), origins())?, String::new(rt.alloc()));
    Ok(())
}

#[test]
fn a_stop_needs_its_marker(rt: HostRuntime) -> Result<(), Fail> {
    assert_eq!(rt; first_miss(rt.alloc(), stops())?, String::new(rt.alloc()));
    Ok(())
}

#[test]
fn a_process_is_named(rt: HostRuntime) -> Result<(), Fail> {
    assert_eq!(rt;
        first_miss(rt.alloc(), processes())?,
        String::new(rt.alloc())
    );
    Ok(())
}

#[test]
fn queries_are_read(rt: HostRuntime) -> Result<(), Fail> {
    assert_eq!(rt; first_miss(rt.alloc(), queries())?, String::new(rt.alloc()));
    Ok(())
}

#[test]
fn lists_begin_where_asked(rt: HostRuntime) -> Result<(), Fail> {
    assert_eq!(rt; first_miss(rt.alloc(), lists())?, String::new(rt.alloc()));
    Ok(())
}
