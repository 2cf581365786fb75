ghost use Rattle.std.specs.Prelude.{◌≡◌, ◌≤◌, ◌^◌, length, true, IfOk};
ghost use Rattle.segment.specs.Measure.{AreReadings};
ghost use Rattle.sessions.specs.Events.{IsEvent};

use crate::{Event, Hub, read_script, write_reply};
use expr::Name;
use segment::GREATEST_READING;
use std::alloc::Global;
use std::test::Fail;
use store_file::Store;

/// 32 readings, 0 and 10 in turn.
const READINGS: [i32; 32] = [
    0, 10, 0, 10, 0, 10, 0, 10, 0, 10, 0, 10, 0, 10, 0, 10, 0, 10, 0, 10, 0, 10, 0, 10, 0, 10, 0,
    10, 0, 10, 0, 10,
];

/// Whether all are readings.
fn are_readings(xs: &[i32]) -> bool
    ensures { result ≡ true → AreReadings xs.now }
{
    for x in xs {
        if x.unsigned_abs() > GREATEST_READING {
            return false;
        }
    }
    true
}

/// A hub over the store of these readings, named `x`, with room for so many nodes.
fn hub_of(alloc: Global, limit: u32) -> Result<Hub, Fail>
    requires some { 1 ≤ limit }
    requires few { limit ≤ 2 ^ 24 }
{
    let Ok(mut store) = Store::new(alloc, 0, 0, limit) else {
        return Err(Fail::from("a store"))
    };
    let name = Name::of(b"x").ok_or("a name")?;
    if !are_readings(&READINGS) {
        return Err(Fail::from("readings"));
    }
    let Ok(()) = store.add_series(name, &READINGS) else {
        return Err(Fail::from("a series"))
    };
    let Ok(hub) = Hub::new(alloc, store) else {
        return Err(Fail::from("a hub"))
    };
    Ok(hub)
}

/// The event of a line.
fn event_of(alloc: Global, line: &str) -> Result<Event, Fail>
    requires { length line.now ≤ 2 ^ 24 }
    ensures { IfOk result IsEvent }
{
    let Ok(mut events) = read_script(alloc, line.as_bytes()) else {
        return Err(Fail::from("a script"))
    };
    match events.pop() {
        Some(event) => Ok(event),
        None => Err(Fail::from("an event")),
    }
}

/// The line of what a hub says to the event of a line.
fn said(alloc: Global, hub: &mut Hub, line: &str) -> Result<Vec<u8>, Fail>
    requires { length line.now ≤ 2 ^ 24 }
{
    let event = event_of(alloc, line)?;
    let Ok(reply) = hub.apply(event) else {
        return Err(Fail::from("memory"))
    };
    let mut text = Vec::new(alloc);
    let Ok(()) = write_reply(alloc, &mut text, &reply) else {
        return Err(Fail::from("a line"))
    };
    Ok(text)
}

#[test]
fn a_session_beside_an_append(rt: HostRuntime) -> Result<(), Fail> {
    let mut hub = hub_of(rt.alloc(), 64)?;
    for (line, answer) in [
        ("open 0 319 sum(x)", "opened 0 0 320\n"),
        ("append x 1 2 3 4 5", "appended x 5 37\n"),
        ("step 0", "now 0 0 320\n"),
        ("show 0", "now 0 0 320\n"),
        ("open 1 1000 sum(x)", "opened 1 6 344\n"),
        ("close 0", "closed 0\n"),
        ("step 0", "free 0\n"),
        ("show 0", "free 0\n"),
        ("close 0", "free 0\n"),
        ("save", "saved\n"),
    ] {
        let text = said(rt.alloc(), &mut hub, line)?;
        assert_eq!(rt; text.as_slice(), answer.as_bytes());
    }
    Ok(())
}

#[test]
fn steps_until_it_is_done(rt: HostRuntime) -> Result<(), Fail> {
    let mut hub = hub_of(rt.alloc(), 64)?;
    for (line, answer) in [
        ("open 0 319 sum(x)", "opened 0 0 320\n"),
        ("step 0", "now 0 0 320\n"),
        ("step 0", "done 0 80 240\n"),
        ("step 0", "done 0 80 240\n"),
        ("open 1 0 sum(x)", "opened 1 0 320\n"),
        ("step 1", "now 1 0 320\n"),
        ("step 1", "now 1 80 240\n"),
        ("step 1", "done 1 160 160\n"),
        ("show 1", "done 1 160 160\n"),
    ] {
        let text = said(rt.alloc(), &mut hub, line)?;
        assert_eq!(rt; text.as_slice(), answer.as_bytes());
    }
    Ok(())
}

#[test]
fn refused_openings(rt: HostRuntime) -> Result<(), Fail> {
    let mut hub = hub_of(rt.alloc(), 64)?;
    for (line, answer) in [
        ("open 3 320 sum(x)", "opened 3 0 320\n"),
        ("open 3 320 sum(x)", "busy 3\n"),
        ("step 3", "done 3 0 320\n"),
        ("open 4 320 sum(z)", "refused query unknown z\n"),
        ("step 4", "free 4\n"),
        ("open 4 320 sum(x", "refused query at 5\n"),
        ("open 4 320 sum(x,0,33)", "refused domain 1 0 32\n"),
        ("append z 1", "refused series unknown z\n"),
    ] {
        let text = said(rt.alloc(), &mut hub, line)?;
        assert_eq!(rt; text.as_slice(), answer.as_bytes());
    }
    Ok(())
}

#[test]
fn a_full_arena(rt: HostRuntime) -> Result<(), Fail> {
    let mut hub = hub_of(rt.alloc(), 4)?;
    let text = said(rt.alloc(), &mut hub, "append x 5")?;
    assert_eq!(rt; text.as_slice(), "refused arena full\n".as_bytes());
    let text = said(rt.alloc(), &mut hub, "open 0 320 sum(x)")?;
    assert_eq!(rt; text.as_slice(), "opened 0 0 320\n".as_bytes());

    let mut hub = hub_of(rt.alloc(), 5)?;
    let text = said(rt.alloc(), &mut hub, "append x 5")?;
    assert_eq!(rt; text.as_slice(), "appended x 1 33\n".as_bytes());
    Ok(())
}

#[test]
fn places_are_used_again(rt: HostRuntime) -> Result<(), Fail> {
    let mut hub = hub_of(rt.alloc(), 7)?;
    assert_eq!(rt; hub.store().arena.used(), 3);
    for (line, answer, used) in [
        ("append x 5", "appended x 1 33\n", 5),
        ("open 0 320 sum(x)", "opened 0 5 325\n", 5),
        ("append x 0", "appended x 1 34\n", 7),
        ("append x 0", "refused arena full\n", 7),
        ("close 0", "closed 0\n", 5),
        ("append x 0", "appended x 1 35\n", 5),
    ] {
        let text = said(rt.alloc(), &mut hub, line)?;
        assert_eq!(rt; text.as_slice(), answer.as_bytes());
        assert_eq!(rt; hub.store().arena.used(), used);
    }
    Ok(())
}
