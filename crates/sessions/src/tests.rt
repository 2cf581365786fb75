ghost use Rattle.std.specs.Prelude.{◌≡◌, ◌≤◌, ◌^◌, IfOk, length};

use crate::{Cause, Event, Reply, ScriptErr, read_script, write_reply};
use expr::Name;
use interval::Iv;
use std::alloc::{AllocError, Global};
use std::test::Fail;

fn line_feeds(alloc: Global, n: u32) -> Result<Vec<u8>, AllocError>
    requires { n ≤ 2 ^ 24 }
    ensures { IfOk result (λ v. length v.items ≡ n) }
{
    let text = vec![in alloc; b'\n'; n as usize]?;
    Ok(text)
}

#[test]
fn events_of_a_script(rt: HostRuntime) -> Result<(), Fail> {
    let script = b"open 0 319 sum(x)\nappend x 1 -2\r\n\nstep 15\nshow 07\nclose 0\nsave";
    let events = read_script(rt.alloc(), script).map_err(|_| "a script")?;
    assert_eq!(rt; events.len(), 6);
    match &events[0] {
        Event::OpenSlot {
            slot,
            budget,
            query,
        } => {
            assert_eq!(rt; (*slot, *budget), (0, 319));
            assert_eq!(rt; query.as_slice(), b"sum(x)".as_slice());
        }
        _ => return Err(Fail::from("an opening")),
    }
    match &events[1] {
        Event::Append { name, xs } => {
            assert_eq!(rt; name.bytes(), b"x".as_slice());
            assert_eq!(rt; xs.as_slice(), [1, -2].as_slice());
        }
        _ => return Err(Fail::from("an append")),
    }
    assert!(rt; matches!(&events[2], Event::StepSlot(15)));
    assert!(rt; matches!(&events[3], Event::ShowSlot(7)));
    assert!(rt; matches!(&events[4], Event::CloseSlot(0)));
    assert!(rt; matches!(&events[5], Event::Save));
    Ok(())
}

#[test]
fn refused_scripts(rt: HostRuntime) -> Result<(), Fail> {
    for (script, line) in [
        (b"step 16".as_slice(), 1),
        (b"step 0\n\nsave ".as_slice(), 3),
        (b"save\r\n\r\nsave\r".as_slice(), 3),
        (b"save\nopen 0 0".as_slice(), 2),
        (b"append x".as_slice(), 1),
    ] {
        assert!(rt;
            matches!(read_script(rt.alloc(), script), Err(ScriptErr::Line(k)) if k == line)
        );
    }
    Ok(())
}

#[test]
fn empty_lines(rt: HostRuntime) -> Result<(), Fail> {
    let script = line_feeds(rt.alloc(), 1000)?;
    let events = read_script(rt.alloc(), script.as_slice()).map_err(|_| "a script")?;
    assert!(rt; events.is_empty());
    Ok(())
}

#[test]
fn lines_of_replies(rt: HostRuntime) -> Result<(), Fail> {
    let alloc = rt.alloc();
    let x = Name::of(b"x").ok_or("a name")?;
    let iv = Iv::of(-3, 320).ok_or("an interval")?;
    let mut text = Vec::new(alloc);
    for reply in [
        Reply::Opened(0, iv),
        Reply::Appended(x, 5, 37),
        Reply::Refused(Cause::Unknown(x)),
        Reply::Refused(Cause::ArenaFull),
        Reply::SlotFree(15),
        Reply::Saved,
    ] {
        write_reply(alloc, &mut text, &reply).map_err(|_| "memory")?;
    }
    let want =
        b"opened 0 -3 320\nappended x 5 37\nrefused series unknown x\nrefused arena full\nfree 15\nsaved\n";
    assert_eq!(rt; text.as_slice(), want.as_slice());
    Ok(())
}
