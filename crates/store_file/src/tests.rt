ghost use Rattle.std.specs.Prelude.{◌≡◌, true};
ghost use Rattle.segment.specs.Measure.{AreReadings};

use super::*;
use expr::Name;
use segment::GREATEST_READING;
use std::alloc::Global;
use std::test::Fail;

#[test]
fn writes_an_empty_store(rt: HostRuntime) -> Result<(), Fail> {
    let Ok(store) = Store::new(rt.alloc(), 2, 0, 4) else {
        return Err(Fail::from("a store"))
    };
    let Ok(bytes) = store.encode() else {
        return Err(Fail::from("its bytes"))
    };
    assert_eq!(rt; bytes.as_slice(), [80, 76, 65, 84, 1, 2, 0, 0].as_slice());
    let Ok(header) = store.header() else {
        return Err(Fail::from("its header"))
    };
    assert_eq!(rt; header.as_slice(), bytes.as_slice());
    Ok(())
}

#[test]
fn writes_one_reading(rt: HostRuntime) -> Result<(), Fail> {
    let Ok(mut store) = Store::new(rt.alloc(), 0, 0, 1) else {
        return Err(Fail::from("a store"))
    };
    let name = Name::of(b"x").ok_or("a name")?;
    assert_eq!(rt; store.add_series(name, &[7]), Ok(()));
    let Ok(bytes) = store.encode() else {
        return Err(Fail::from("its bytes"))
    };
    assert_eq!(rt; bytes.len(), 74);
    assert_eq!(rt; &bytes[14..22], [0, 0, 0, 0, 0, 1, 192, 0].as_slice());
    assert_eq!(rt; &bytes[70..], [0, 0, 0, 7].as_slice());
    Ok(())
}

#[test]
fn reads_the_parts_of_a_header(rt: HostRuntime) -> Result<(), Fail> {
    assert_eq!(rt; read_fixed(&[80, 76, 65, 84, 1, 7, 3, 0]).err(), Some(5));
    assert_eq!(rt; (entry_len(1, 0), entry_len(1, 1)), (None, Some(6)));
    assert!(rt; read_entry(1, &[1, 120, 0, 16, 0, 0]).is_some());
    assert!(rt; read_entry(1, &[1, 49, 0, 0, 0, 1]).is_none());
    Ok(())
}

/// Whether all are readings.
pub(crate) fn are_readings(xs: &[i32]) -> bool
    ensures { result ≡ true → AreReadings xs.now }
{
    for x in xs {
        if x.unsigned_abs() > GREATEST_READING {
            return false;
        }
    }
    true
}

/// 151 readings, of which neighbours differ.
fn readings() -> [i32; 151] {
    let mut xs = [0; 151];
    for i in 0..151u8 {
        xs[i as usize] = i32::from(u16::from(i) * 389 % 1009) - 500;
    }
    xs
}

/// The bytes of a store of degree 2 whose series `x` was loaded without readings and then given so many at a time.
fn appended(alloc: Global, xs: &[i32], counts: &[usize]) -> Result<Vec<u8>, Fail> {
    let Ok(mut store) = Store::new(alloc, 0, 2, 1000) else {
        return Err(Fail::from("a store"))
    };
    let name = Name::of(b"x").ok_or("a name")?;
    let Ok(()) = store.add_series(name, &[]) else {
        return Err(Fail::from("a series"))
    };
    let mut rest = xs;
    for count in counts {
        let next = rest.get(..*count).ok_or("so many readings")?;
        rest = rest.get(*count..).ok_or("the others")?;
        if !are_readings(next) {
            return Err(Fail::from("readings"));
        }
        let Ok(_) = store.append_series(&name, next) else {
            return Err(Fail::from("an append"))
        };
    }
    let Ok(bytes) = store.encode() else {
        return Err(Fail::from("its bytes"))
    };
    Ok(bytes)
}

#[test]
fn appends_in_any_order_are_one_load(rt: HostRuntime) -> Result<(), Fail> {
    let xs = readings();
    let whole = appended(rt.alloc(), &xs, &[151])?;
    assert_eq!(rt; whole.len(), 8 + 6 + 19 * 56 + 151 * 4);
    for counts in [
        [1, 2, 15, 16, 17, 100],
        [100, 17, 16, 15, 2, 1],
        [16, 1, 100, 2, 17, 15],
        [15, 1, 16, 2, 100, 17],
        [2, 15, 17, 1, 0, 116],
    ] {
        let bytes = appended(rt.alloc(), &xs, &counts)?;
        assert_eq!(rt; bytes.as_slice(), whole.as_slice());
    }
    Ok(())
}

#[test]
fn appends_as_far_as_the_arena_goes(rt: HostRuntime) -> Result<(), Fail> {
    let mut turns = [0; 32];
    for i in 0..16u8 {
        turns[2 * i as usize + 1] = 10;
    }
    assert!(rt; are_readings(&turns));
    let name = Name::of(b"x").ok_or("a name")?;
    let Ok(mut small) = Store::new(rt.alloc(), 0, 0, 4) else {
        return Err(Fail::from("a store"))
    };
    assert_eq!(rt; small.append_series(&name, &[5]), Err(SeriesErr::Unknown));
    assert_eq!(rt; small.add_series(name, &turns), Ok(()));
    assert_eq!(rt; small.append_series(&name, &[5]), Err(SeriesErr::ArenaFull));
    assert_eq!(rt; small.arena.used(), 3);

    let Ok(mut store) = Store::new(rt.alloc(), 0, 0, 5) else {
        return Err(Fail::from("a store"))
    };
    assert_eq!(rt; store.add_series(name, &turns), Ok(()));
    assert_eq!(rt; store.append_series(&name, &[5]), Ok(33));
    assert_eq!(rt; store.arena.used(), 5);
    Ok(())
}
