use super::*;
use crate::tests::are_readings;
use std::test::Fail;

/// 32 readings, 0 and 10 in turn.
const TURNS: [i32; 32] = [
    0, 10, 0, 10, 0, 10, 0, 10, 0, 10, 0, 10, 0, 10, 0, 10, 0, 10, 0, 10, 0, 10, 0, 10, 0, 10, 0,
    10, 0, 10, 0, 10,
];

/// The bytes of a store whose one series `x` has these readings.
fn bytes_of(alloc: Global, xs: &[i32]) -> Result<Vec<u8>, Fail> {
    if !are_readings(xs) {
        return Err(Fail::from("readings"));
    }
    let Ok(mut store) = Store::new(alloc, 0, 0, 8) else {
        return Err(Fail::from("a store"))
    };
    let name = Name::of(b"x").ok_or("a name")?;
    let Ok(()) = store.add_series(name, xs) else {
        return Err(Fail::from("a series"))
    };
    let Ok(bytes) = store.encode() else {
        return Err(Fail::from("its bytes"))
    };
    Ok(bytes)
}

/// The bytes with some others from a place on.
fn edited(alloc: Global, bytes: &[u8], place: usize, with: &[u8]) -> Result<Vec<u8>, Fail> {
    let mut all = bytes.to_vec(alloc)?;
    for (i, byte) in with.iter().enumerate() {
        let at = place.checked_add(i).ok_or("a place")?;
        *all.get_mut(at).ok_or("a byte")? = *byte;
    }
    Ok(all)
}

/// Why bytes are refused, where they are and are few.
fn refusal(alloc: Global, bytes: &[u8]) -> Option<StoreErr> {
    if bytes.len() > 1 << 28 {
        return None;
    }
    decode(alloc, bytes).err()
}

#[test]
fn reads_what_was_written(rt: HostRuntime) -> Result<(), Fail> {
    let alloc = rt.alloc();
    let bytes = bytes_of(alloc, &TURNS)?;
    assert_eq!(rt; bytes.len(), 310);
    let Ok(store) = decode(alloc, &bytes) else {
        return Err(Fail::from("a store"))
    };
    let Ok(again) = store.encode() else {
        return Err(Fail::from("its bytes"))
    };
    assert_eq!(rt; again.as_slice(), bytes.as_slice());
    Ok(())
}

#[test]
fn refuses_other_lengths(rt: HostRuntime) -> Result<(), Fail> {
    let alloc = rt.alloc();
    let mut bytes = bytes_of(alloc, &TURNS)?;
    for n in 0..310 {
        let place = if n < 8 {
            0
        } else if n < 14 {
            8
        } else {
            14
        };
        let first = bytes.get(..n).ok_or("its first bytes")?;
        assert_eq!(rt; refusal(alloc, first), Some(StoreErr::NotAStore(place)));
    }
    bytes.push(0)?;
    assert_eq!(rt; refusal(alloc, &bytes), Some(StoreErr::NotAStore(14)));
    Ok(())
}

#[test]
fn refuses_other_headers(rt: HostRuntime) -> Result<(), Fail> {
    for (bytes, place) in [
        (&b"PLAZ\x01\x00\x00\x00"[..], 0),
        (&b"PLAT\x09\x00\x00\x00"[..], 4),
        (&b"PLAT\x01\x07\x00\x00"[..], 5),
        (&b"PLAT\x01\x00\x03\x00"[..], 6),
        (&b"PLAT\x01\x00\x00\x11"[..], 7),
        (&b"PLAT\x01\x00\x00\x01\x011\x00\x00\x00\x00"[..], 8),
        (&b"PLAT\x01\x00\x00\x01\x03sum\x00\x00\x00\x00"[..], 8),
        (&b"PLAT\x01\x00\x00\x01\x01x\x00\x10\x00\x01"[..], 8),
        (
            &b"PLAT\x01\x00\x00\x02\x01x\x00\x00\x00\x00\x01x\x00\x00\x00\x00"[..],
            14,
        ),
    ] {
        assert_eq!(rt;
            refusal(rt.alloc(), bytes),
            Some(StoreErr::NotAStore(place)),
            "{bytes:?}"
        );
    }
    Ok(())
}

#[test]
fn refuses_nodes_that_are_not_true(rt: HostRuntime) -> Result<(), Fail> {
    let alloc = rt.alloc();
    let name = Name::of(b"x").ok_or("a name")?;
    let bytes = bytes_of(alloc, &TURNS)?;
    for (place, with, start, len) in [
        // `l` of the root less by 1, `d` of the root and of the last leaf more by 1
        (51, &[39, 255, 255][..], 0, 32),
        (61, &[11][..], 0, 32),
        (237, &[11][..], 16, 16),
        // the first reading beyond 10^9
        (126, &[59, 154, 202, 1][..], 0, 32),
    ] {
        let other = edited(alloc, &bytes, place, with)?;
        assert_eq!(rt;
            refusal(alloc, &other),
            Some(StoreErr::BadNode(name, start, len))
        );
    }
    Ok(())
}

#[test]
fn takes_every_curve_within_its_bound(rt: HostRuntime) -> Result<(), Fail> {
    let alloc = rt.alloc();
    let name = Name::of(b"x").ok_or("a name")?;
    let bytes = bytes_of(alloc, &[7])?;
    // `a`, `l` and `f` of the one reading 7, with `a` other than the fit, at its bound and beyond it
    for (a, l, f, is_store) in [
        ([0, 0, 0], [1, 192, 0], [0, 0, 0], true),
        ([14, 0, 0], [12, 64, 0], [14, 0, 0], true),
        ([14, 0, 1], [12, 64, 1], [14, 0, 1], false),
    ] {
        let other = edited(alloc, &bytes, 19, &a)?;
        let other = edited(alloc, &other, 51, &l)?;
        let other = edited(alloc, &other, 67, &f)?;
        let bad = StoreErr::BadNode(name, 0, 1);
        assert_eq!(rt;
            refusal(alloc, &other),
            if is_store { None } else { Some(bad) }
        );
    }
    Ok(())
}
