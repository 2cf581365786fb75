ghost use Rattle.std.specs.Prelude.{◌≡◌, true};
ghost use Rattle.segment.specs.Measure.{AreReadings};

use crate::{Cert, CertErr, CertKey, Verdict, read_cert, verify, write_cert};
use descent::{Answer, CutRow, Rows};
use expr::Name;
use expr_parse::parse;
use interval::Iv;
use segment::GREATEST_READING;
use std::alloc::Global;
use std::test::Fail;
use store_file::Store;

/// The certificate of the sum of all readings at a budget of 319.
const WRITTEN: &str =
    r#"{"budget":"319","cut":[["x",[[0,16,1],[16,16,0]]]],"hi":"240","lo":"80","query":"sum(x,0,32)"}"#;

/// Whether all are readings.
fn are_readings(xs: &[i32]) -> bool
    ensures { result ≡ true → AreReadings xs.now }
{
    for x in xs {
        if x.unsigned_abs() > GREATEST_READING {
            return false;
        }
    }
    true
}

/// A store of 32 readings, 0 and 10 in turn, under the name `x`.
fn turns(alloc: Global) -> Result<Store, Fail> {
    let mut readings = [0; 32];
    for i in 0..16u8 {
        readings[2 * i as usize + 1] = 10;
    }
    if !are_readings(&readings) {
        return Err(Fail::from("readings"));
    }
    let Ok(mut store) = Store::new(alloc, 0, 0, 3) else {
        return Err(Fail::from("a store"))
    };
    let name = Name::of(b"x").ok_or("a name")?;
    let Ok(()) = store.add_series(name, &readings) else {
        return Err(Fail::from("a series"))
    };
    Ok(store)
}

#[test]
fn writes_a_certificate(rt: HostRuntime) -> Result<(), Fail> {
    let alloc = rt.alloc();
    let first = CutRow {
        series: 0,
        start: 0,
        len: 16,
        opened: true,
    };
    let second = CutRow {
        series: 0,
        start: 16,
        len: 16,
        opened: false,
    };
    let rows = vec![in alloc; first, second].map_err(|_| "rows")?;
    let answer = Answer {
        iv: Iv::of(80, 240).ok_or("an interval")?,
        cut: Rows::of(rows),
        opened: 1,
    };
    let name = Name::of(b"x").ok_or("a name")?;
    let query = parse(alloc, b"sum(x,0,32)").map_err(|_| "a query")?;
    let text = write_cert(alloc, &[name], &query, 319, &answer).map_err(|_| "a text")?;
    assert_eq!(rt; text.as_slice(), WRITTEN.as_bytes());
    Ok(())
}

/// A certificate of the sum of all readings.
fn certificate(alloc: Global, budget: u128, cut: &str, hi: i128, lo: i128) -> Result<Cert, Fail> {
    let text = format!(in alloc;
        r#"{{"budget":"{budget}","cut":[{cut}],"hi":"{hi}","lo":"{lo}","query":"sum(x,0,32)"}}"#
    ).map_err(|_| "a text")?;
    let cert = read_cert(alloc, text.as_bytes()).map_err(|_| "a certificate")?;
    Ok(cert)
}

#[test]
fn checks_what_is_written(rt: HostRuntime) -> Result<(), Fail> {
    let alloc = rt.alloc();
    let store = turns(alloc)?;
    let cert = read_cert(alloc, WRITTEN.as_bytes()).map_err(|_| "a certificate")?;
    assert_eq!(rt; verify(alloc, &store, &cert), Ok(Verdict::Holds));
    Ok(())
}

#[test]
fn checks_what_was_changed(rt: HostRuntime) -> Result<(), Fail> {
    let alloc = rt.alloc();
    let store = turns(alloc)?;
    let proved = Iv::of(80, 240).ok_or("an interval")?;
    let halves = r#"["x",[[0,16,1],[16,16,0]]]"#;
    let twice = r#"["x",[[0,16,1],[16,16,0]]],["x",[]]"#;
    for (budget, cut, hi, lo, want) in [
        (320, r#"["x",[[0,16,0],[16,16,0]]]"#, 320, 0, Verdict::Holds),
        (319, r#"["x",[[0,16,1]]]"#, 240, 80, Verdict::NotACut(0)),
        (319, r#"["x",[[0,32,1]]]"#, 240, 80, Verdict::NotACut(0)),
        (319, twice, 240, 80, Verdict::NotACut(1)),
        (319, halves, 239, 80, Verdict::Escapes(proved)),
        (159, halves, 240, 80, Verdict::Wide(160)),
    ] {
        let cert = certificate(alloc, budget, cut, hi, lo)?;
        assert_eq!(rt; verify(alloc, &store, &cert), Ok(want));
    }
    Ok(())
}

#[test]
fn refuses_texts(rt: HostRuntime) -> Result<(), Fail> {
    assert_eq!(rt; read_cert(rt.alloc(), b"[").err(), Some(CertErr::NotJson));
    let none = read_cert(rt.alloc(), b"{}").err();
    assert_eq!(rt; none, Some(CertErr::Form(CertKey::Budget)));
    Ok(())
}
