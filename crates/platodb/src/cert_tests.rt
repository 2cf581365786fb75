// Runs of `prove` and `verify`.

use crate::store_tests::{says, shelf_with, turns};
use std::alloc::Global;
use std::process::Abort;
use std::test::Fail;

const MOST_CERT: usize = 1 << 26;

const HALVES: &str = "[\"x\",[[0,16,1],[16,16,0]]]";

const LEAVES: &str = "[\"x\",[[0,16,0],[16,16,0]]]";

const OPENED: &str = "[\"x\",[[0,16,1],[16,16,1]]]";

// The certificate of the sum of 0 and 10 in turn, 32 readings, of which the first 16 are summed one by one.
pub(crate) const SUM: &str =
    "{\"budget\":\"319\",\"cut\":[[\"x\",[[0,16,1],[16,16,0]]]],\"hi\":\"240\",\"lo\":\"80\",\
    \"query\":\"sum(x,0,32)\"}\n";

// The certificate of a query with these parts.
fn certificate(
    alloc: Global,
    budget: &str,
    cut: &str,
    hi: &str,
    lo: &str,
    query: &str,
) -> Result<String, Fail> {
    let mut text = format!(in alloc; "{{\"budget\":\"{budget}\",\"cut\":[{cut}],\"hi\":\"{hi}\",")?;
    text.push_str(format!(in alloc; "\"lo\":\"{lo}\",\"query\":\"{query}\"}}\n")?.as_str())?;
    Ok(text)
}

#[test]
fn proves_over_turns(rt: HostRuntime) -> Result<(), Fail> {
    let alloc = rt.alloc();
    let store = turns(&rt, alloc)?;
    let files = [
        ("s", store.as_slice()),
        ("a.csv", b"v\n1\n2\n3\n".as_slice()),
    ];
    let mut shelf = shelf_with(alloc, &files, &[], &[])?;
    says(
        &rt,
        alloc,
        &mut shelf,
        &[
            ("load s y a.csv v", "loaded y 3\n", 0),
            ("load s z a.csv v", "loaded z 3\n", 0),
            ("prove s 319 sum(x,0,32)", SUM, 0),
        ],
    )?;
    for (line, budget, cut, hi, lo, query) in [
        (
            "prove s 0320 sum(x)",
            "320",
            "[\"x\",[[0,32,0]]]",
            "320",
            "0",
            "sum(x)",
        ),
        (
            "prove s 0 varnum(x,0,32)",
            "0",
            "[\"x\",[[0,16,1],[16,16,1]]]",
            "25600",
            "25600",
            "varnum(x,0,32)",
        ),
        ("prove s 0 (2)*(3-5)", "0", "", "-4", "-4", "2*(3-5)"),
        (
            "prove s 0 sum(z)-sum(x,0,0)",
            "0",
            "[\"x\",[[0,32,0]]],[\"z\",[[0,3,1]]]",
            "6",
            "6",
            "sum(z)-sum(x,0,0)",
        ),
    ] {
        let text = certificate(alloc, budget, cut, hi, lo, query)?;
        says(&rt, alloc, &mut shelf, &[(line, text.as_str(), 0)])?;
    }
    says(
        &rt,
        alloc,
        &mut shelf,
        &[
            ("prove s 0 sum(x,0,33)", "domain 1 0 32\n", 12),
            ("prove s 0 sum(x*x*x)", "query rank 1\n", 11),
            ("prove s 0 sum(w)", "query unknown w\n", 11),
            ("prove t 0 sum(x", "query at 5\n", 11),
            ("prove t 0 sum(x)", "absent t\n", 6),
            ("prove a.csv 0 sum(x)", "store fault\n", 9),
            ("prove s -1 sum(x)", "usage fault\n", 2),
            ("prove s 0", "usage fault\n", 2),
        ],
    )
}

// What `verify` says of a certificate over the store of 0 and 10 in turn.
fn verifies(
    rt: &impl Abort,
    alloc: Global,
    text: &[u8],
    written: &str,
    number: u8,
) -> Result<(), Fail> {
    let store = turns(rt, alloc)?;
    let text = text.to_vec(alloc)?;
    let files = [("s", store.as_slice()), ("c", text.as_slice())];
    let mut shelf = shelf_with(alloc, &files, &[], &[])?;
    says(rt, alloc, &mut shelf, &[("verify s c", written, number)])
}

// The certificate of the sum with another budget, cut and ends.
#[test]
fn verifies_changed_certificates(rt: HostRuntime) -> Result<(), Fail> {
    let alloc = rt.alloc();
    verifies(&rt, alloc, SUM.as_bytes(), "holds\n", 0)?;
    for (budget, cut, hi, lo, written, number) in [
        (
            "319",
            "[\"x\",[[0,16,1]]]",
            "240",
            "80",
            "not a cut 0\n",
            14,
        ),
        ("319", HALVES, "239", "80", "escapes 80 240\n", 14),
        ("319", HALVES, "240", "81", "escapes 80 240\n", 14),
        ("159", HALVES, "240", "80", "wide 160\n", 14),
        ("0", HALVES, "239", "80", "escapes 80 240\n", 14),
        ("160", HALVES, "240", "80", "holds\n", 0),
        ("320", LEAVES, "320", "0", "holds\n", 0),
        ("320", LEAVES, "320", "1", "escapes 0 320\n", 14),
        (
            "319",
            "[\"x\",[[0,32,1]]]",
            "240",
            "80",
            "not a cut 0\n",
            14,
        ),
        (
            "319",
            "[\"x\",[[0,16,1],[0,16,0]]]",
            "240",
            "80",
            "not a cut 0\n",
            14,
        ),
        (
            "319",
            "[\"x\",[[0,16,1],[16,4294967295,0]]]",
            "240",
            "80",
            "not a cut 0\n",
            14,
        ),
        (
            "319",
            "[\"x\",[[0,16,1],[16,4294967296,0]]]",
            "240",
            "80",
            "certificate form cut\n",
            15,
        ),
        ("319", "", "240", "80", "not a cut 0\n", 14),
        (
            "319",
            "[\"y\",[[0,16,1],[16,16,0]]]",
            "240",
            "80",
            "not a cut 0\n",
            14,
        ),
        ("-1", HALVES, "240", "80", "certificate form budget\n", 15),
        ("319", HALVES, "+240", "80", "certificate form hi\n", 15),
        ("319", HALVES, "240", "8O", "certificate form lo\n", 15),
    ] {
        let text = certificate(alloc, budget, cut, hi, lo, "sum(x,0,32)")?;
        verifies(&rt, alloc, text.as_bytes(), written, number)?;
    }
    let twice = format!(in alloc; "{HALVES},[\"x\",[]]")?;
    let text = certificate(alloc, "319", twice.as_str(), "240", "80", "sum(x,0,32)")?;
    verifies(&rt, alloc, text.as_bytes(), "not a cut 1\n", 14)
}

// Certificates of other queries.
#[test]
fn verifies_queries(rt: HostRuntime) -> Result<(), Fail> {
    let alloc = rt.alloc();
    for (cut, end, query, written, number) in [
        ("", "7", "7", "holds\n", 0),
        ("", "8", "7", "escapes 7 7\n", 14),
        (OPENED, "25600", "varnum(x,0,32)", "holds\n", 0),
        ("", "7", "sum(x", "query at 5\n", 11),
        ("", "7", "sum(z)", "query unknown z\n", 11),
        ("", "7", "sum(x*x*x)", "query rank 1\n", 11),
        ("", "7", "sum(x,0,33)", "domain 1 0 32\n", 12),
        (
            "",
            "7",
            "sum(x*100000000000000000000000000000000000)",
            "range 1\n",
            13,
        ),
    ] {
        let text = certificate(alloc, "0", cut, end, end, query)?;
        verifies(&rt, alloc, text.as_bytes(), written, number)?;
    }
    Ok(())
}

// Texts that are no certificates, and strange ones that are.
#[test]
fn verifies_strange_texts(rt: HostRuntime) -> Result<(), Fail> {
    let alloc = rt.alloc();
    for (text, written, number) in [
        (b"".as_slice(), "certificate not json\n", 15),
        (b"[", "certificate not json\n", 15),
        (b"{} {}", "certificate not json\n", 15),
        (b"\"\xFF\"", "certificate not json\n", 15),
        (b"{}", "certificate form budget\n", 15),
        (b"[]", "certificate form object\n", 15),
        (b"7", "certificate form object\n", 15),
        (b"{\"budget\":7}", "certificate form budget\n", 15),
        (b"{\"budget\":\"7\"}", "certificate form cut\n", 15),
        (
            b"{\"budget\":\"7\",\"cut\":[]}",
            "certificate form hi\n",
            15,
        ),
        (
            b"{\"budget\":\"0\",\"cut\":[],\"hi\":\"7\",\"lo\":\"7\"}",
            "certificate form query\n",
            15,
        ),
        (
            b"{\"budget\":\"0\",\"cut\":[],\"hi\":\"7\",\"lo\":\"7\",\"query\":\"7\",\"x\":0}",
            "certificate form other\n",
            15,
        ),
        (
            b" {\"query\":\"\\u0037\",\n\"lo\":\"007\",\"hi\":\"8\",\"hi\":\"7\",\"cut\":[],\"budget\":\"0\"}\r\n",
            "holds\n",
            0,
        ),
    ] {
        verifies(&rt, alloc, text, written, number)?;
    }
    Ok(())
}

// The store of one row with numbers of other forms.
#[test]
fn verifies_numbers(rt: HostRuntime) -> Result<(), Fail> {
    let alloc = rt.alloc();
    for (start, len, opened, written, number) in [
        ("0", "32", "0", "holds\n", 0),
        ("0.0", "32", "0", "certificate form cut\n", 15),
        ("0", "32e0", "0", "certificate form cut\n", 15),
        ("-0", "32", "0", "certificate form cut\n", 15),
        ("\"0\"", "32", "0", "certificate form cut\n", 15),
        (
            "0",
            "18446744073709551616",
            "0",
            "certificate form cut\n",
            15,
        ),
        ("0", "32", "2", "certificate form cut\n", 15),
        ("0", "32", "false", "certificate form cut\n", 15),
        ("00", "32", "0", "certificate not json\n", 15),
    ] {
        let cut = format!(in alloc; "[\"\\u0078\",[[{start},{len},{opened}]]]")?;
        let text = certificate(alloc, "320", cut.as_str(), "320", "0", "sum(x)")?;
        verifies(&rt, alloc, text.as_bytes(), written, number)?;
    }
    Ok(())
}

// Arrays in arrays, as deep as is read, deeper, and as many as a file may have.
#[test]
fn verifies_deep_texts(rt: HostRuntime) -> Result<(), Fail> {
    let alloc = rt.alloc();
    for (depth, written) in [
        (127, "certificate form object\n"),
        (128, "certificate not json\n"),
    ] {
        let mut text = vec![in alloc; b'['; depth]?;
        text.extend_from_slice(&vec![in alloc; b']'; depth]?)?;
        verifies(&rt, alloc, &text, written, 15)?;
    }
    let most = vec![in alloc; b'['; MOST_CERT]?;
    verifies(&rt, alloc, &most, "certificate not json\n", 15)?;
    let more = vec![in alloc; b'['; MOST_CERT + 1]?;
    verifies(&rt, alloc, &more, "too big c\n", 7)
}

// The first refusal is answered: the files, the store, the certificate.
#[test]
fn verifies_in_order(rt: HostRuntime) -> Result<(), Fail> {
    let alloc = rt.alloc();
    let store = turns(&rt, alloc)?;
    let files = [
        ("s", store.as_slice()),
        ("c", SUM.as_bytes()),
        ("bad", b"{}".as_slice()),
    ];
    let mut shelf = shelf_with(alloc, &files, &[], &[])?;
    says(
        &rt,
        alloc,
        &mut shelf,
        &[
            ("verify s c", "holds\n", 0),
            ("verify t u", "absent t\n", 6),
            ("verify s u", "absent u\n", 6),
            ("verify bad u", "absent u\n", 6),
            ("verify bad bad", "store bad header 0\n", 9),
            ("verify s bad", "certificate form budget\n", 15),
            ("verify s ", "usage fault\n", 2),
            ("verify s", "usage fault\n", 2),
        ],
    )
}
