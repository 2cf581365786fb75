use super::*;
use segment::Seg;
use std::test::Fail;

#[test]
fn numbers_as_bytes(rt: HostRuntime) -> Result<(), Fail> {
    let mut two = [0; 2];
    put_unsigned(258, &mut two);
    assert_eq!(rt; two, [1, 2]);
    assert_eq!(rt; get_unsigned(&[1, 0, 0]), 65536);

    let mut three = [0; 3];
    put_signed(-2, &mut three);
    assert_eq!(rt; three, [255, 255, 254]);
    assert_eq!(rt; get_signed(&[255, 254]), -2);
    assert_eq!(rt; get_signed(&[127]), 127);
    Ok(())
}

/// The segment of 32 readings, 0 and 10 in turn, and its record.
const SEG: Seg = Seg {
    start: 0,
    len: 32,
    a: 81920,
    b: 0,
    c: 0,
    l: 2621440,
    d: 10,
    f: 81920,
};

const RECORD: [u8; 56] = [
    0, 0, 0, 0, 0, 1, 64, 0, 0, 0, 0, 0, 0, 0, 0, 0, 0, 0, 0, 0, 0, 0, 0, 0, 0, 0, 0, 0, 0, 0, 0,
    0, 0, 0, 0, 0, 0, 40, 0, 0, 0, 0, 0, 0, 0, 0, 0, 10, 0, 0, 0, 0, 0, 1, 64, 0,
];

#[test]
fn records_and_their_places(rt: HostRuntime) -> Result<(), Fail> {
    let mut record = [0; 56];
    write_seg(&SEG, &mut record);
    assert_eq!(rt; record, RECORD);
    assert_eq!(rt; read_seg(&RECORD, 0, 32), SEG);

    assert_eq!(rt;
        (tree_bytes(0), tree_bytes(1), tree_bytes(32)),
        (0, 60, 296)
    );
    assert_eq!(rt;
        (offset_of(32, 0, 32), offset_of(32, 0, 16)),
        (Some(0), Some(56))
    );
    assert_eq!(rt;
        (offset_of(32, 16, 16), offset_of(33, 32, 1)),
        (Some(176), Some(352))
    );
    assert_eq!(rt; (offset_of(32, 0, 15), offset_of(0, 0, 0)), (None, None));
    Ok(())
}

/// Six fields that all differ, one of them below zero.
#[test]
fn fields_stand_in_order(rt: HostRuntime) {
    let seg = Seg {
        start: 0,
        len: 16,
        a: 1,
        b: -2,
        c: 3,
        l: 4,
        d: 5,
        f: 6,
    };
    let mut record = [0; 56];
    write_seg(&seg, &mut record);
    assert_eq!(rt; (record[7], record[8], record[15]), (1, 255, 254));
    assert_eq!(rt;
        (record[23], record[39], record[47], record[55]),
        (3, 4, 5, 6)
    );
    assert_eq!(rt; read_seg(&record, 0, 16), seg);
}
