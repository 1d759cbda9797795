// Each fault of a patch: its number and the place of its record.
use patch::{ScanOrder, Setup, examine};
use std::process::Abort;

// What the check answers at gates, with inputs 0 and 1 in that order: 0 for none.
// kept: 0, and 255 where the order is refused, and no Result, as the tables of the tests hold it.
fn answer(bytes: &[u8], places: usize) -> (u8, usize) {
    let mut order = ScanOrder::new();
    if let Err(_) = order.arrange(&[0, 1]) {
        return (255, 0);
    }
    let setup = Setup {
        order,
        places,
        codes: 2,
    };
    match examine(bytes, &setup) {
        Ok(()) => (0, 0),
        Err(refusal) => (refusal.number(), refusal.place()),
    }
}

#[test]
fn first_in_a_patch(rt: HostRuntime) {
    let table: [(&[u8], u8, usize); 13] = [
        (&[], 0, 0),
        (&[4, 0, 0, 1], 0, 0),
        (&[4, 0, 0, 1, 0], 11, 0),
        (&[5, 0, 0, 0], 12, 0),
        (&[0, 0, 0, 1], 13, 0),
        (&[1, 0, 1, 0], 13, 0),
        (&[4, 1, 0, 1], 13, 0),
        (&[1, 2, 0, 0], 14, 0),
        (&[2, 0, 0, 1], 16, 0),
        (&[3, 1, 0, 1], 16, 0),
        (&[4, 0, 1, 1], 16, 0),
        (&[4, 0, 0, 2], 18, 0),
        (&[255, 255, 255, 255], 12, 0),
    ];
    for (bytes, number, place) in table {
        assert_eq!(rt; answer(bytes, 128), (number, place));
    }
}

#[test]
fn last_in_a_patch(rt: HostRuntime) {
    // cells 1 and 2 read inputs 0 and 1; filler between them
    let table: [([u8; 4], u8); 12] = [
        ([3, 1, 2, 1], 0),
        ([2, 2, 0, 0], 0),
        ([5, 0, 0, 0], 12),
        ([0, 0, 1, 0], 13),
        ([4, 1, 0, 1], 13),
        ([1, 2, 0, 0], 14),
        ([3, 3, 0, 1], 16),
        ([2, 1, 3, 1], 16),
        ([3, 2, 1, 1], 17),
        ([2, 1, 1, 1], 17),
        ([3, 1, 2, 2], 18),
        ([4, 0, 2, 255], 18),
    ];
    for ([m, a, b, c], number) in table {
        let bytes = [1, 0, 0, 0, 0, 0, 0, 0, 1, 1, 0, 0, m, a, b, c];
        let place = if number == 0 { 0 } else { 3 };
        assert_eq!(rt; answer(&bytes, 128), (number, place));
    }
}

#[test]
fn lowest_of_two_in_one_record(rt: HostRuntime) {
    let table: [([u8; 4], u8); 6] = [
        ([9, 9, 9, 9], 12),
        ([1, 7, 7, 0], 13),
        ([4, 7, 7, 7], 13),
        ([1, 7, 0, 0], 14),
        ([3, 7, 7, 7], 16),
        ([2, 2, 1, 7], 17),
    ];
    for ([m, a, b, c], number) in table {
        let bytes = [1, 0, 0, 0, 1, 1, 0, 0, m, a, b, c];
        // with three places no third cell is left either
        assert_eq!(rt; answer(&bytes, 3), (number, 2));
    }
}

#[test]
fn first_of_two_records(rt: HostRuntime) {
    let table: [(&[u8], u8, usize); 4] = [
        (&[4, 0, 0, 2, 5, 0, 0, 0], 18, 0),
        (&[0, 0, 0, 0, 2, 1, 0, 1, 1, 0, 0, 0], 16, 1),
        (&[1, 0, 0, 0, 3, 1, 1, 1, 4, 0, 9, 9, 9, 9, 9, 9], 17, 1),
        (&[1, 1, 0, 0, 1, 0, 0, 0, 3, 1, 2, 1, 1, 2, 0, 0], 17, 2),
    ];
    for (bytes, number, place) in table {
        assert_eq!(rt; answer(bytes, 128), (number, place));
    }
}

// Makes 300 cell records and an arc from the last cell that a byte can name, and tries them with more and more places.
fn try_places(rt: &impl Abort, bytes: &mut [u8; 1204]) {
    for record in bytes.chunks_exact_mut(4).take(300) {
        record[0] = 1;
    }
    bytes[1200] = 3;
    bytes[1201] = 255;
    bytes[1203] = 1;
    let table: [(usize, u8, usize); 6] = [
        (0, 15, 0),
        (1, 15, 0),
        (64, 15, 63),
        (128, 15, 127),
        (300, 15, 299),
        (301, 0, 0),
    ];
    for (most, number, place) in table {
        assert_eq!(rt; answer(bytes, most), (number, place));
    }
}

#[test]
fn places(rt: HostRuntime) {
    let mut bytes = [0; 1204];
    try_places(&rt, &mut bytes);
}

#[test]
fn lengths(rt: HostRuntime) {
    let bytes = [0; 65540];
    assert_eq!(rt; answer(&bytes[0..65536], 64), (0, 0));
    assert_eq!(rt; answer(&bytes[0..65537], 64), (10, 0));
    assert_eq!(rt; answer(&bytes, 64), (10, 0));
    assert_eq!(rt; answer(&bytes[0..65535], 64), (11, 0));
}
