// The scan order and the window.
use patch::{Patch, Record, ScanOrder, Setup};

// What arranging by a list answers: 0 for no refusal.
// kept: 0 and no Result, as the tables of the tests hold it.
fn arranged(order: &mut ScanOrder, list: &[u8]) -> u8 {
    match order.arrange(list) {
        Ok(()) => 0,
        Err(refusal) => refusal.number(),
    }
}

#[test]
fn scan_orders(rt: HostRuntime) {
    let most = [
        23, 22, 21, 20, 19, 18, 17, 16, 15, 14, 13, 12, 11, 10, 9, 8, 7, 6, 5, 4, 3, 2, 1, 0, 24,
    ];
    let mut order = ScanOrder::new();
    assert_eq!(rt;
        (
            order.count(),
            order.input(0),
            order.input(1),
            order.position(0),
            order.position(1),
        ),
        (1, 0, 0, 0, 1)
    );
    assert_eq!(rt; arranged(&mut order, &[2, 0, 1]), 0);
    let table: [(&[u8], u8); 6] = [
        (&[], 1),
        (&most, 1),
        (&[0, 1, 3], 2),
        (&[0, 1, 1], 2),
        (&[1], 2),
        (&[255, 0], 2),
    ];
    for (list, number) in table {
        assert_eq!(rt; arranged(&mut order, list), number);
    }
    // none of these changed it
    assert_eq!(rt;
        (
            order.count(),
            order.input(0),
            order.input(1),
            order.input(2),
            order.input(3),
        ),
        (3, 2, 0, 1, 0)
    );
    assert_eq!(rt;
        (
            order.position(0),
            order.position(1),
            order.position(2),
            order.position(3),
        ),
        (1, 2, 0, 3)
    );
    assert_eq!(rt; arranged(&mut order, &most[0..24]), 0);
    assert_eq!(rt;
        (order.input(0), order.position(0), order.position(24)),
        (23, 23, 24)
    );
}

// A record by its mark and the three bytes after it.
// kept: written out, so that the test compares with bytes and not with what the library makes of them.
fn spelled(record: Record) -> [u8; 4] {
    match record {
        Record::Filler => [0, 0, 0, 0],
        Record::Cell(i) => [1, i, 0, 0],
        Record::Off(f, t, c) => [2, f, t, c],
        Record::On(f, t, c) => [3, f, t, c],
        Record::Outlet(t, c) => [4, 0, t, c],
    }
}

#[test]
fn windows(rt: HostRuntime) {
    let bytes = [1, 0, 0, 0, 0, 0, 0, 0, 2, 1, 0, 6, 3, 1, 0, 5, 4, 0, 1, 7];
    let eight = Setup {
        order: ScanOrder::new(),
        places: 64,
        codes: 8,
    };
    let patch = Patch::admit(&bytes, &eight);
    assert_eq!(rt; (patch.count(), patch.bytes().len()), (5, 20));
    for (k, four) in bytes.chunks_exact(4).enumerate() {
        assert_eq!(rt; spelled(patch.record(k)).as_slice(), four);
    }
    assert_eq!(rt; spelled(patch.record(5)), [0, 0, 0, 0]);
    assert_eq!(rt; patch.records().count(), 5);
    for (record, four) in patch.records().zip(bytes.chunks_exact(4)) {
        assert_eq!(rt; spelled(record).as_slice(), four);
    }
    // code 7 is none of seven codes
    let seven = Setup { codes: 7, ..eight };
    let none = Patch::admit(&bytes, &seven);
    assert_eq!(rt; (none.count(), none.bytes().len()), (0, 0));
    assert_eq!(rt; spelled(none.record(0)), [0, 0, 0, 0]);
}
