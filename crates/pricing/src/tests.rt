// The ends of a book, which the worked figures do not show.
use crate::averaging::walk;
use crate::records::Walked;
use book::{Resting, Side, Snapshot};

// (`worked_fill`, above this crate, has the like for its asks.)
fn order(number: u32, volume: u32, limit: u32, visible: bool) -> Resting {
    Resting {
        number,
        member: 40,
        limit,
        volume,
        visible,
    }
}

#[test]
fn exactly_enough_and_one_share_short(rt: HostRuntime) {
    let asks = [
        order(1, 30, 10, false),
        order(2, 20, 11, true),
        order(3, 50, 12, false),
    ];
    let book = Snapshot {
        bids: &[],
        asks: &asks,
    };
    // 20 * 11 + 50 * 12
    assert_eq!(rt;
        walk(&book, Side::Ask, 70),
        Some(Walked {
            cost: 820,
            last: 12,
        })
    );
    assert_eq!(rt; walk(&book, Side::Ask, 71), None);
}

#[test]
fn nothing_counts(rt: HostRuntime) {
    let bids = [order(1, 30, 10, false), order(2, 50, 9, false)];
    let book = Snapshot {
        bids: &bids,
        asks: &[],
    };
    assert_eq!(rt; walk(&book, Side::Bid, 1), None, "only hidden orders");
    assert_eq!(rt; walk(&book, Side::Ask, 1), None, "an empty side");
}

#[test]
fn volumes_at_the_ends(rt: HostRuntime) {
    let bids = [
        order(1, 0, u32::MAX, true),
        order(2, u32::MAX, u32::MAX, true),
    ];
    let book = Snapshot {
        bids: &bids,
        asks: &[],
    };
    assert_eq!(rt; walk(&book, Side::Bid, 0), None);
    // 1,000,000 * 4,294,967,295
    assert_eq!(rt;
        walk(&book, Side::Bid, 1_000_000),
        Some(Walked {
            cost: 4_294_967_295_000_000,
            last: u32::MAX,
        })
    );
    assert_eq!(rt; walk(&book, Side::Bid, 1_000_001), None);
}
