// The ends of the fields' ranges, and a side from its entry to its withdrawal.
use crate::entry::{Quote, QuoteFields, Whose, WhoseFields};
use crate::fault::{Fault, Field};
use crate::table::Quotes;
use book::{Code, Side};
use std::test::Fail;

fn quote(fields: [u64; 6]) -> QuoteFields {
    QuoteFields {
        whose: WhoseFields {
            executor: fields[0],
            side: fields[1],
        },
        relative: fields[2],
        boundary: fields[3],
        size: fields[4],
        reserve: fields[5],
    }
}

// The place of the first field at fault, 0 where none is.
fn place_at_fault(fields: [u64; 6]) -> u8 {
    match Quote::try_from(quote(fields)) {
        Ok(_) => 0,
        Err(fault) => Code::from(fault).place,
    }
}

#[test]
fn the_first_field_out_of_range_is_named(rt: HostRuntime) {
    let rows = [
        // At the least and at the most.
        ([1, 0, 1, 0, 1, 0], 0),
        ([8, 1, 1_000_000, 100_000_000, 1_000_000, 1_000_000_000], 0),
        // One below the least.
        ([0, 0, 1, 0, 1, 0], 1),
        ([1, 0, 0, 0, 1, 0], 3),
        ([1, 0, 1, 0, 0, 0], 5),
        // One above the most, and from there on all.
        ([9, 2, 1_000_001, 100_000_001, 1_000_001, 1_000_000_001], 1),
        ([8, 2, 1_000_001, 100_000_001, 1_000_001, 1_000_000_001], 2),
        ([8, 1, 1_000_001, 100_000_001, 1_000_001, 1_000_000_001], 3),
        ([8, 1, 1_000_000, 100_000_001, 1_000_001, 1_000_000_001], 4),
        ([8, 1, 1_000_000, 100_000_000, 1_000_001, 1_000_000_001], 5),
        ([8, 1, 1_000_000, 100_000_000, 1_000_000, 1_000_000_001], 6),
        // Nothing is cut to fewer bits.
        ([4_294_967_297, 0, 1, 0, 1, 0], 1),
        ([1, 18_446_744_073_709_551_615, 1, 0, 1, 0], 2),
    ];
    for (fields, place) in rows {
        assert_eq!(rt; place_at_fault(fields), place);
    }
}

// Displayed and reserve.
fn told(quotes: &Quotes, executor: u64, side: u64) -> Option<(u32, u32)> {
    let volumes = quotes.tell(WhoseFields { executor, side }).ok()?;
    Some((volumes.displayed, volumes.reserve))
}

#[test]
fn a_side_from_entry_to_withdrawal(rt: HostRuntime) {
    let mut quotes = Quotes::new();
    assert_eq!(rt; quotes.enter(quote([2, 0, 5, 0, 70, 7])).ok(), Some(0));
    assert_eq!(rt; quotes.enter(quote([2, 1, 5, 0, 400, 1000])).ok(), Some(0));
    let ask = Whose {
        executor: 2,
        side: Side::Ask,
    };
    let ask_fields = WhoseFields {
        executor: 2,
        side: 1,
    };
    assert_eq!(rt; quotes.fill(ask, 401).is_none(), true);
    assert_eq!(rt; quotes.fill(ask, 150).is_some(), true);
    assert_eq!(rt; told(&quotes, 2, 1), Some((400, 850)));
    assert_eq!(rt; quotes.enter(quote([2, 1, 5, 0, 300, 0])).ok(), Some(1250));
    assert_eq!(rt; quotes.withdraw(ask_fields).ok(), Some(300));
    assert_eq!(rt; told(&quotes, 2, 1), Some((0, 0)));
    assert_eq!(rt; quotes.withdraw(ask_fields).is_err(), true);
    assert_eq!(rt; told(&quotes, 2, 0), Some((70, 7)));
}

#[test]
fn a_refusal_is_printed(rt: HostRuntime) -> Result<(), Fail> {
    let text = format!(in rt.alloc(); "{}", Fault::from(Field::Size))?;
    assert_eq!(rt; text.as_str(), "refused 1, layer 2, place 5");
    Ok(())
}
