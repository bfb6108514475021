// A full table, the ends of the fields' ranges, and what is looked up.
use crate::provider::ProviderFields;
use crate::table::Providers;
use book::Code;

// The number and the place of a refusal, or 0 and what is answered.
fn set(providers: &mut Providers, fields: [u64; 3]) -> (u8, u32) {
    let fields = ProviderFields {
        member: fields[0],
        agreements: fields[1],
        default: fields[2],
    };
    match providers.set(fields) {
        Ok(agreed) => (0, agreed),
        Err(fault) => {
            let code = Code::from(fault);
            (code.number, code.place as u32)
        }
    }
}

#[test]
fn settings_one_after_another(rt: HostRuntime) {
    let mut providers = Providers::new();
    // From the highest member down to 2, so that each goes to the front.
    for below in 0..63 {
        assert_eq!(rt; set(&mut providers, [64 - below, 1, 7]), (0, 1));
    }
    let rows = [
        // The ends of the ranges.
        ([0, 1, 1], (1, 1)),
        ([251, 256, 256], (1, 1)),
        ([250, 256, 256], (1, 2)),
        ([250, 255, 256], (1, 3)),
        ([250, 255, 255], (0, 8)),
        ([257, 255, 255], (1, 1)),
        // All 64 stand: no 65th, but any of them can be set again.
        ([1, 1, 1], (12, 0)),
        ([20, 0b1010_0110, 3], (0, 4)),
        // An absent one stays absent; a default alone is enough to stand.
        ([1, 0, 0], (0, 0)),
        ([64, 0, 0], (0, 0)),
        ([1, 0, 9], (0, 0)),
        ([64, 1, 0], (12, 0)),
    ];
    for (fields, told) in rows {
        assert_eq!(rt; set(&mut providers, fields), told);
    }
    let executors_of_20 = [false, true, true, false, false, true, false, true];
    for (executor, agreed) in (1..=8).zip(executors_of_20) {
        assert_eq!(rt; providers.agrees(20, executor), agreed);
    }
    assert_eq!(rt; providers.agrees(64, 1), false);
    assert_eq!(rt; providers.agrees(64, 64), true);
    assert_eq!(rt; providers.default_of(20), Some(3));
    assert_eq!(rt; providers.default_of(1), Some(9));
    assert_eq!(rt; providers.default_of(64), None);
}
