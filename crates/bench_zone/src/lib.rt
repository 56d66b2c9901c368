//! The calls of zones for a benchmark in Rust: each writes its result over its zone, and says whether it came.

#![tactic(auto)]

use clocks::{Gap, Sign};
use clockset::ClockSet;
use slip::Slip;
use zone::Zone;

// The exports of kinds_export answer with the refusal's number, these with whether the zone came: two C interfaces, a `put` for each.
fn put(zone: &mut Zone, res: Result<Zone, Slip>) -> bool {
    match res {
        Ok(z) => {
            *zone = z;
            true
        }
        Err(_) => false,
    }
}

#[unsafe(no_mangle)]
pub extern "C" fn bench_zone_gap(
    zone: &mut Zone,
    first: u8,
    second: u8,
    strict: bool,
    constant: i32,
) -> bool {
    let result = zone.gap(Gap {
        first,
        second,
        sign: Sign::strict(strict),
        constant,
    });
    put(zone, result)
}

#[unsafe(no_mangle)]
pub extern "C" fn bench_zone_reset(zone: &mut Zone, mask: u8) -> bool {
    let result = zone.reset(mask);
    put(zone, result)
}

#[unsafe(no_mangle)]
pub extern "C" fn bench_zone_delay(zone: &mut Zone) -> bool {
    let result = zone.delay();
    put(zone, result)
}

#[unsafe(no_mangle)]
pub extern "C" fn bench_zone_within(low: &Zone, high: &Zone) -> bool {
    low.within(high)
}
