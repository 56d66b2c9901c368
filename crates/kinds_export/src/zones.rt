ghost use Rattle.std.specs.Prelude.{◌≡◌};
ghost use Rattle.zone.specs.Zones.{zone_calls};
ghost use Rattle.kinds_export.specs.Answers.{gap_of, told};

use crate::answer::{gap_of, put};
use clockset::ClockSet;
use zone::Zone;

#[unsafe(no_mangle)]
pub extern "C" fn kinds_zone_all(zone: &mut Zone)
    ensures { zone.new ≡ zone_calls.all }
{
    *zone = Zone::all();
}

#[unsafe(no_mangle)]
pub extern "C" fn kinds_zone_zero(zone: &mut Zone)
    ensures { zone.new ≡ zone_calls.zero }
{
    *zone = Zone::zero();
}

#[unsafe(no_mangle)]
pub extern "C" fn kinds_zone_gap(
    zone: &mut Zone,
    first: u8,
    second: u8,
    strict: bool,
    constant: i32,
) -> u8
    ensures { (result, zone.new) ≡ told (λ s. s) zone.old (zone_calls.gap zone.old (gap_of first second strict constant)) }
{
    let result = zone.gap(gap_of(first, second, strict, constant));
    put(zone, result)
}

#[unsafe(no_mangle)]
pub extern "C" fn kinds_zone_reset(zone: &mut Zone, mask: u8) -> u8
    ensures { (result, zone.new) ≡ told (λ s. s) zone.old (zone_calls.reset zone.old mask) }
{
    let result = zone.reset(mask);
    put(zone, result)
}

#[unsafe(no_mangle)]
pub extern "C" fn kinds_zone_delay(zone: &mut Zone) -> u8
    ensures { (result, zone.new) ≡ told (λ s. s) zone.old (zone_calls.delay zone.old) }
{
    let result = zone.delay();
    put(zone, result)
}

#[unsafe(no_mangle)]
pub extern "C" fn kinds_zone_within(low: &Zone, high: &Zone) -> bool
    ensures { result ≡ zone_calls.within low.now high.now }
{
    low.within(high)
}

#[unsafe(no_mangle)]
pub extern "C" fn kinds_zone_is_empty(zone: &Zone) -> bool
    ensures { result ≡ zone_calls.empty zone.now }
{
    zone.is_empty()
}
