//! The tab stops that a list says.
ghost use Rattle.std.specs.Prelude.{◌≡◌, ◌==◌, IfOk, map};
ghost use Rattle.std.specs.List.{list_any, slice_split};
ghost use Rattle.everyday_tabs.specs.Lists.{comma, plus};
ghost use Rattle.everyday_tabs.specs.Stops.{interval_stops, item_stop, rises, rises_from, stop_within, stops_after, stops_of, stops_of_items, up_to_zero};

use crate::words::number_of;
use std::alloc::{AllocError, Global};

// The items of a list, which commas separate.
fn items(alloc: Global, list: &[u8]) -> Result<Vec<&[u8]>, AllocError>
    ensures { IfOk result (λ items. map (λ item. item.now) items.items ≡ slice_split (λ sign. sign == comma) list.now) }
{
    list.split(|sign| *sign == b',').collect(alloc)
}

// Whether an item has a plus.
fn has_plus(item: &[u8]) -> bool
    ensures { result ≡ list_any (λ sign. sign == plus) item.now }
{
    item.iter().any(|sign| *sign == b'+')
}

// The stop of an item after another stop, 0 if it is the first.
fn item_stop(columns: u32, margin: u32, before: u64, item: &[u8]) -> u64
    ensures { result ≡ item_stop columns margin before item.now }
{
    let number = u64::from(number_of(columns, item));
    let from = if has_plus(item) { before } else { 0 };
    number
        .saturating_add(from)
        .saturating_add(u64::from(margin))
}

// The stops of items.
fn stops_after(
    alloc: Global,
    columns: u32,
    margin: u32,
    items: &[&[u8]],
) -> Result<Vec<u64>, AllocError>
    ensures { IfOk result (λ stops. stops.items ≡ stops_after columns margin 0 (map (λ item. item.now) items.now)) }
{
    let mut stops = Vec::new(alloc);
    let mut before = 0;
    for item in items {
        before = item_stop(columns, margin, before, item);
        stops.push(before)?;
    }
    Ok(stops)
}

// Stops at an interval.
#[tactic(auto, unfolding(crate::specs::Stops::interval_stops))]
fn interval_stops(
    alloc: Global,
    first: u64,
    interval: u64,
    count: u32,
) -> Result<Vec<u64>, AllocError>
    ensures { IfOk result (λ stops. stops.items ≡ interval_stops first interval count) }
{
    let mut stops = Vec::new(alloc);
    for index in 0..count {
        let way = interval.saturating_mul(u64::from(index));
        stops.push(first.saturating_add(way))?;
    }
    Ok(stops)
}

// The stops of these items: a number alone is an interval.
fn stops_of_items(
    alloc: Global,
    columns: u32,
    margin: u32,
    items: &[&[u8]],
) -> Result<Vec<u64>, AllocError>
    ensures { IfOk result (λ stops. stops.items ≡ stops_of_items columns margin (map (λ item. item.now) items.now)) }
{
    if let [item] = items {
        let interval = u64::from(number_of(columns, item));
        if 0 < interval {
            let first = u64::from(margin).saturating_add(1);
            return interval_stops(alloc, first, interval, columns);
        }
    }
    stops_after(alloc, columns, margin, items)
}

/// The stops that a list says, for so many columns, and a margin that the terminal does not have.
///
/// # Errors
/// `AllocError` if memory ran out.
pub(crate) fn stops_of(
    alloc: Global,
    columns: u32,
    margin: u32,
    list: &[u8],
) -> Result<Vec<u64>, AllocError>
    ensures { IfOk result (λ stops. stops.items ≡ stops_of columns margin list.now) }
{
    let items = items(alloc, list)?;
    stops_of_items(alloc, columns, margin, items.as_slice())
}

// Whether each of some stops is greater than the one before it.
fn rises_from(first: u64, stops: &[u64]) -> bool
    ensures { result ≡ rises_from first stops.now }
{
    let mut before = first;
    for stop in stops {
        if *stop <= before {
            return false;
        }
        before = *stop;
    }
    true
}

/// Whether stops are in increasing order, of which the last is not looked at.
pub(crate) fn rises(stops: &[u64]) -> bool
    ensures { result ≡ rises stops.now }
{
    let Some((first, others)) = stops.split_first() else {
        return true;
    };
    let last = others.len().saturating_sub(1);
    rises_from(*first, &others[..last])
}

/// The stops before the first 0, which ends them.
///
/// # Errors
/// `AllocError` if memory ran out.
pub(crate) fn up_to_zero(alloc: Global, stops: &[u64]) -> Result<Vec<u64>, AllocError>
    ensures { IfOk result (λ kept. kept.items ≡ up_to_zero stops.now) }
{
    let mut kept = Vec::new(alloc);
    for stop in stops {
        if *stop == 0 {
            return Ok(kept);
        }
        kept.push(*stop)?;
    }
    Ok(kept)
}

/// A stop, if it is within so many columns.
pub(crate) fn stop_within(stop: u64, columns: u32) -> Option<u32>
    ensures { result ≡ stop_within columns stop }
{
    match u32::try_from(stop) {
        Ok(stop) if stop <= columns => Some(stop),
        _ => None,
    }
}
