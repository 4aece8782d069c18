//! Copies of bars and of values.
ghost use Rattle.std.specs.Prelude.{◌≡◌, ◌≤◌, ◌+◌, ◌-◌, List, length, All, IfOk, drop};
ghost use Rattle.indicators.specs.Prices.{IsPriced};
ghost use Rattle.indicators.specs.Values.{IsIndicator};
ghost use Rattle.series.specs.Bars.{most_told};
ghost use Rattle.series.specs.Asked.{Fills, copied, buffered, values_from, values_told};

use crate::fault::SeriesFault;
use crate::held::Held;
use fx8::{Fix8, FixList, OutOfMemory};
use indicators::{Indicator, told};
use market_types::{Bar, BarList};
use std::alloc::Global;

/// Fills a list with so many of the bars that are told.
pub(crate) fn copy_bars(
    alloc: Global,
    bars: &[Bar],
    start: u32,
    count: u32,
    out: &mut BarList,
) -> Result<(), SeriesFault>
    requires { length bars.now ≤ most_told }
    ensures { Fills (copied start count bars.now) out.old result out.new }
{
    let wanted = start as usize + count as usize;
    if bars.len() < wanted {
        return Err(SeriesFault::NotEnough(bars.len() as u32));
    }
    let (_, rest) = bars.split_at(bars.len() - wanted);
    let (part, _) = rest.split_at(count as usize);
    *out = BarList::from_slice(alloc, part)?;
    Ok(())
}

/// What an indicator tells at so many bars from a place on.
fn values(
    alloc: Global,
    indicator: &Indicator,
    bars: &[Bar],
    place: usize,
    count: u32,
) -> Result<FixList, OutOfMemory>
    requires indicator { IsIndicator indicator.now }
    requires bars { All IsPriced bars.now }
    requires place { place ≤ length bars.now }
    ensures { IfOk result (λ values. values ≡ values_from indicator.now bars.now place count) }
{
    let mut values: Vec<Fix8> = Vec::new(alloc);
    for k in 0..count {
        let newest = (place + k as usize + 1).min(bars.len());
        let (seen, _) = bars.split_at(newest);
        values.push(told(alloc, indicator, seen)?)?;
    }
    Ok(FixList::from_vec(values))
}

/// Fills a list with so many values of an indicator, over all bars of its symbol and period.
pub(crate) fn copy_values(
    alloc: Global,
    held: &Held,
    bars: &[Bar],
    start: u32,
    count: u32,
    out: &mut FixList,
) -> Result<(), SeriesFault>
    requires indicator { IsIndicator held.now.indicator }
    requires bars { All IsPriced bars.now }
    ensures { Fills (buffered held.now start count bars.now) out.old result out.new }
{
    let told = bars.len().min(20_000);
    let wanted = start as usize + count as usize;
    if told < wanted {
        return Err(SeriesFault::NotEnough(told as u32));
    }
    let (_, seen) = bars.split_at(bars.len().min(held.first as usize));
    *out = values(
        alloc,
        &held.indicator,
        seen,
        seen.len().saturating_sub(wanted),
        count,
    )?;
    Ok(())
}
