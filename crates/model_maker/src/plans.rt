//! The text of a production plan.
ghost use Rattle.std.specs.Prelude.{◌≡◌, ◌≤◌, ◌++◌, MatchResult, IfOk, OnOk, decimal, map};
ghost use Rattle.std.specs.List.{range_with_len};
ghost use Rattle.model_maker.specs.PlanText.{demand, further_stocks, cost_line, carried, balance_line, bound_line, ended, text_of, plan_text};
ghost use Rattle.model_maker.specs.Making.{IsPlanText, IsMakeStop};

use itoa::Buffer;
use std::alloc::{AllocError, Global};

/// The least number of periods of a plan.
pub const LEAST_PERIODS: u32 = 2;

/// The greatest number of periods of a plan.
pub const MOST_PERIODS: u32 = 60;

/// Why no text is made.
#[derive(Clone, Copy, PartialEq, Eq)]
pub enum MakeStop {
    /// There are less than 2 or more than 60 periods.
    OutOfRange,
    /// Memory was refused.
    Memory,
}

// Appends words and a number.
fn push_numbered(words: &[u8], number: u32, into: &mut Vec<u8>) -> Result<(), AllocError>
    ensures { OnOk result (into.new.items ≡ into.old.items ++ (words.now ++ decimal number)) }
{
    let mut buffer = Buffer::new();
    into.extend_from_slice(words)?;
    into.extend_from_slice(buffer.format(number).as_bytes())
}

// What is demanded in a period.
fn demand_in(periods: u32, period: u32) -> u32
    ensures { result ≡ demand periods period }
{
    let usual = if period % 2 == 1 { 9 } else { 11 };
    let more = if period == periods { 2 } else { 0 };
    usual + more
}

// Appends the stocks after the first, each with a plus before it.
fn push_stocks(periods: u32, into: &mut Vec<u8>) -> Result<(), AllocError>
    ensures { OnOk result (into.new.items ≡ into.old.items ++ further_stocks periods) }
{
    for period in 2..=periods {
        push_numbered(b" + s", period, into)?;
    }
    Ok(())
}

// Appends the line of the cost.
fn push_cost(periods: u32, into: &mut Vec<u8>) -> Result<(), AllocError>
    ensures { OnOk result (into.new.items ≡ into.old.items ++ ended (cost_line periods)) }
{
    push_numbered(b" cost: s", 1, into)?;
    push_stocks(periods, into)?;
    into.push(b'\n')?;
    Ok(())
}

// Appends the stock from the period before, of which the first period has none.
fn push_carried(period: u32, into: &mut Vec<u8>) -> Result<(), AllocError>
    requires { 1 ≤ period }
    ensures { OnOk result (into.new.items ≡ into.old.items ++ carried period) }
{
    if period == 1 {
        return Ok(());
    }
    push_numbered(b"s", period - 1, into)?;
    into.extend_from_slice(b" + ")
}

// Appends the row of a period.
fn push_balance(periods: u32, period: u32, into: &mut Vec<u8>) -> Result<(), AllocError>
    requires { 1 ≤ period }
    ensures { OnOk result (into.new.items
        ≡ into.old.items ++ ended (balance_line periods period)) }
{
    push_numbered(b" b", period, into)?;
    into.extend_from_slice(b": ")?;
    push_carried(period, into)?;
    push_numbered(b"p", period, into)?;
    push_numbered(b" - s", period, into)?;
    push_numbered(b" = ", demand_in(periods, period), into)?;
    into.push(b'\n')?;
    Ok(())
}

// Appends the rows of all periods.
fn push_balances(periods: u32, into: &mut Vec<u8>) -> Result<(), AllocError>
    ensures { OnOk result (into.new.items
        ≡ into.old.items ++ text_of (map (balance_line periods) (range_with_len 1 periods))) }
{
    for period in 1..=periods {
        push_balance(periods, period, into)?;
    }
    Ok(())
}

// Appends the bound of a period.
fn push_bound(period: u32, into: &mut Vec<u8>) -> Result<(), AllocError>
    ensures { OnOk result (into.new.items ≡ into.old.items ++ ended (bound_line period)) }
{
    push_numbered(b" p", period, into)?;
    into.extend_from_slice(b" <= 10\n")
}

// Appends the bounds of all periods.
fn push_bounds(periods: u32, into: &mut Vec<u8>) -> Result<(), AllocError>
    ensures { OnOk result (into.new.items
        ≡ into.old.items ++ text_of (map bound_line (range_with_len 1 periods))) }
{
    for period in 1..=periods {
        push_bound(period, into)?;
    }
    Ok(())
}

// The whole text.
fn write_plan(alloc: Global, periods: u32) -> Result<Vec<u8>, AllocError>
    ensures { IfOk result (λ text. text.items ≡ plan_text periods) }
{
    let mut text = Vec::from_slice(alloc, b"Minimize\n")?;
    push_cost(periods, &mut text)?;
    text.extend_from_slice(b"Subject To\n")?;
    push_balances(periods, &mut text)?;
    text.extend_from_slice(b"Bounds\n")?;
    push_bounds(periods, &mut text)?;
    text.extend_from_slice(b"End\n")?;
    Ok(text)
}

/// The text, in the LP format of CPLEX, of a production plan of so many periods that cannot be met.
///
/// In each period at most 10 may be made, and what is made beyond the demand stays in stock for the period after. The demands
/// are 9 and 11 in turn, and 2 more in the last period, so that one more than may be made is demanded in all where the number of
/// periods is odd, and 2 more where it is even. The sum of the stocks is to be made least.
///
/// `OutOfRange` exactly where there are less than 2 or more than 60 periods; `Memory` only for want of memory.
pub fn make(alloc: Global, periods: u32) -> Result<Vec<u8>, MakeStop>
    ensures { MatchResult result (λ text. IsPlanText periods text.items) (IsMakeStop periods) }
{
    if !(LEAST_PERIODS..=MOST_PERIODS).contains(&periods) {
        return Err(MakeStop::OutOfRange);
    }
    let Ok(text) = write_plan(alloc, periods) else {
        return Err(MakeStop::Memory);
    };
    Ok(text)
}
