//! A settle run over a network whose sinks ask for more than its sources have: what `bench/settle.sh` measures.
ghost use Rattle.std.specs.Prelude.{◌<◌};
ghost use Rattle.frac128.specs.Limit.{limit};
ghost use Rattle.certs.specs.Tableau.{IsWellFormedSystem};
ghost use Rattle.dictionary.specs.Starts.{FitSystem};

use certs::{Limits, System};
use dictionary::{Dictionary, is_formed};
use frac128::Frac;
use lp_model::{Row, Term, Terms};
use simplex::{RunStop, Settled, settle};
use std::alloc::{AllocError, Global};

// More pivots than any of the sizes takes.
const BUDGET: u64 = 1_000_000_000;

/// How many sources, sinks and routes there are; a route leads from one source to one or two sinks.
#[derive(Clone, Copy)]
pub(crate) struct Network {
    pub(crate) sources: u32,
    pub(crate) sinks: u32,
    pub(crate) routes: u32,
}

// A number below the bound, by a linear congruence.
fn draw(seed: u32, bound: u32) -> u32
    requires { 0 < bound }
    ensures { result < bound }
{
    let mixed = u64::from(seed)
        .wrapping_mul(6_364_136_223_846_793_005)
        .wrapping_add(1_442_695_040_888_963_407);
    ((mixed >> 33) % u64::from(bound)) as u32
}

// How often a route counts at a source.
fn source_factor(network: Network, source: u32, route: u32) -> u32
    requires { 0 < network.sources }
{
    u32::from(draw(route, network.sources) == source)
}

// How often a route counts at a sink.
fn sink_factor(network: Network, sink: u32, route: u32) -> u32
    requires { 0 < network.sinks }
{
    if route % network.sinks == sink {
        return 1;
    }
    if route % 12 == 0 && draw(route.wrapping_mul(7), network.sinks) == sink {
        return 1 + draw(route, 2);
    }
    0
}

// The terms of a source, or of a sink.
fn terms(alloc: Global, network: Network, place: u32, source: bool) -> Result<Terms, AllocError>
    requires sources { 0 < network.sources }
    requires sinks { 0 < network.sinks }
{
    let mut items = Vec::new(alloc);
    for route in 0..network.routes {
        let factor = if source {
            source_factor(network, place, route)
        } else {
            sink_factor(network, place, route)
        };
        if factor > 0 {
            items.push(Term {
                column: route,
                factor: Frac::whole(i64::from(factor)),
            })?;
        }
    }
    Ok(Terms::new(items))
}

// The rows: a source has from 5 to 14, and a sink asks for 8 to 16.
fn rows(alloc: Global, network: Network) -> Result<Vec<Row>, AllocError>
    requires sources { 0 < network.sources }
    requires sinks { 0 < network.sinks }
{
    let mut rows = Vec::new(alloc);
    for source in 0..network.sources {
        let supply = Frac::whole(5 + i64::from(draw(source, 10)));
        rows.push(Row::new(terms(alloc, network, source, true)?, None, Some(supply)))?;
    }
    for sink in 0..network.sinks {
        let demand = Frac::whole(8 + i64::from(draw(sink, 9)));
        rows.push(Row::new(terms(alloc, network, sink, false)?, Some(demand), None))?;
    }
    Ok(rows)
}

// The limits of the routes: at least 0, and every fourth at most 2 to 8.
fn columns(alloc: Global, network: Network) -> Result<Vec<Limits>, AllocError> {
    let mut columns = Vec::new(alloc);
    for route in 0..network.routes {
        let up = if route % 4 == 0 {
            Some(Frac::whole(2 + i64::from(draw(route, 7))))
        } else {
            None
        };
        columns.push(Limits {
            lo: Some(Frac::whole(0)),
            up,
        })?;
    }
    Ok(columns)
}

/// What a run came to, and how many entries the dictionary keeps where it ends.
#[derive(Clone, Copy)]
pub(crate) struct Told {
    pub(crate) pivots: u64,
    pub(crate) turns: u64,
    pub(crate) stored: u64,
    pub(crate) end: &'static str,
}

// The word for the end of a run.
fn word(end: Result<Settled, RunStop>) -> &'static str {
    match end {
        Ok(settled) => settled_word(settled),
        Err(stop) => stop_word(stop),
    }
}

fn settled_word(settled: Settled) -> &'static str {
    match settled {
        Settled::Feasible => "feasible",
        Settled::Infeasible(_) => "infeasible",
    }
}

fn stop_word(stop: RunStop) -> &'static str {
    match stop {
        RunStop::Wide(_, _) => "wide",
        RunStop::Pivots => "spent",
        RunStop::Memory => "memory",
    }
}

// One run over a system, from its start.
fn run(alloc: Global, system: &System) -> Result<Told, AllocError>
    requires formed { IsWellFormedSystem system.now }
    requires fits { FitSystem limit system.now }
{
    let mut dictionary = Dictionary::<Frac>::start(alloc, system)?;
    let mut left = BUDGET;
    let mut turns = 0;
    let end = settle(&mut dictionary, &mut left, &mut turns);
    let stored = if end.is_ok() { dictionary.stored() } else { 0 };
    Ok(Told {
        pivots: BUDGET.wrapping_sub(left),
        turns,
        stored,
        end: word(end),
    })
}

// What is told where no run was made.
fn told_without_a_run(end: &'static str) -> Told {
    Told {
        pivots: 0,
        turns: 0,
        stored: 0,
        end,
    }
}

// The last of so many runs over a system.
fn repeat(alloc: Global, system: &System, times: u32) -> Result<Told, AllocError>
    requires formed { IsWellFormedSystem system.now }
    requires fits { FitSystem limit system.now }
{
    let mut told = told_without_a_run("not run");
    for _ in 0..times {
        told = run(alloc, system)?;
    }
    Ok(told)
}

/// The last of so many runs over the network's system.
///
/// # Errors
///
/// Where there is no memory for it.
pub(crate) fn run_network(alloc: Global, network: Network, times: u32) -> Result<Told, AllocError>
    requires sources { 0 < network.sources }
    requires sinks { 0 < network.sinks }
{
    let system = System {
        columns: columns(alloc, network)?,
        rows: rows(alloc, network)?,
        objective: None,
    };
    if !is_formed(&system) {
        return Ok(told_without_a_run("not formed"));
    }
    repeat(alloc, &system, times)
}
