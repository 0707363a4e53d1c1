//! What an oracle tells of its calls: how often it was asked, its stops, and its first core.
ghost use Rattle.std.specs.Prelude.{◌≡◌, ◌++◌, ◌⊎◌, [], Err, All, IfErr, IfOk, OnErr, OnOk};
ghost use Rattle.std.specs.Option.{option_map};
ghost use Rattle.certs.specs.Named.{IsKnownNode, used_members};
ghost use Rattle.certs.specs.Tales.{IsKnownVerdict, first_core_after, listed_stop, no_tale, tale_after};
ghost use Rattle.certs.specs.declared.solving.Stop.TheVariants.{Memory};

use crate::evidence::Proof;
use crate::naming::members_used;
use crate::solving::{Path, Site, Stop, Verdict};
use lp_model::MemberSet;
use std::alloc::{AllocError, Global};
use std::marker::Model;

/// A stop, the set that was asked for, and its enforced part.
#[derive(Drop)]
pub struct StopRecord {
    pub stop: Stop,
    pub set: MemberSet,
    pub enforced: MemberSet,
}

impl Model for StopRecord {
    ghost use Rattle.certs.specs.Tales.{Stopped};

    ghost Value = { Stopped };

    ghost view = { λ r. record { stop = r.stop; set = r.set.members; enforced = r.enforced.members } };
}

/// The members that an infeasible verdict used, and the set that was asked for.
#[derive(Drop)]
pub struct CoreRecord {
    pub core: MemberSet,
    pub asked: MemberSet,
}

impl Model for CoreRecord {
    ghost use Rattle.certs.specs.Tales.{FirstCore};

    ghost Value = { FirstCore };

    ghost view = { λ r. record { core = r.core.members; asked = r.asked.members } };
}

/// What an oracle tells of its calls so far.
#[derive(Drop)]
pub struct Tale {
    asks: u64,
    stops: Vec<StopRecord>,
    first_core: Option<CoreRecord>,
}

impl Model for Tale {
    ghost use Rattle.certs.specs.Tales.{TaleValue};

    ghost Value = { TaleValue };

    ghost view = { λ t. record { asks = t.asks; stops = t.stops.items; first_core = t.first_core } };
}

impl Tale {
    /// Nothing was asked yet.
    pub fn new(alloc: Global) -> Tale
        ensures { result ≡ no_tale }
    {
        Tale {
            asks: 0,
            stops: Vec::new(alloc),
            first_core: None,
        }
    }

    /// How often the oracle was asked.
    pub fn asks(&self) -> u64
        ensures { result ≡ self.now.asks }
    {
        self.asks
    }

    /// Its stops, in order.
    pub fn stops(&self) -> &[StopRecord]
        ensures { result.now ≡ self.now.stops }
    {
        self.stops.as_slice()
    }

    /// The members that its first infeasible verdict used.
    pub fn first_core(&self) -> Option<&CoreRecord>
        ensures { option_map (λ r. r.now) result ≡ self.now.first_core }
    {
        self.first_core.as_ref()
    }

    /// The answer to an ask for a set, once it is told: with one ask more, with a stop at the end of the list, and with
    /// the members that a proof uses where there was no core yet. The proof's columns and rows are ones of the set's
    /// program.
    ///
    /// # Errors
    ///
    /// The stop that is answered, or want of memory for what is to be told. Want of memory is not listed.
    pub fn tell(
        &mut self,
        alloc: Global,
        set: &MemberSet,
        answer: Result<Verdict, Stop>,
    ) -> Result<Verdict, Stop>
        requires { IfOk answer (IsKnownVerdict set.now) }
        ensures answer { (result ≡ answer) ⊎ (result ≡ Err Memory) }
        ensures tale { self.new ≡ tale_after self.old set.now.members result }
    {
        self.asks = self.asks.saturating_add(1);
        match answer {
            Ok(verdict) => told_verdict(alloc, &mut self.first_core, set, verdict),
            Err(stop) => Err(told_alone(alloc, &mut self.stops, set, stop)),
        }
    }
}

// The verdict, once the members that its proof uses are kept where none were; where memory is refused nothing is.
fn told_verdict(
    alloc: Global,
    first: &mut Option<CoreRecord>,
    set: &MemberSet,
    verdict: Verdict,
) -> Result<Verdict, Stop>
    requires { IsKnownVerdict set.now verdict }
    ensures ok { IfOk result (λ told. told ≡ verdict) }
    ensures err { IfErr result (λ stop. stop ≡ Memory) }
    ensures first_core { first.new ≡ first_core_after first.old set.now.members result }
{
    match verdict {
        Verdict::Feasible(point) => Ok(Verdict::Feasible(point)),
        Verdict::Infeasible(proof) => told_proof(alloc, first, set, proof),
    }
}

// The infeasible verdict of a proof, once the members that it uses are kept where none were.
fn told_proof(
    alloc: Global,
    first: &mut Option<CoreRecord>,
    set: &MemberSet,
    proof: Proof,
) -> Result<Verdict, Stop>
    requires { All (IsKnownNode set.now) proof.nodes }
    ensures ok { IfOk result (λ told. told ≡ Verdict.Infeasible proof) }
    ensures err { IfErr result (λ stop. stop ≡ Memory) }
    ensures first_core { first.new ≡ first_core_after first.old set.now.members result }
{
    if first.is_some() {
        return Ok(Verdict::Infeasible(proof));
    }
    let Ok(core) = core_record(alloc, set, &proof) else {
        return Err(Stop::Memory);
    };
    *first = Some(core);
    Ok(Verdict::Infeasible(proof))
}

// The members of the set that a proof uses, and the set.
fn core_record(alloc: Global, set: &MemberSet, proof: &Proof) -> Result<CoreRecord, AllocError>
    requires { All (IsKnownNode set.now) proof.now.nodes }
    ensures { IfOk result (λ kept. kept ≡ record { core = used_members set.now.members proof.now.nodes; asked = set.now.members }) }
{
    let core = members_used(alloc, set, proof)?;
    let asked = set.copy(alloc)?;
    Ok(CoreRecord { core, asked })
}

// The stop that is answered to an ask with no enforced part.
fn told_alone(alloc: Global, stops: &mut Vec<StopRecord>, set: &MemberSet, stop: Stop) -> Stop
    ensures listed { stops.new.items ≡ stops.old.items ++ listed_stop result set.now.members [] }
    ensures stop { (result ≡ stop) ⊎ (result ≡ Memory) }
{
    match set.emptied(alloc) {
        Ok(none) => told_stop(alloc, stops, set, &none, stop),
        Err(_) => Stop::Memory,
    }
}

/// The stop that is answered: this one once it stands at the end of the list, or want of memory where the list could not
/// grow. The list then stays as it was.
pub fn told_stop(
    alloc: Global,
    stops: &mut Vec<StopRecord>,
    set: &MemberSet,
    enforced: &MemberSet,
    stop: Stop,
) -> Stop
    ensures listed { let listed = listed_stop result set.now.members enforced.now.members in
        stops.new.items ≡ stops.old.items ++ listed }
    ensures stop { (result ≡ stop) ⊎ (result ≡ Memory) }
{
    match list_stop(alloc, stops, set, enforced, &stop) {
        Ok(()) => stop,
        Err(_) => Stop::Memory,
    }
}

// Puts a stop at the end of the list; want of memory is not listed.
fn list_stop(
    alloc: Global,
    stops: &mut Vec<StopRecord>,
    set: &MemberSet,
    enforced: &MemberSet,
    stop: &Stop,
) -> Result<(), AllocError>
    ensures ok { let listed = listed_stop stop.now set.now.members enforced.now.members in
        OnOk result (stops.new.items ≡ stops.old.items ++ listed) }
    ensures err { OnErr result (stops.new.items ≡ stops.old.items) }
{
    if matches!(stop, Stop::Memory) {
        return Ok(());
    }
    let record = stop_record(alloc, set, enforced, stop)?;
    stops.push(record)?;
    Ok(())
}

// The record of a stop.
fn stop_record(
    alloc: Global,
    set: &MemberSet,
    enforced: &MemberSet,
    stop: &Stop,
) -> Result<StopRecord, AllocError>
    ensures { IfOk result (λ made. made
        ≡ record { stop = stop.now; set = set.now.members; enforced = enforced.now.members }) }
{
    let stop = copied(alloc, stop)?;
    let set = set.copy(alloc)?;
    let enforced = enforced.copy(alloc)?;
    Ok(StopRecord {
        stop,
        set,
        enforced,
    })
}

// The same stop once more.
fn copied(alloc: Global, stop: &Stop) -> Result<Stop, AllocError>
    ensures { IfOk result (λ copy. copy ≡ stop.now) }
{
    match stop {
        Stop::Wide(site, step, operation) => {
            Ok(Stop::Wide(copied_site(alloc, site)?, *step, *operation))
        }
        Stop::Pivots(site) => Ok(Stop::Pivots(copied_site(alloc, site)?)),
        Stop::Nodes(site) => Ok(Stop::Nodes(copied_site(alloc, site)?)),
        Stop::Large(size) => Ok(Stop::Large(*size)),
        Stop::Memory => Ok(Stop::Memory),
    }
}

// The same site once more.
fn copied_site(alloc: Global, site: &Site) -> Result<Site, AllocError>
    ensures { IfOk result (λ copy. copy ≡ site.now) }
{
    let set = site.set.copy(alloc)?;
    let enforced = site.enforced.copy(alloc)?;
    let path = Path::new(Vec::from_slice(alloc, site.path.as_slice())?);
    Ok(Site {
        kind: site.kind,
        set,
        enforced,
        path,
    })
}
