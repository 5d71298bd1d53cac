//! A fan: all samples under way go to their ends, round by round, the routers of a round being handled by a gang.

ghost use Rattle.std.specs.Prelude.{◌≡◌, ◌∷◌, ◌||◌, [], true, Ok, IfOk, OnOk, OnErr};
ghost use Rattle.zr_world.specs.Fanned.{AreTaken};
ghost use Rattle.zr_world.specs.Steps.{AppliesTo};

use crate::router::WorldRouter;
use crate::tables::WorldTables;
use std::alloc::{AllocError, Global};
use std::collections::BTreeMap;
use std::mem;
use std::thread::Threads;
use zr_carrier::carrier::Carrier;
use zr_id::zid::Zid;
use zr_script_spec::error::ScriptError;
use zr_script_spec::report::ReportLine;
use zr_world_gang::gang::Gang;
use zr_world_gang::share::Share;
use zr_world_rounds::fan::fan;

/// How many samples are under way at most.
const MOST_FANNED: u64 = 2000;

/// How many bytes their keys and bodies have together at most.
const MOST_FANNED_BYTES: u64 = 1_048_576;

impl<C: Carrier> WorldTables<C> {
    ghost use Rattle.zr_world_spec.specs.Fan.{are_samples, are_many, are_long};
    ghost use Rattle.zr_world_spec.specs.Next.{fan_done, fan_step};
    ghost use Rattle.zr_world_spec.specs.Sound.{IsSound};
    ghost use Rattle.zr_world_spec.specs.World.{Routers, with_routers};
    ghost use Rattle.zr_world.specs.Fanned.{AreOf, AreTaken, IsJudged, MayBegin};
    ghost use Rattle.zr_world.specs.State.{state_of};

    /// All samples under way go to their ends, and one line tells their steps.
    pub fn fan<R: Threads + Sync, G: Gang>(
        &mut self,
        line: u64,
        rt: &R,
        gang: &mut G,
        report: &mut Vec<ReportLine>,
    ) -> Result<(), ScriptError>
        requires { IsSound (state_of self.old) }
        ensures applies { AppliesTo result (fan_step (state_of self.old) line) (state_of self.old) (state_of self.new) report.old.items report.new.items }
        ensures limits { result ≡ Err ScriptError.Limit → (are_many (state_of self.old) || are_long (state_of self.old)) ≡ true }
    {
        match self.judge_fan() {
            Ok(()) => self.tell_fan(line, rt, gang, report),
            Err(refusal) => Err(refusal),
        }
    }

    // Why a fan is refused.
    #[tactic(auto, using(crate::proofs::Fanning::fan_unsettled, crate::proofs::Fanning::fan_unfit, crate::proofs::Fanning::fan_too_much))]
    fn judge_fan(&self) -> Result<(), ScriptError>
        ensures { IsJudged (state_of self.now) result }
    {
        if !self.is_settled() {
            return Err(ScriptError::NotSettled);
        }
        if !self.has_samples() {
            return Err(ScriptError::NotSamples);
        }
        if self.is_too_much() {
            return Err(ScriptError::Limit);
        }
        Ok(())
    }

    // A fan that no test refuses.
    fn tell_fan<R: Threads + Sync, G: Gang>(
        &mut self,
        line: u64,
        rt: &R,
        gang: &mut G,
        report: &mut Vec<ReportLine>,
    ) -> Result<(), ScriptError>
        requires sound { IsSound (state_of self.old) }
        requires judged { MayBegin (state_of self.old) }
        ensures applies { AppliesTo result (fan_step (state_of self.old) line) (state_of self.old) (state_of self.new) report.old.items report.new.items }
        ensures memory { OnErr result (result ≡ Err ScriptError.NoMemory) }
    {
        let told = self.do_fan(line, rt, gang)?;
        report.push(told)?;
        Ok(())
    }

    // Whether only samples are under way.
    fn has_samples(&self) -> bool
        ensures { result ≡ are_samples (state_of self.now) }
    {
        self.ends.have_samples()
    }

    // Whether more is under way than a fan takes.
    fn is_too_much(&self) -> bool
        ensures { result ≡ (are_many (state_of self.now) || are_long (state_of self.now)) }
    {
        self.are_many() || self.are_long()
    }

    // Whether more are under way than a fan takes.
    #[tactic(auto, using(crate::proofs::Fanning::above_capped))]
    fn are_many(&self) -> bool
        ensures { result ≡ are_many (state_of self.now) }
    {
        self.ends.count() > MOST_FANNED
    }

    // Whether their keys and bodies have more bytes than a fan takes.
    #[tactic(auto, using(crate::proofs::Fanning::above_capped))]
    fn are_long(&self) -> bool
        ensures { result ≡ are_long (state_of self.now) }
    {
        self.ends.sample_bytes() > MOST_FANNED_BYTES
    }

    // The samples that are under way go to their ends, and the line that tells it.
    fn do_fan<R: Threads + Sync, G: Gang>(
        &mut self,
        line: u64,
        rt: &R,
        gang: &mut G,
    ) -> Result<ReportLine, AllocError>
        requires sound { IsSound (state_of self.old) }
        requires judged { MayBegin (state_of self.old) }
        ensures { IfOk result (λ l. fan_done line (state_of self.old) ≡ Ok (l ∷ [], state_of self.new)) }
    {
        // What is told doesn't depend on the fan's own line: samples have the tags of theirs.
        let _line = line;
        let (shares, weights) = self.take_routers()?;
        let ends = self.ends.take_all(self.alloc)?;
        let (told, shares) = fan(rt, self.alloc, gang, shares, ends)?;
        self.put_routers(shares, weights)?;
        Ok(told)
    }

    // New shares of all routers, in order, and what their declarations weigh. Out of memory too where a router was before.
    fn take_routers(&mut self) -> Result<(Vec<Share>, Vec<u64>), AllocError>
        ensures taken { IfOk result (λ x. AreTaken (state_of self.old).routers x.0.items x.1.items) }
        ensures rest { IfOk result (λ x. state_of self.new ≡ with_routers (state_of self.old) []) }
    {
        let routers = mem::replace(&mut self.routers, BTreeMap::new(self.alloc));
        shares_of(self.alloc, routers)
    }

    // The routers of these shares are in the world again.
    fn put_routers(&mut self, shares: Vec<Share>, weights: Vec<u64>) -> Result<(), AllocError>
        requires none { (state_of self.old).routers ≡ [] }
        ensures { OnOk result ((rs : Routers) → AreOf rs shares.items weights.items → state_of self.new ≡ with_routers (state_of self.old) rs) }
    {
        let mut weights = weights.into_iter();
        for share in shares {
            let Some(weight) = weights.next() else {
                return Err(AllocError);
            };
            let name = share.name();
            let router = WorldRouter::from_parts(share.into_hub(), weight);
            drop(self.routers.insert(name, router)?);
        }
        Ok(())
    }
}

// New shares of routers, in order, and what their declarations weigh. Out of memory too where a router was before.
fn shares_of(
    alloc: Global,
    routers: BTreeMap<Zid, WorldRouter>,
) -> Result<(Vec<Share>, Vec<u64>), AllocError>
    ensures { IfOk result (λ x. AreTaken routers.entries x.0.items x.1.items) }
{
    let mut shares = Vec::new(alloc);
    let mut weights = Vec::new(alloc);
    for (name, router) in routers {
        let (hub, weight) = router.into_parts();
        if !hub.is_calm() {
            return Err(AllocError);
        }
        shares.push(Share::new(alloc, name, hub))?;
        weights.push(weight)?;
    }
    Ok((shares, weights))
}
