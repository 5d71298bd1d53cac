//! `make`: a script from a plan, written part by part.

ghost use Rattle.std.specs.Prelude.{◌≡◌, ◌+◌, ◌*◌, ◌-◌, ◌<◌, ◌≤◌, ◌%◌, true, [], ◌∷◌, codes, Err, OnErr, OnOk};
ghost use Rattle.rand_core.specs.Stream.{next_u32};
ghost use Rattle.zr_outside.specs.Counts.{Rose, RoseOnlyBy};
ghost use Rattle.zr_outside.specs.Told.{Appends, AppendsPrefix};
ghost use Rattle.zr_make.specs.Draws.{behind, pick};
ghost use Rattle.zr_make.specs.Making.{Makes};
ghost use Rattle.zr_make.specs.Plan.{is_in_range};
ghost use Rattle.zr_make.specs.Script.{all_clients, all_links, all_routers, all_samples, client_lines, link_lines, network, router_line, run_line, sample_line, script, text_of, traffic};

use crate::error::MakeError;
use crate::line::{put_client, put_link, put_router, put_sample};
use crate::plan::MakePlan;
use rand_core::{Rng, SeedableRng};
use rand_pcg::Lcg64Xsh32;
use std::alloc::Global;
use zr_outside::sink::{Sink, write_all};

/// How many keys there are.
const KEYS: u32 = 8;

/// One client of so many subscribes to all keys.
const KINDS: u32 = 4;

/// All that is under way goes on.
const RUN: &[u8] = b"run 5000000\n";

/// All that is under way goes on, and then a phase begins.
const SETTLE: &[u8] = b"run 5000000\nmark\n";

/// Writes the script that is made from a plan: routers that are linked as a tree, clients that subscribe to one key or to all, and samples of
/// clients. Where it stops a prefix of the text was written. The memory that it takes doesn't grow with the script.
pub fn make<K: Sink>(alloc: Global, plan: &MakePlan, out: &mut K) -> Result<(), MakeError>
    requires { is_in_range plan.now.routers plan.now.clients plan.now.messages ≡ true }
    ensures done { OnOk result (Appends (text_of (script plan.now)) (K.held out.old) (K.held out.new)) }
    ensures stopped { OnErr result (AppendsPrefix (text_of (script plan.now)) (K.held out.old) (K.held out.new)) }
    ensures fault { result ≡ Err MakeError.WriteFault → Rose (K.faults out.old) (K.faults out.new) }
    ensures only { RoseOnlyBy MakeError.WriteFault result (K.faults out.old) (K.faults out.new) }
    ensures later { K.faults out.old ≤ K.faults out.new }
{
    let mut rng = Lcg64Xsh32::seed_from_u64(plan.number);
    let mut text = Vec::new(alloc);
    write_network(plan.routers, plan.clients, &mut rng, &mut text, out)?;
    write_traffic(plan.clients, plan.messages, &mut rng, &mut text, out)
}

fn write_network<R: Rng, K: Sink>(
    routers: u32,
    clients: u32,
    rng: &mut R,
    text: &mut Vec<u8>,
    out: &mut K,
) -> Result<(), MakeError>
    requires some { 0 < routers }
    requires routers { routers ≤ 64 }
    requires clients { clients ≤ 1024 }
    ensures made { Makes result (network (R.stream rng.old) routers clients) (K.held out.old) (K.held out.new) }
    ensures drawn { OnOk result (R.stream rng.new ≡ behind (3 * clients) (behind (routers - 1) (R.stream rng.old))) }
    ensures fault { result ≡ Err MakeError.WriteFault → Rose (K.faults out.old) (K.faults out.new) }
    ensures only { RoseOnlyBy MakeError.WriteFault result (K.faults out.old) (K.faults out.new) }
    ensures later { K.faults out.old ≤ K.faults out.new }
{
    write_routers(routers, text, out)?;
    write_links(routers - 1, rng, text, out)?;
    write_clients(routers, clients, rng, text, out)?;
    Ok(write_all(out, SETTLE)?)
}

fn write_traffic<R: Rng, K: Sink>(
    clients: u32,
    messages: u32,
    rng: &mut R,
    text: &mut Vec<u8>,
    out: &mut K,
) -> Result<(), MakeError>
    requires clients { clients ≤ 1024 }
    requires messages { messages ≤ 2000 }
    requires some { 0 < messages → 0 < clients }
    ensures made { Makes result (traffic (R.stream rng.old) clients messages) (K.held out.old) (K.held out.new) }
    ensures fault { result ≡ Err MakeError.WriteFault → Rose (K.faults out.old) (K.faults out.new) }
    ensures only { RoseOnlyBy MakeError.WriteFault result (K.faults out.old) (K.faults out.new) }
    ensures later { K.faults out.old ≤ K.faults out.new }
{
    write_samples(clients, messages, rng, text, out)?;
    Ok(write_all(out, RUN)?)
}

fn write_routers<K: Sink>(count: u32, text: &mut Vec<u8>, out: &mut K) -> Result<(), MakeError>
    requires { count ≤ 64 }
    ensures made { Makes result (all_routers count) (K.held out.old) (K.held out.new) }
    ensures fault { result ≡ Err MakeError.WriteFault → Rose (K.faults out.old) (K.faults out.new) }
    ensures only { RoseOnlyBy MakeError.WriteFault result (K.faults out.old) (K.faults out.new) }
    ensures later { K.faults out.old ≤ K.faults out.new }
{
    for index in 0..count {
        write_router(index, text, out)?;
    }
    Ok(())
}

fn write_links<R: Rng, K: Sink>(
    count: u32,
    rng: &mut R,
    text: &mut Vec<u8>,
    out: &mut K,
) -> Result<(), MakeError>
    requires { count < 64 }
    ensures made { Makes result (all_links (R.stream rng.old) count) (K.held out.old) (K.held out.new) }
    ensures drawn { OnOk result (R.stream rng.new ≡ behind count (R.stream rng.old)) }
    ensures fault { result ≡ Err MakeError.WriteFault → Rose (K.faults out.old) (K.faults out.new) }
    ensures only { RoseOnlyBy MakeError.WriteFault result (K.faults out.old) (K.faults out.new) }
    ensures later { K.faults out.old ≤ K.faults out.new }
{
    for index in 0..count {
        write_link(index, rng, text, out)?;
    }
    Ok(())
}

fn write_clients<R: Rng, K: Sink>(
    routers: u32,
    count: u32,
    rng: &mut R,
    text: &mut Vec<u8>,
    out: &mut K,
) -> Result<(), MakeError>
    requires some { 0 < routers }
    requires routers { routers ≤ 64 }
    requires count { count ≤ 1024 }
    ensures made { Makes result (all_clients (R.stream rng.old) routers count) (K.held out.old) (K.held out.new) }
    ensures drawn { OnOk result (R.stream rng.new ≡ behind (3 * count) (R.stream rng.old)) }
    ensures fault { result ≡ Err MakeError.WriteFault → Rose (K.faults out.old) (K.faults out.new) }
    ensures only { RoseOnlyBy MakeError.WriteFault result (K.faults out.old) (K.faults out.new) }
    ensures later { K.faults out.old ≤ K.faults out.new }
{
    for index in 0..count {
        write_client(routers, index, rng, text, out)?;
    }
    Ok(())
}

fn write_samples<R: Rng, K: Sink>(
    clients: u32,
    count: u32,
    rng: &mut R,
    text: &mut Vec<u8>,
    out: &mut K,
) -> Result<(), MakeError>
    requires clients { clients ≤ 1024 }
    requires count { count ≤ 2000 }
    requires some { 0 < count → 0 < clients }
    ensures made { Makes result (all_samples (R.stream rng.old) clients count) (K.held out.old) (K.held out.new) }
    ensures fault { result ≡ Err MakeError.WriteFault → Rose (K.faults out.old) (K.faults out.new) }
    ensures only { RoseOnlyBy MakeError.WriteFault result (K.faults out.old) (K.faults out.new) }
    ensures later { K.faults out.old ≤ K.faults out.new }
{
    for index in 0..count {
        write_sample(clients, index, rng, text, out)?;
    }
    Ok(())
}

fn write_router<K: Sink>(index: u32, text: &mut Vec<u8>, out: &mut K) -> Result<(), MakeError>
    requires { index < 64 }
    ensures made { Makes result (router_line (index + 1) ∷ []) (K.held out.old) (K.held out.new) }
    ensures fault { result ≡ Err MakeError.WriteFault → Rose (K.faults out.old) (K.faults out.new) }
    ensures only { RoseOnlyBy MakeError.WriteFault result (K.faults out.old) (K.faults out.new) }
    ensures later { K.faults out.old ≤ K.faults out.new }
{
    text.clear();
    put_router(index as u16 + 1, text)?;
    Ok(write_all(out, text)?)
}

fn write_link<R: Rng, K: Sink>(
    index: u32,
    rng: &mut R,
    text: &mut Vec<u8>,
    out: &mut K,
) -> Result<(), MakeError>
    requires { index < 64 }
    ensures made { Makes result (link_lines (index + 2) (1 + pick (R.stream rng.old) 0 (index + 1))) (K.held out.old) (K.held out.new) }
    ensures drawn { R.stream rng.new ≡ behind 1 (R.stream rng.old) }
    ensures fault { result ≡ Err MakeError.WriteFault → Rose (K.faults out.old) (K.faults out.new) }
    ensures only { RoseOnlyBy MakeError.WriteFault result (K.faults out.old) (K.faults out.new) }
    ensures later { K.faults out.old ≤ K.faults out.new }
{
    let peer = 1 + pick(rng, index + 1);
    text.clear();
    put_link(index as u16 + 2, peer as u16, text)?;
    Ok(write_all(out, text)?)
}

fn write_client<R: Rng, K: Sink>(
    routers: u32,
    index: u32,
    rng: &mut R,
    text: &mut Vec<u8>,
    out: &mut K,
) -> Result<(), MakeError>
    requires some { 0 < routers }
    requires routers { routers ≤ 64 }
    requires index { index < 1024 }
    ensures made { Makes result (client_lines (index + 1) (1 + pick (R.stream rng.old) 0 routers) (pick (R.stream rng.old) 1 4) (pick (R.stream rng.old) 2 8)) (K.held out.old) (K.held out.new) }
    ensures drawn { R.stream rng.new ≡ behind 3 (R.stream rng.old) }
    ensures fault { result ≡ Err MakeError.WriteFault → Rose (K.faults out.old) (K.faults out.new) }
    ensures only { RoseOnlyBy MakeError.WriteFault result (K.faults out.old) (K.faults out.new) }
    ensures later { K.faults out.old ≤ K.faults out.new }
{
    let router = 1 + pick(rng, routers);
    let kind = pick(rng, KINDS);
    let key = pick(rng, KEYS);
    text.clear();
    put_client(index as u16 + 1, router as u16, kind, key, text)?;
    Ok(write_all(out, text)?)
}

fn write_sample<R: Rng, K: Sink>(
    clients: u32,
    index: u32,
    rng: &mut R,
    text: &mut Vec<u8>,
    out: &mut K,
) -> Result<(), MakeError>
    requires some { 0 < clients }
    requires clients { clients ≤ 1024 }
    requires index { index < 2000 }
    ensures made { Makes result (sample_line (1 + pick (R.stream rng.old) 0 clients) (pick (R.stream rng.old) 1 8) (index + 1) ∷ []) (K.held out.old) (K.held out.new) }
    ensures drawn { R.stream rng.new ≡ behind 2 (R.stream rng.old) }
    ensures fault { result ≡ Err MakeError.WriteFault → Rose (K.faults out.old) (K.faults out.new) }
    ensures only { RoseOnlyBy MakeError.WriteFault result (K.faults out.old) (K.faults out.new) }
    ensures later { K.faults out.old ≤ K.faults out.new }
{
    let client = 1 + pick(rng, clients);
    let key = pick(rng, KEYS);
    text.clear();
    put_sample(client as u16, key, index + 1, text)?;
    Ok(write_all(out, text)?)
}

// One of 0 to n - 1.
fn pick<R: Rng>(rng: &mut R, n: u32) -> u32
    requires { 0 < n }
    ensures value { result ≡ (next_u32 (R.stream rng.old)).0 % n }
    ensures rest { R.stream rng.new ≡ (next_u32 (R.stream rng.old)).1 }
{
    rng.next_u32() % n
}
