//! Letting input waves forget what no pin needs any more.

ghost use Rattle.std.specs.Prelude.{◌≡◌, ◌<◌, ◌≤◌, ℕ, length, slice_set, true, All};
ghost use Rattle.cmb_design_model.specs.Design.{Design};
ghost use Rattle.cmb_core_cluster.specs.Clustering.{Clustering};
ghost use Rattle.cmb_core_cluster.specs.Clusters.{IsSameButWaves, slot_wave};
ghost use Rattle.cmb_core_cluster.specs.Exactness.{IsExactCluster};
ghost use Rattle.cmb_core_cluster.specs.Rows.{sample_need};
ghost use Rattle.cmb_core_cluster.specs.Directory.{given_at, readers_from};
ghost use Rattle.cmb_core_cluster.specs.Trims.{least_need, need, trimmed, trimmed_to, trimmed_wave};

use crate::cluster::Cluster;
use crate::directory::Reader;
use crate::node::Node;
use crate::process::ProcessRule;
use cmb_wave::Wave;

// From this tick on a flip-flop needs its data, as its output stands at a clock.
fn need_of_flop(first: u32, period: u32, delay: u32, clock: u32) -> u32
    ensures { result ≡ sample_need first period delay clock }
{
    if u64::from(clock) < u64::from(first) + u64::from(delay) {
        return 0;
    }
    let ticks = clock - delay - first;
    if period == 0 {
        first
    } else {
        first + ticks / period * period
    }
}

// From this tick on a process needs what is on a pin, as its output stands at a clock.
fn need_of(rule: ProcessRule, delay: u32, clock: u32) -> u32
    ensures { result ≡ need rule delay clock }
{
    match rule {
        ProcessRule::Gate(_) => clock.saturating_sub(delay),
        ProcessRule::Flop { first, period, .. } => need_of_flop(first, period, delay, clock),
        ProcessRule::Given => 0,
        ProcessRule::Input => 0,
    }
}

// The least tick from which on one of these pins needs what is on it, at most `most`.
fn least_need_of(nodes: &[Node], waves: &[Wave], readers: &[Reader], most: u32) -> u32
    requires there { All (λ reader. reader.slot < length nodes.now) readers.now }
    requires paired { length waves.now ≡ length nodes.now }
    ensures { result ≡ least_need nodes.now waves.now readers.now most }
{
    let mut least = most;
    for reader in readers {
        let slot = reader.slot as usize;
        least = least.min(need_of(nodes[slot].rule(), reader.delay, waves[slot].clock()));
    }
    least
}

// Lets a wave forget what is before a tick, if it hasn't.
fn trim_to(wave: &mut Wave, least: u32)
    requires { least ≤ wave.old.clock }
    ensures { wave.new ≡ trimmed_to least wave.old }
{
    if wave.base() < least {
        wave.forget(least);
    }
}

impl Cluster {
    // From this tick on somebody needs the given wave in a place, or nobody anything that is known of it.
    fn least_need_at(&self, slot: usize) -> u32
        requires there { slot < length self.now.waves }
        requires given { given_at self.now.processes slot ≡ true }
        ensures least { result ≡ least_need self.now.processes self.now.waves (readers_from slot 0 self.now.processes)
            (slot_wave self.now slot).clock }
        ensures known { result ≤ (slot_wave self.now slot).clock }
    {
        let readers = self.directory.readers[slot].as_slice();
        let most = self.wave(slot).clock();
        least_need_of(&self.processes, &self.waves, readers, most)
    }

    // Lets the wave in a place forget what nobody needs, if it is given.
    fn trim_at(&mut self, slot: usize)
        requires { slot < length self.old.waves }
        ensures waves { self.new.waves ≡ slice_set self.old.waves slot (trimmed_wave self.old slot) }
        ensures same { IsSameButWaves self.old self.new }
    {
        if !self.process(slot).is_given() {
            return;
        }
        let least = self.least_need_at(slot);
        trim_to(&mut self.waves[slot], least);
    }

    /// Lets each input wave forget what no pin on which its net stands needs any more. Takes no memory,
    /// and exact waves stay exact.
    pub fn trim(&mut self)
        ensures trimmed { self.new ≡ trimmed self.old }
        ensures exact { (design : Design) (clustering : Clustering) (cluster : ℕ)
            → IsExactCluster design clustering cluster self.old → IsExactCluster design clustering cluster self.new }
    {
        for slot in 0..self.slots() {
            self.trim_at(slot);
        }
    }
}
