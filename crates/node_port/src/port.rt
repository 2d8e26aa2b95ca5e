//! A live node as its sockets see it.
#![tactic(auto, using(crate::proofs::SentLemmas::on_lines, bench_node::proofs::GoingLemmas::goes_none, bench_node::proofs::GoingLemmas::goes_one, bench_node::proofs::GoingLemmas::goes_by))]

ghost use Rattle.std.specs.Prelude.{◌≡◌, IfErr, IfOk, false, true};
ghost use Rattle.bench_net.specs.declared.refusal.Refusal.TheVariants.{Unknown};
ghost use Rattle.bench_item.specs.declared.step.Step.TheVariants as steps;
ghost use Rattle.bench_node.specs.Going.{Goes, is_dialling};
ghost use Rattle.bench_spec.specs.Taken.{Takes, shown};
ghost use Rattle.node_port.specs.Happened.{JoinsAs, RefusesOn, TakesOn, is_number, opening_refusal};
ghost use Rattle.node_port.specs.Happened.{refusal_of, sent_on};

use bench_item::StepFault;
use bench_net::Refusal;
use bench_node::{LiveNode, NextDial};
use net_sockets::{Dial, Node};

/// A live node as its sockets see it.
pub struct NodePort {
    pub node: LiveNode,
}

impl Drop for NodePort {
    fn drop(self) {
        let NodePort { node } = self;
    }
}

impl NodePort {
    /// The node.
    pub fn into_node(self) -> LiveNode
        ensures { result ≡ self.node }
    {
        let NodePort { node } = self;
        node
    }
}

/// Why a connection takes nothing, by the fault of a step.
pub fn refusal_of(fault: StepFault) -> Refusal
    ensures { result ≡ refusal_of fault }
{
    match fault {
        StepFault::Unknown => Refusal::Unknown,
        StepFault::Closed | StepFault::Nothing | StepFault::Paused => Refusal::Closed,
        StepFault::Full => Refusal::Full,
        StepFault::NoMemory => Refusal::NoMemory,
    }
}

/// The number of a connection, as a step has it: no more are opened.
pub fn number_of(line: u64) -> Result<u32, Refusal>
    ensures ok { IfOk result (λ number. (number ≡ line) × (is_number line ≡ true)) }
    ensures err { IfErr result (λ why. (why ≡ Unknown) × (is_number line ≡ false)) }
{
    if line <= u64::from(u32::MAX) {
        Ok(line as u32)
    } else {
        Err(Refusal::Unknown)
    }
}

impl Node for NodePort {
    ghost takes = { λ s line event t. TakesOn s.node line event t.node };

    ghost refuses = { λ s line event why. RefusesOn s.node line event why };

    ghost joins = { λ s line t. JoinsAs s.node line t.node };

    ghost dials = { λ _ line t. is_dialling ((shown t.node).line_of line) ≡ true };

    ghost opens = { λ s line t. Takes s.node t.node (steps.Dialled line) };

    ghost refuses_opening = { λ s line why. why ≡ opening_refusal s.node line };

    ghost sent = { λ s line. sent_on s.node line };

    ghost moves = { λ s t. Goes s.node t.node };

    fn is_over(&self) -> bool {
        self.node.core().log().is_full()
    }

    fn joined(&mut self) -> Option<u64> {
        self.node.joined()
    }

    fn next_dial(&mut self) -> Option<Dial> {
        let NextDial { line, address } = self.node.next_dial()?;
        let line = u64::from(line);
        Some(Dial { line, address })
    }

    fn dialled(&mut self, line: u64) -> Result<(), Refusal> {
        match number_of(line) {
            Ok(number) => match self.node.dialled(number) {
                Ok(()) => Ok(()),
                Err(fault) => Err(refusal_of(fault)),
            },
            Err(why) => Err(why),
        }
    }

    fn is_closed(&self, line: u64) -> bool {
        match number_of(line) {
            Ok(line) => self.node.is_closed(line),
            Err(_) => true,
        }
    }

    fn came(&mut self, line: u64, piece: &[u8]) -> Result<(), Refusal> {
        match number_of(line) {
            Ok(number) => match self.node.came(number, piece) {
                Ok(()) => Ok(()),
                Err(fault) => Err(refusal_of(fault)),
            },
            Err(why) => Err(why),
        }
    }

    fn lost(&mut self, line: u64) -> Result<(), Refusal> {
        match number_of(line) {
            Ok(number) => match self.node.lost(number) {
                Ok(()) => Ok(()),
                Err(fault) => Err(refusal_of(fault)),
            },
            Err(why) => Err(why),
        }
    }

    fn unsent(&self, line: u64, from: usize, buffer: &mut [u8]) -> usize {
        match number_of(line) {
            Ok(number) => self.node.unsent(number, from, buffer),
            Err(_) => 0,
        }
    }
}
