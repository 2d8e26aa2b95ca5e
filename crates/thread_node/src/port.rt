//! What its sockets ask of a node.
#![tactic(auto, using(crate::proofs::TextLemmas::growing, crate::proofs::MovingLemmas::moving))]

ghost use Rattle.std.specs.Prelude.{◌≡◌, IfErr, IfSome, OnErr, OnOk, false, true};
ghost use Rattle.bench_net.specs.declared.refusal.Refusal.TheVariants.{Unknown};
ghost use Rattle.node_port.specs.Happened.{is_number, refusal_of};
ghost use Rattle.bench_item.specs.declared.step.Step.TheVariants as steps;
ghost use Rattle.thread_node.specs.Nodes.{DialsAs, Feeds, JoinsAs, Loses, Moves, RefusesLine, RefusesOn, TakesOn, sent_on};

use crate::node::ThreadNode;
use crate::texts::copy_from;
use base_list::Octets;
use bench_item::{LineState, MAX_ENTRIES, Step, StepFault};
use bench_live::InThreads;
use bench_net::Refusal;
use bench_node::KEPT_FREE;
use net_sockets::{Dial, Node};
use node_port::{number_of, refusal_of};
use std::net::SocketAddr;

impl<R: Copy, B: InThreads<R>> ThreadNode<R, B> {
    // Where the peer of that number is dialled.
    fn address_of(&self, machine: u64) -> Option<SocketAddr> {
        match self.peers.iter().find(|peer| peer.machine == machine) {
            None => None,
            Some(peer) => peer.address,
        }
    }

    // Feeds what happened on a connection.
    fn happens(&mut self, line: u64, step: Step) -> Result<(), Refusal>
        ensures ok { OnOk result (Feeds self.old step self.new) }
        ensures none { self.old.started ≡ false → IfErr result (λ why. why ≡ Unknown) }
        ensures err { OnErr result (self.new ≡ self.old) }
    {
        match self.feed(step) {
            Ok(()) => {
                self.set_touched(line, true);
                Ok(())
            }
            Err(fault) => Err(refusal_of(fault)),
        }
    }

    // The dial of a connection, if one is wanted there and can be made; one that can be made nowhere is lost.
    fn dial_of(&mut self, line: u64) -> Option<Dial>
        ensures line { IfSome result (λ dial. dial.line ≡ line) }
        ensures lost { Loses self.old self.new }
    {
        let Some(LineState::Dialling { peer }) = self.state(line) else {
            return None;
        };
        match self.address_of(peer) {
            Some(address) => Some(Dial { line, address }),
            None => {
                let _lost = Node::lost(self, line);
                None
            }
        }
    }
}

impl<R: Copy, B: InThreads<R>> Node for ThreadNode<R, B> {
    ghost takes = { λ s line event t. TakesOn s line event t };

    ghost refuses = { λ s line event why. RefusesOn s line event why };

    ghost joins = { λ s line t. JoinsAs s line t };

    ghost dials = { λ s line t. DialsAs s line t };

    ghost opens = { λ s line t. (is_number line ≡ true) × Feeds s (steps.Dialled line) t };

    ghost refuses_opening = { λ s line why. RefusesLine s line why };

    ghost sent = { λ s line. sent_on s line };

    ghost moves = { λ s t. Moves s t };

    fn is_over(&self) -> bool {
        self.bench.is_none() || self.is_past(MAX_ENTRIES - KEPT_FREE / 2)
    }

    fn joined(&mut self) -> Option<u64> {
        match self.join() {
            Ok(line) => Some(line),
            Err(_) => None,
        }
    }

    fn next_dial(&mut self) -> Option<Dial> {
        let count = self.count() as u64;
        for line in self.looked.saturating_add(1)..=count {
            self.looked = line;
            if let Some(dial) = self.dial_of(line) {
                return Some(dial);
            }
        }
        None
    }

    fn dialled(&mut self, line: u64) -> Result<(), Refusal> {
        let number = number_of(line)?;
        self.happens(line, Step::Dialled(number))
    }

    fn is_closed(&self, line: u64) -> bool {
        match self.closed.get(line as usize) {
            None => true,
            Some(closed) => *closed,
        }
    }

    fn came(&mut self, line: u64, piece: &[u8]) -> Result<(), Refusal> {
        let number = number_of(line)?;
        // Its reason first, then memory.
        if self.bench.is_none() {
            return Err(Refusal::Unknown);
        }
        let Ok(piece) = Octets::from_slice(self.alloc, piece) else {
            return Err(Refusal::NoMemory);
        };
        self.happens(
            line,
            Step::Came {
                line: number,
                piece,
            },
        )
    }

    fn lost(&mut self, line: u64) -> Result<(), Refusal> {
        let number = number_of(line)?;
        self.happens(line, Step::Lost(number))
    }

    fn unsent(&self, line: u64, from: usize, buffer: &mut [u8]) -> usize {
        copy_from(&self.sent, line, from, buffer)
    }
}
