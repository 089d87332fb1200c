//! A net in memory.

ghost use Rattle.std.specs.Prelude.{◌≡◌, ◌-◌, ◌≤◌, ◌<◌, [], ◌∷◌, ◌++◌, ◌||◌, ◌==◌, IsTrue, false, Some, Err, IfOk, MatchResult, is_ok, if◌then◌else◌, length, map};
ghost use Rattle.outside.specs.Causes.{one_more, Rose};
ghost use Rattle.outside.specs.Links.{and_then_one, IsNew};
ghost use Rattle.outside.specs.Nets.{asked_after, faults_after};
ghost use Rattle.outside.specs.MemoryLink.{shown_of};
ghost use Rattle.outside.specs.MemoryNet.{AllNew, calls_after, net_fails_next, net_of};

use crate::calls::Calls;
use crate::mem_link::MemLink;
use crate::net::{Ask, Net, NetFault};
use rs_wire::Blob;
use std::alloc::Global;
use std::collections::VecDeque;
use std::marker::Model;

/// A net in memory, which shows everything. It hands its links out in their order. A dial, listen or
/// accept fails where its list says so, and a dial or accept also where no link is left. The three
/// have one numbering.
#[derive(Drop)]
pub struct MemNet {
    links: VecDeque<MemLink>,
    asked: Vec<Ask>,
    // The links put back. There is room for those that are out.
    back: Vec<MemLink>,
    // How many links are out.
    out: usize,
    calls: Calls,
}

impl Model for MemNet {
    ghost use Rattle.std.specs.Prelude.{◌+◌, ◌≤◌, ◌<◌, ◌^◌, vec_capacity, vec_len};
    ghost use Rattle.std.specs.VecDeque.{deque_len};
    ghost use Rattle.outside.specs.MemoryNet.{AllNew, MemoryNet};

    ghost Value = { MemoryNet };

    ghost view = { λ n. record {
      links = n.links.items;
      asked = n.asked.items;
      back = n.back.items;
      out = n.out;
      calls = n.calls.count;
      faults = n.calls.faults;
      fails = n.calls.fails.items;
    } };

    ghost invariant = { λ n. (vec_len n.back + n.out ≤ vec_capacity n.back) ×
        (n.out + deque_len n.links < 2 ^ 63) × AllNew n.links.items };
}

impl MemNet {
    /// A net that hands out these links, none of which was used yet. `fails` has the numbers, from
    /// 1, of the dials, listens and accepts that are to fail.
    pub fn new(alloc: Global, links: Vec<MemLink>, fails: Vec<u64>) -> MemNet
        requires { AllNew links.items }
        ensures { result ≡ net_of links.items fails.items }
    {
        MemNet {
            links: VecDeque::from_vec(links),
            asked: Vec::new(alloc),
            back: Vec::new(alloc),
            out: 0,
            calls: Calls::new(fails),
        }
    }

    /// The links put back, in their order.
    pub fn back(&self) -> &[MemLink]
        ensures { result.now ≡ self.now.back }
    {
        self.back.as_slice()
    }

    // Hands out the next link.
    fn hand_out(&mut self, ask: Ask) -> Result<MemLink, NetFault>
        ensures new { IfOk result (λ link. IsNew (shown_of link)) }
        ensures next { MatchResult result (λ link. self.old.links ≡ link ∷
            self.new.links) (λ _. self.new.links ≡ self.old.links) }
        ensures asked { Some self.new.asked ≡ asked_after result (Some self.old.asked) ask }
        ensures out { self.new.out ≡
            (if is_ok result then one_more self.old.out else self.old.out) }
        ensures back { self.new.back ≡ self.old.back }
        ensures counted { self.old.faults ≤ self.new.faults }
        ensures cause { result ≡ Err NetFault.Failed → Rose self.old.faults self.new.faults }
        ensures faults { self.new.faults ≡ faults_after result self.old.faults }
        ensures failed { result ≡ Err NetFault.Failed →
            IsTrue (net_fails_next self.old || length self.old.links == 0) }
        ensures told_to { IsTrue (net_fails_next self.old) → is_ok result ≡ false }
        ensures calls { self.new.calls ≡ calls_after result self.old.calls }
        ensures fails { self.new.fails ≡ self.old.fails }
    {
        self.back.reserve(self.out + 1)?;
        self.asked.push(ask)?;
        if self.calls.begin() {
            self.calls.fault();
            return Err(NetFault::Failed);
        }
        let Some(link) = self.links.pop_front() else {
            self.calls.fault();
            return Err(NetFault::Failed);
        };
        self.out += 1;
        Ok(link)
    }
}

impl Net for MemNet {
    type Link = MemLink;

    ghost use Rattle.std.specs.Prelude.{Some, map};
    ghost use Rattle.outside.specs.MemoryLink.{shown_of};

    ghost asked = { λ n. Some n.asked };

    ghost back = { λ n. Some (map shown_of n.back) };

    ghost out = { λ n. n.out };

    ghost faults = { λ n. n.faults };

    fn dial(&mut self, address: &Blob, ws: bool) -> Result<MemLink, NetFault>
        ensures new { IfOk result (λ link. IsNew (shown_of link)) }
        ensures asked { Some self.new.asked ≡
            asked_after result (Some self.old.asked) (Ask.Dial address.now ws) }
        ensures out { self.new.out ≡
            (if is_ok result then one_more self.old.out else self.old.out) }
        ensures back { Some (map shown_of self.new.back) ≡ Some (map shown_of self.old.back) }
        ensures counted { self.old.faults ≤ self.new.faults }
        ensures cause { result ≡ Err NetFault.Failed → Rose self.old.faults self.new.faults }
        ensures faults { self.new.faults ≡ faults_after result self.old.faults }

        // It hands out the next link, and fails only where its list says so or no link is left.
        ensures next { MatchResult result (λ link. self.old.links ≡ link ∷
            self.new.links) (λ _. self.new.links ≡ self.old.links) }
        ensures failed { result ≡ Err NetFault.Failed →
            IsTrue (net_fails_next self.old || length self.old.links == 0) }
        ensures told_to { IsTrue (net_fails_next self.old) → is_ok result ≡ false }
        ensures calls { self.new.calls ≡ calls_after result self.old.calls }
        ensures fails { self.new.fails ≡ self.old.fails }
    {
        let address = address.copy(*self.asked.allocator())?;
        self.hand_out(Ask::Dial { address, ws })
    }

    fn listen(&mut self, address: &Blob) -> Result<(), NetFault>
        ensures asked { Some self.new.asked ≡
            asked_after result (Some self.old.asked) (Ask.Listen address.now) }
        ensures out { self.new.out ≡ self.old.out }
        ensures back { Some (map shown_of self.new.back) ≡ Some (map shown_of self.old.back) }
        ensures counted { self.old.faults ≤ self.new.faults }
        ensures cause { result ≡ Err NetFault.Failed → Rose self.old.faults self.new.faults }
        ensures faults { self.new.faults ≡ faults_after result self.old.faults }

        // It fails only where its list says so.
        ensures failed { result ≡ Err NetFault.Failed → IsTrue (net_fails_next self.old) }
        ensures told_to { IsTrue (net_fails_next self.old) → is_ok result ≡ false }
        ensures links { self.new.links ≡ self.old.links }
        ensures calls { self.new.calls ≡ calls_after result self.old.calls }
        ensures fails { self.new.fails ≡ self.old.fails }
    {
        let address = address.copy(*self.asked.allocator())?;
        self.asked.push(Ask::Listen { address })?;
        if self.calls.begin() {
            self.calls.fault();
            return Err(NetFault::Failed);
        }
        Ok(())
    }

    fn accept(&mut self, ws: bool) -> Result<MemLink, NetFault>
        ensures new { IfOk result (λ link. IsNew (shown_of link)) }
        ensures asked { Some self.new.asked ≡
            asked_after result (Some self.old.asked) (Ask.Accept ws) }
        ensures out { self.new.out ≡
            (if is_ok result then one_more self.old.out else self.old.out) }
        ensures back { Some (map shown_of self.new.back) ≡ Some (map shown_of self.old.back) }
        ensures counted { self.old.faults ≤ self.new.faults }
        ensures cause { result ≡ Err NetFault.Failed → Rose self.old.faults self.new.faults }
        ensures faults { self.new.faults ≡ faults_after result self.old.faults }

        // It hands out the next link, and fails only where its list says so or no link is left.
        ensures next { MatchResult result (λ link. self.old.links ≡ link ∷
            self.new.links) (λ _. self.new.links ≡ self.old.links) }
        ensures failed { result ≡ Err NetFault.Failed →
            IsTrue (net_fails_next self.old || length self.old.links == 0) }
        ensures told_to { IsTrue (net_fails_next self.old) → is_ok result ≡ false }
        ensures calls { self.new.calls ≡ calls_after result self.old.calls }
        ensures fails { self.new.fails ≡ self.old.fails }
    {
        self.hand_out(Ask::Accept { ws })
    }

    fn put_back(&mut self, link: MemLink)
        requires { 0 < self.old.out }
        ensures back { Some (map shown_of self.new.back) ≡
            and_then_one (Some (map shown_of self.old.back)) (shown_of link) }
        ensures out { self.new.out ≡ self.old.out - 1 }
        ensures asked { Some self.new.asked ≡ Some self.old.asked }
        ensures faults { self.new.faults ≡ self.old.faults }

        // The link itself is put back, and nothing else changes.
        ensures itself { self.new ≡ record self.old {
          back = self.old.back ++ link ∷
              [];
          out = self.old.out - 1;
        } }
    {
        self.back.push_reserved(link);
        self.out -= 1;
    }
}
