//! The candidates for a growth.
ghost use Rattle.std.specs.Prelude.{◌≡◌, ◌↔◌, ℕ, ◌<◌, ◌≤◌, ◌+◌, length, [], get_or, slice_get, IfOk, IsTrue};
ghost use Rattle.kpn_state.specs.Candidates.{IsBefore, IsInOrder, Inserts, Removes, candidate_list};

use std::alloc::{AllocError, Global};
use std::marker::Model;

/// The candidates for a growth: pairs of a capacity and a channel, sorted by capacity, then by number, so that
/// the first grows (Parks 1995). Only `new` allocates.
#[derive(Drop)]
pub struct Candidates {
    pairs: Vec<(usize, usize)>,
    limit: usize,
}

impl Model for Candidates {
    ghost use Rattle.std.specs.Prelude.{◌≤◌};
    ghost use Rattle.std.specs.Vec.{vec_capacity};
    ghost use Rattle.kpn_state.specs.Candidates.{CandidateList, candidate_list, IsInOrder};

    ghost Value = { CandidateList };

    ghost view = { λ c. candidate_list c.pairs.items c.limit };

    ghost invariant = { λ c. (IsInOrder c.pairs.items) × (c.limit ≤ vec_capacity c.pairs) };
}

impl Candidates {
    /// Makes an empty list with room for `limit` pairs. Errors: out of memory.
    pub fn new(alloc: Global, limit: usize) -> Result<Candidates, AllocError>
        ensures { IfOk result (λ c. c ≡ candidate_list [] limit) }
    {
        let pairs = Vec::with_capacity(alloc, limit)?;
        Ok(Candidates { pairs, limit })
    }

    /// Returns the capacity and number of the channel that grows first; `None` if there is no candidate.
    pub fn first(&self) -> Option<(usize, usize)>
        ensures first { result ≡ slice_get self.now.pairs 0 }
        ensures ordered { IsInOrder self.now.pairs }
    {
        self.pairs.as_slice().first().copied()
    }

    /// Inserts a channel of this capacity, if it is missing. There must be room. Takes no memory.
    pub fn insert(&mut self, capacity: usize, channel: usize)
        requires { length self.old.pairs < self.old.limit }
        ensures pairs { Inserts self.old.pairs (capacity, channel) self.new.pairs }
        ensures many { length self.new.pairs ≤ length self.old.pairs + 1 }
        ensures limit { self.new.limit ≡ self.old.limit }
    {
        let pair = (capacity, channel);
        let place = place_of(self.pairs.as_slice(), pair);
        if is_at(self.pairs.as_slice(), place, pair) {
            return;
        }
        if self.pairs.insert(place, pair).is_err() {
            unreachable!()
        }
    }

    /// Removes a channel of this capacity, if it is listed.
    pub fn remove(&mut self, capacity: usize, channel: usize)
        ensures { Removes self.old (capacity, channel) self.new }
    {
        let pair = (capacity, channel);
        let place = place_of(self.pairs.as_slice(), pair);
        if is_at(self.pairs.as_slice(), place, pair) {
            self.pairs.remove(place);
        }
    }
}

fn is_before(pair: (usize, usize), other: (usize, usize)) -> bool
    ensures { IsTrue result ↔ IsBefore pair other }
{
    pair.0 < other.0 || (pair.0 == other.0 && pair.1 < other.1)
}

fn is_at(pairs: &[(usize, usize)], place: usize, pair: (usize, usize)) -> bool
    ensures { IsTrue result ↔ ((place < length pairs.now) × (get_or pairs.now place pair ≡ pair)) }
{
    if place >= pairs.len() {
        return false;
    }
    let found = pairs[place];
    found.0 == pair.0 && found.1 == pair.1
}

/// Returns the number of pairs before this one.
fn place_of(pairs: &[(usize, usize)], pair: (usize, usize)) -> usize
    requires { IsInOrder pairs.now }
    ensures within { result ≤ length pairs.now }
    ensures before { (k : ℕ) (d : ℕ × ℕ) → k < result → IsBefore (get_or pairs.now k d) pair }
    ensures rest { (k : ℕ) (d : ℕ × ℕ) → result ≤ k → k < length pairs.now → IsBefore (get_or pairs.now k d) pair → ⊥ }
{
    let mut low = 0;
    let mut high = pairs.len();
    while low < high {
        let middle = low + (high - low) / 2;
        if is_before(pairs[middle], pair) {
            low = middle + 1;
        } else {
            high = middle;
        }
    }
    low
}
