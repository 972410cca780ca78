// A row of numbers in which the first that is so great, and the last before a place that is not 0, are found fast.
ghost use Rattle.std.specs.Prelude.{◌≡◌, ℕ, ◌+◌, ◌*◌, ◌-◌, ◌/◌, ◌<◌, ◌≤◌, ◌^◌, List, length, replicate, slice_index, slice_set, IfOk, IfSome, IfNone};
ghost use Rattle.word_arena.specs.Over.{Over};

use std::alloc::{AllocError, Global};
use std::marker::Model;

// How many numbers of a row stand under one of the row above.
const FAN: usize = 64;

/// The numbers, and above so many of them side by side their greatest, twice.
#[derive(Drop)]
pub(crate) struct Tops {
    leaves: Vec<u32>,
    groups: Vec<u32>,
    regions: Vec<u32>,
}

impl Model for Tops {
    ghost use Rattle.std.specs.Prelude.{List, ℕ};

    ghost Value = { List ℕ };

    ghost use Rattle.word_arena.specs.Tops.{leaves_of, IsTree};

    ghost view = { leaves_of };

    ghost invariant = { IsTree };
}

impl Tops {
    /// More than `count` numbers, each 0.
    pub(crate) fn new(alloc: Global, count: usize) -> Result<Tops, AllocError>
        requires { count ≤ 2 ^ 32 }
        ensures { IfOk result (λ t. (count < length t) × (length t ≤ count + FAN * FAN) × (t ≡ replicate (length t) 0)) }
    {
        let regions = count / (FAN * FAN) + 1;
        Ok(Tops {
            leaves: vec![in alloc; 0; regions * FAN * FAN]?,
            groups: vec![in alloc; 0; regions * FAN]?,
            regions: vec![in alloc; 0; regions]?,
        })
    }

    /// How many numbers there are.
    pub(crate) fn len(&self) -> usize
        ensures { result ≡ length self.now }
    {
        self.leaves.len()
    }

    /// Makes each number 0. Where few are not 0, to write them after this costs less than to write over others.
    pub(crate) fn clear(&mut self)
        ensures { self.new ≡ replicate (length self.old) 0 }
    {
        self.leaves.fill(0);
        self.groups.fill(0);
        self.regions.fill(0);
    }

    /// Writes the number at a place.
    pub(crate) fn set(&mut self, at: usize, number: u64)
        requires inside { at < length self.old }
        requires fits { number < 2 ^ 32 }
        ensures { self.new ≡ slice_set self.old at number }
    {
        let number = number as u32;
        if self.leaves[at] == number {
            return;
        }
        self.leaves[at] = number;
        let group = at / FAN;
        self.groups[group] = largest(&self.leaves, group * FAN);
        let region = group / FAN;
        self.regions[region] = largest(&self.groups, region * FAN);
    }

    /// The place of the first number that is so great.
    pub(crate) fn first(&self, least: u64) -> Option<usize>
        requires { 1 ≤ least }
        ensures none { IfNone result ((i : ℕ) → slice_index self.now i < least) }
        ensures fits { IfSome result (λ at. least ≤ slice_index self.now at) }
        ensures first { IfSome result (λ at. (i : ℕ) → i < at → slice_index self.now i < least) }
    {
        let region = first_of(&self.regions, 0, self.regions.len(), least)?;
        let group = first_of(&self.groups, region * FAN, region * FAN + FAN, least)?;
        first_of(&self.leaves, group * FAN, group * FAN + FAN, least)
    }

    /// The place of the last number that is not 0 before a place.
    pub(crate) fn last_before(&self, at: usize) -> Option<usize>
        requires { at < length self.now }
        ensures none { IfNone result ((i : ℕ) → i < at → slice_index self.now i ≡ 0) }
        ensures before { IfSome result (λ k. k < at) }
        ensures some { IfSome result (λ k. 1 ≤ slice_index self.now k) }
        ensures last { IfSome result (λ k. (i : ℕ) → k < i → i < at → slice_index self.now i ≡ 0) }
    {
        if let Some(k) = last_of(&self.leaves, at / FAN * FAN, at) {
            return Some(k);
        }
        let group = last_under(&self.groups, &self.regions, at / FAN)?;
        last_of(&self.leaves, group * FAN, group * FAN + FAN)
    }

    /// The greatest number.
    pub(crate) fn greatest(&self) -> u64
        ensures above { (i : ℕ) → slice_index self.now i ≤ result }
        ensures met { 0 < result → (i : ℕ) × (slice_index self.now i ≡ result) }
    {
        let mut most = 0;
        for number in &self.regions {
            most = most.max(u64::from(*number));
        }
        most
    }
}

// The greatest of the numbers under one of the row above, from a place on.
fn largest(row: &[u32], from: usize) -> u32
    requires { from + FAN ≤ length row.now }
    ensures above { (i : ℕ) → from ≤ i → i < from + FAN → slice_index row.now i ≤ result }
    ensures met { 0 < result → (i : ℕ) × (from ≤ i) × (i < from + FAN) × (slice_index row.now i ≡ result) }
{
    let mut most = 0;
    for i in from..from + FAN {
        most = most.max(row[i]);
    }
    most
}

// The first place from one up to another whose number is so great.
fn first_of(row: &[u32], from: usize, to: usize, least: u64) -> Option<usize>
    requires { to ≤ length row.now }
    ensures none { IfNone result ((i : ℕ) → from ≤ i → i < to → slice_index row.now i < least) }
    ensures inside { IfSome result (λ at. (from ≤ at) × (at < to)) }
    ensures fits { IfSome result (λ at. least ≤ slice_index row.now at) }
    ensures first { IfSome result (λ at. (i : ℕ) → from ≤ i → i < at → slice_index row.now i < least) }
{
    for i in from..to {
        if u64::from(row[i]) >= least {
            return Some(i);
        }
    }
    None
}

// The last place of the lower row before one whose number is not 0, by the row above it.
fn last_under(low: &[u32], high: &[u32], at: usize) -> Option<usize>
    requires over { Over low.now high.now }
    requires inside { at < length low.now }
    ensures none { IfNone result ((i : ℕ) → i < at → slice_index low.now i ≡ 0) }
    ensures before { IfSome result (λ k. k < at) }
    ensures some { IfSome result (λ k. 1 ≤ slice_index low.now k) }
    ensures last { IfSome result (λ k. (i : ℕ) → k < i → i < at → slice_index low.now i ≡ 0) }
{
    if let Some(k) = last_of(low, at / FAN * FAN, at) {
        return Some(k);
    }
    let group = last_of(high, 0, at / FAN)?;
    last_of(low, group * FAN, group * FAN + FAN)
}

// The last place from one up to another whose number is not 0.
fn last_of(row: &[u32], from: usize, to: usize) -> Option<usize>
    requires order { from ≤ to }
    requires inside { to ≤ length row.now }
    ensures none { IfNone result ((i : ℕ) → from ≤ i → i < to → slice_index row.now i ≡ 0) }
    ensures inside { IfSome result (λ at. (from ≤ at) × (at < to)) }
    ensures some { IfSome result (λ at. 1 ≤ slice_index row.now at) }
    ensures last { IfSome result (λ at. (i : ℕ) → at < i → i < to → slice_index row.now i ≡ 0) }
{
    let mut at = to;
    while at > from {
        at -= 1;
        if row[at] != 0 {
            return Some(at);
        }
    }
    None
}
