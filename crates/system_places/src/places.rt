//! The places and their buckets.
ghost use Rattle.std.specs.Prelude.{◌≡◌, ◌<◌, ◌≤◌, ◌+◌, ◌-◌, ◌%◌, ◌++◌, ◌∷◌, [], ℕ, length, IfOk, OnErr, None};
ghost use Rattle.std.specs.Prelude.{slice_index};
ghost use Rattle.std.specs.Prelude.{vec_len, vec_capacity, slice_index_or, replicate};
ghost use Rattle.system_places.specs.Chains.{IsLast, IsChainedTo, hashes, bucket};

use std::alloc::{AllocError, Global};
use std::marker::Model;

/// The hashes of a list, each with the last place before it in its bucket.
#[derive(Drop)]
pub struct Places {
    // The last place of each bucket.
    heads: Vec<Option<usize>>,
    links: Vec<Link>,
}

/// One place.
#[derive(Clone, Copy)]
pub struct Link {
    pub hash: u64,
    /// The last place before it in its bucket.
    pub before: Option<usize>,
}

impl Model for Places {
    ghost use Rattle.std.specs.Prelude.{length, ◌-◌, vec_len, vec_capacity};
    ghost use Rattle.system_places.specs.Chains.{Buckets, IsChained, hashes};

    ghost Value = { Buckets };

    ghost view = { λ p. record {
      hashes = hashes p.links.items;
      buckets = length p.heads.items;
      room = vec_capacity p.links - vec_len p.links;
    } };

    ghost invariant = { λ p. IsChained (hashes p.links.items) p.heads.items p.links.items };
}

impl Places {
    /// No places, and one bucket.
    pub fn new(alloc: Global) -> Result<Places, AllocError>
        ensures { IfOk result (λ places. places.hashes ≡ []) }
    {
        let mut heads = Vec::new(alloc);
        heads.push(None)?;
        Ok(Places {
            heads,
            links: Vec::new(alloc),
        })
    }

    /// Makes room for so many places more.
    pub fn reserve(&mut self, places: u32) -> Result<(), AllocError>
        ensures hashes { self.new.hashes ≡ self.old.hashes }
        ensures room { IfOk result (λ _. places ≤ self.new.room) }
        ensures kept { self.old.room ≤ self.new.room }
    {
        let needed = self.links.len().saturating_add(places as usize);
        if self.heads.len() < needed {
            let mut heads = empty_heads(*self.links.allocator(), needed.saturating_mul(2))?;
            chain_all(&mut heads, &mut self.links);
            self.heads = heads;
        }
        self.links.reserve(places as usize)
    }

    /// One place more, at the end. It takes no memory.
    pub fn push(&mut self, hash: u64)
        requires { 0 < self.old.room }
        ensures hashes { self.new.hashes ≡ self.old.hashes ++ hash ∷ [] }
        ensures room { self.new.room ≡ self.old.room - 1 }
    {
        let place = self.links.len();
        let bucket = bucket_of(hash, self.heads.len());
        let before = self.heads[bucket];
        self.links.push_reserved(Link { hash, before });
        self.heads[bucket] = Some(place);
    }

    /// No places. It takes no memory.
    pub fn clear(&mut self)
        ensures hashes { self.new.hashes ≡ [] }
        ensures room { self.old.room ≤ self.new.room }
    {
        self.links.clear();
        empty_all(&mut self.heads);
    }

    /// The last place in the hash's bucket.
    pub fn last(&self, hash: u64) -> Option<usize>
        ensures buckets { 0 < self.now.buckets }
        ensures last { IsLast self.now.hashes self.now.buckets (hash % self.now.buckets)
            (length self.now.hashes) result }
    {
        self.heads[bucket_of(hash, self.heads.len())]
    }

    /// The last place before this one in the same bucket.
    pub fn last_before(&self, place: usize) -> Option<usize>
        requires { place < length self.now.hashes }
        ensures { IsLast self.now.hashes self.now.buckets (bucket self.now.hashes self.now.buckets place) place result }
    {
        self.links[place].before
    }
}

fn bucket_of(hash: u64, buckets: usize) -> usize
    requires { 0 < buckets }
    ensures is { result ≡ hash % buckets }
    ensures below { result < buckets }
{
    (hash % buckets as u64) as usize
}

// So many buckets without a place.
fn empty_heads(alloc: Global, buckets: usize) -> Result<Vec<Option<usize>>, AllocError>
    ensures { IfOk result (λ heads. heads.items ≡ replicate buckets None) }
{
    let mut heads = Vec::with_capacity(alloc, buckets)?;
    'buckets: for _ in 0..buckets {
        heads.push_reserved(None);
    }
    Ok(heads)
}

// Takes the place out of every bucket.
fn empty_all(heads: &mut Vec<Option<usize>>)
    ensures buckets { length heads.new.items ≡ length heads.old.items }
    ensures empty { (bucket : ℕ) → slice_index_or heads.new.items bucket None ≡ None }
{
    'heads: for bucket in 0..heads.len() {
        heads[bucket] = None;
    }
}

// Puts every place into its bucket anew.
fn chain_all(heads: &mut Vec<Option<usize>>, links: &mut Vec<Link>)
    requires some { 0 < length heads.old.items }
    requires empty { (bucket : ℕ) → slice_index_or heads.old.items bucket None ≡ None }
    ensures hashes { hashes links.new.items ≡ hashes links.old.items }
    ensures room { (vec_len links.new ≡ vec_len links.old) × (vec_capacity links.new ≡ vec_capacity links.old) }
    ensures buckets { length heads.new.items ≡ length heads.old.items }
    ensures chained { IsChainedTo (hashes links.new.items) heads.new.items links.new.items (length links.new.items) }
{
    'links: for place in 0..links.len() {
        let bucket = bucket_of(links[place].hash, heads.len());
        links[place].before = heads[bucket];
        heads[bucket] = Some(place);
    }
}
