//! The facts of a time. Where there are many, they are found by their digests.
ghost use Rattle.std.specs.Prelude.{◌≡◌, Some, [], ◌∷◌, IfOk, IfSome, OnOk, map, nat_eq};
ghost use Rattle.indexmap.specs.IndexMap.{Updates};
ghost use Rattle.sap_match.specs.code.Digests.{AreBuckets, PutsFact, bucket, fact_in};

use crate::digest::fact_digest;
use indexmap::IndexMap;
use sap_terms::{Fact, FactList, Items, Mem, Trace};
use std::alloc::Global;
use std::marker::Model;

/// So many facts are gone over one by one.
const FEW: u64 = 8;

/// Facts by their digests.
pub(crate) type Buckets<'t> = IndexMap<u64, Items<&'t Fact>>;

/// The facts of a time, which contracts see as these facts.
#[derive(Drop)]
pub struct Moment<'t> {
    facts: &'t FactList,
    buckets: Option<Buckets<'t>>,
}

/// The times of a trace.
pub type Moments<'t> = Items<Moment<'t>>;

impl<'t> Model for Moment<'t> {
    ghost use Rattle.std.specs.Prelude.{IfSome, List};
    ghost use Rattle.std.specs.Coded.{codes};
    ghost use Rattle.sap_terms.specs.Codes.{tree_code};
    ghost use Rattle.sap_terms.specs.declared.fact.Fact.{Fact};

    ghost Value = { List Fact };

    ghost coded = { Prim.hlevel (codes, tree_code) };

    ghost use Rattle.sap_match.specs.code.Digests.{AreBuckets};

    ghost view = { λ a. a.facts.now };

    ghost invariant = { λ a. IfSome a.buckets (AreBuckets a.facts.now) };
}

impl<'t> Moment<'t> {
    // These facts, with their digests where there are many.
    fn of(alloc: Global, facts: &'t FactList) -> Result<Moment<'t>, Mem>
        ensures { IfOk result (λ m. m ≡ facts.now) }
    {
        if facts.len() <= FEW {
            return Ok(Moment {
                facts,
                buckets: None,
            });
        }
        let buckets = buckets_of(alloc, facts)?;
        Ok(Moment {
            facts,
            buckets: Some(buckets),
        })
    }

    /// The facts.
    pub(crate) fn facts(&self) -> &'t FactList
        ensures { result.now ≡ self.now }
    {
        self.facts
    }

    /// The facts by their digests, if there are many.
    pub(crate) fn buckets(&self) -> Option<&Buckets<'t>>
        ensures { IfSome result (λ b. AreBuckets self.now b.now) }
    {
        self.buckets.as_ref()
    }
}

// Gives a digest without a bucket one with its first fact.
fn start_bucket<'t>(
    alloc: Global,
    digest: u64,
    x: &'t Fact,
    buckets: &mut Buckets<'t>,
) -> Result<(), Mem>
    ensures { OnOk result (Updates nat_eq buckets.old buckets.new digest (Some (x.entry ∷ []))) }
{
    let mut bucket = Items::new(alloc);
    bucket.push(x)?;
    buckets.insert(digest, bucket)?;
    Ok(())
}

// Puts a fact last in the bucket of its digest.
fn put<'t>(alloc: Global, x: &'t Fact, buckets: &mut Buckets<'t>) -> Result<(), Mem>
    ensures { OnOk result (PutsFact buckets.old buckets.new x.now) }
{
    let digest = fact_digest(x);
    match buckets.get_mut(&digest) {
        Some(bucket) => bucket.push(x),
        None => start_bucket(alloc, digest, x, buckets),
    }
}

// These facts by their digests.
#[tactic(auto, using(crate::proofs::Digests::bucket_laws))]
fn buckets_of<'t>(alloc: Global, facts: &'t FactList) -> Result<Buckets<'t>, Mem>
    ensures { IfOk result (AreBuckets facts.now) }
{
    let mut buckets = IndexMap::new(alloc);
    for x in facts.as_slice() {
        put(alloc, x, &mut buckets)?;
    }
    Ok(buckets)
}

/// The facts of this digest, none where it has no bucket.
pub(crate) fn bucket_in<'a, 't: 'a>(buckets: &'a Buckets<'t>, digest: u64) -> &'a [&'a Fact]
    ensures { map fact_in result.now ≡ bucket buckets.now digest }
{
    if let Some(bucket) = buckets.get(&digest) {
        return bucket.as_slice();
    }
    &[]
}

/// The times of the trace. It takes time in proportion to the number of its times and facts; terms are looked at where a time
/// has more than eight facts alone, and no fact is copied.
#[tactic(auto, using(crate::proofs::Digests::moment_laws))]
pub fn moments_of<'t>(alloc: Global, trace: &'t Trace) -> Result<Moments<'t>, Mem>
    ensures { IfOk result (λ ms. ms ≡ trace.now) }
{
    let mut moments = Items::with_room(alloc, trace.len())?;
    for facts in trace.as_slice() {
        moments.push(Moment::of(alloc, facts)?)?;
    }
    Ok(moments)
}
