// Threads.
ghost use Rattle.std.specs.Prelude.{◌≡◌, ◌<◌, ◌∷◌, ◌++◌, [], length, IfOk, OnOk, OnErr, Some, None, slice_get, slice_set};
ghost use Rattle.std.specs.Option.{option_copied};
ghost use Rattle.sap_calc.specs.code.Threads.{live};
ghost use Rattle.sap_calc.specs.declared.thread.Thread.{Thread as ThreadType};

use sap_share::Env;
use sap_terms::{Copied, Mem};
use std::alloc::Global;

/// Where a running process is: at a place of the process at the start, with what the variables in scope there stand for.
#[derive(Drop)]
pub struct Thread {
    pub place: u64,
    pub env: Env,
}

/// Threads by their numbers; none where one has ended.
pub type Threads = Vec<Option<Thread>>;

// The thread of this number, where it runs.
pub(crate) fn thread_at(threads: &Threads, t: u64) -> Option<&Thread>
    ensures { option_copied result ≡ live threads.now.items t }
{
    match threads.get(t as usize) {
        Some(Some(th)) => Some(th),
        Some(None) => None,
        None => None,
    }
}

// A thread at this place, to which nothing is bound, alone.
pub(crate) fn first_thread(alloc: Global, place: u64) -> Result<Threads, Mem>
    ensures { IfOk result (λ ts. ts.items ≡ Some (record { place = place; env = [] }) ∷ []) }
{
    let mut threads = Vec::new(alloc);
    threads.push(Some(Thread {
        place,
        env: Env::new(alloc),
    }))?;
    Ok(threads)
}

// Lets the thread go on at this place.
pub(crate) fn go_on(threads: &mut Threads, t: u64, next: u64)
    requires { t < length threads.old.items }
    ensures { (th : ThreadType) → slice_get threads.old.items t ≡ Some (Some th) → threads.new.items ≡ slice_set threads.old.items t (Some (record th { place = next })) }
{
    let was = threads[t as usize].take();
    if let Some(th) = was {
        threads[t as usize] = Some(Thread {
            place: next,
            env: th.env,
        });
    }
}

// Lets the thread end.
pub(crate) fn end(threads: &mut Threads, t: u64)
    requires { t < length threads.old.items }
    ensures { threads.new.items ≡ slice_set threads.old.items t None }
{
    threads[t as usize] = None;
}

// The thread once more, at this place.
pub(crate) fn copy_at(alloc: Global, th: &Thread, place: u64) -> Result<Thread, Mem>
    ensures { IfOk result (λ r. r ≡ record th.now { place = place }) }
{
    let env = th.env.copy(alloc)?;
    Ok(Thread { place, env })
}

// One more thread, with the next number.
pub(crate) fn add(threads: &mut Threads, th: Thread) -> Result<(), Mem>
    ensures ok { OnOk result (threads.new.items ≡ threads.old.items ++ Some th ∷ []) }
    ensures err { OnErr result (threads.new.items ≡ threads.old.items) }
{
    threads.push(Some(th))?;
    Ok(())
}

// The thread of this number is this from now on.
pub(crate) fn set(threads: &mut Threads, t: u64, th: Thread)
    requires { t < length threads.old.items }
    ensures { threads.new.items ≡ slice_set threads.old.items t (Some th) }
{
    threads[t as usize] = Some(th);
}
