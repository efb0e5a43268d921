//! Which one of its role a thread is.
ghost use Rattle.std.specs.Prelude.{◌≡◌, ◌<◌, ◌^◌, ℕ, List, [], ◌∷◌, ◌++◌, IfOk, IfSome, MatchOption, OnOk, length, nat_eq, position};
ghost use Rattle.indexmap.specs.IndexSet.{insert_key};
ghost use Rattle.sap_players.specs.Numbers.{AreRoleNumbers, Player, IsRoleNumber, role_number};

use indexmap::IndexSet;
use sap_terms::Mem;
use std::alloc::Global;
use std::marker::Model;

/// Threads, each once, found without a pass over them.
#[derive(Drop)]
struct Threads {
    keys: IndexSet<u64>,
}

impl Model for Threads {
    ghost use Rattle.std.specs.Prelude.{ℕ, List};

    ghost Value = { List ℕ };

    ghost view = { λ a. a.keys.keys };
}

impl Threads {
    // None. It takes no memory.
    fn new(alloc: Global) -> Threads
        ensures { result ≡ [] }
    {
        Threads {
            keys: IndexSet::new(alloc),
        }
    }

    // One more, last, where it isn't among them.
    fn add(&mut self, thread: u64) -> Result<(), Mem>
        ensures { OnOk result (self.new ≡ insert_key nat_eq self.old thread) }
    {
        self.keys.insert(thread)?;
        Ok(())
    }

    // The index of a thread.
    fn index_of(&self, thread: u64) -> Option<usize>
        ensures index { result ≡ position (nat_eq thread) self.now }
        ensures small { IfSome result (λ k. k < 2 ^ 63) }
    {
        let _count = self.keys.len();
        self.keys.get_index_of(&thread)
    }
}

/// The threads of each role, each once, in the order in which they first did something in it. Contracts see them as a list for each role.
#[derive(Drop)]
pub struct RoleNumbers {
    roles: Vec<Threads>,
}

impl Model for RoleNumbers {
    ghost use Rattle.std.specs.Prelude.{ℕ, List};

    ghost Value = { List (List ℕ) };

    ghost view = { λ a. a.roles.items };
}

impl RoleNumbers {
    /// So many roles, in which no thread has done anything. Want of memory is the only error.
    pub fn new(alloc: Global, count: u64) -> Result<RoleNumbers, Mem>
        ensures roles { IfOk result (λ n. length n ≡ count) }
        ensures none { IfOk result (AreRoleNumbers []) }
    {
        let mut roles = Vec::new(alloc);
        for _ in 0..count {
            roles.push(Threads::new(alloc))?;
        }
        Ok(RoleNumbers { roles })
    }

    /// How many roles there are.
    pub fn len(&self) -> u64
        ensures { result ≡ length self.now }
    {
        self.roles.len() as u64
    }

    /// Notes that the thread does something in the role. Want of memory is the only error.
    pub fn note(&mut self, thread: u64, role: u64) -> Result<(), Mem>
        requires { role < length self.old }
        ensures roles { OnOk result (length self.new ≡ length self.old) }
        ensures more { OnOk result ((ds : List Player) → AreRoleNumbers ds self.old
            → AreRoleNumbers (ds ++ (thread, role) ∷ []) self.new) }
    {
        self.roles[role as usize].add(thread)
    }

    /// Which one of its role the thread is, from 1 on, by the order in which threads first did something in it; `None` for a thread that
    /// has done nothing in it. It takes no memory.
    pub fn number(&self, thread: u64, role: u64) -> Option<u64>
        requires { role < length self.now }
        ensures is { (ds : List Player) → AreRoleNumbers ds self.now
            → MatchOption result ((k : ℕ) → IsRoleNumber ds role thread k
            → ⊥) (IsRoleNumber ds role thread) }
        ensures exact { (ds : List Player) → AreRoleNumbers ds self.now → result ≡ role_number ds role thread }
    {
        match self.roles[role as usize].index_of(thread) {
            Some(k) => Some(k as u64 + 1),
            None => None,
        }
    }
}
