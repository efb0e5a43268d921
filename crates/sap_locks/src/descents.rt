//! What places hand down of locks.
use sap_process::HandsDown;

/// The way to a place, and how many locks stand before it, as what is handed down.
#[derive(Drop)]
pub struct WayBelow;

impl HandsDown for WayBelow {
    ghost use Rattle.sap_locks.specs.Ways.{WayAbove, way_below};

    ghost Above = { WayAbove };

    ghost below = { way_below };
}

/// The variables in scope at a place, those of locks included, and its open locks, as what is handed down.
#[derive(Drop)]
pub struct LockScopeBelow;

impl HandsDown for LockScopeBelow {
    ghost use Rattle.sap_process.specs.Scopes.{LockScope, lock_scope_below};

    ghost Above = { LockScope };

    ghost below = { lock_scope_below };
}
