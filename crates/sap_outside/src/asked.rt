//! What a shelf in memory was asked for.
ghost use Rattle.std.specs.Prelude.{◌≡◌, [], ◌∷◌, IfOk};
ghost use Rattle.sap_outside.specs.Requests.{Request, Requested};
ghost use Rattle.sap_outside.specs.Requests as request;
ghost use Rattle.sap_outside.specs.Asked.{request_of, told_of};

use std::alloc::{AllocError, Global};

/// What a shelf was asked for.
#[derive(Drop)]
pub enum Asked {
    /// The first bytes of the file of this name, one more than the limit at most.
    Fetch {
        /// The name.
        name: String,
        /// The limit.
        limit: u64,
    },
    /// To open the file of this name.
    Begin {
        /// The name.
        name: String,
    },
    /// Bytes of the open file.
    Next {
        /// So many at most.
        most: u64,
    },
}

impl Asked {
    /// The first bytes of the file of this name.
    pub fn fetch(alloc: Global, name: &str, limit: u64) -> Result<Asked, AllocError>
        ensures { IfOk result (λ asked. request_of asked ≡ request.fetch name.now limit) }
    {
        Ok(Asked::Fetch {
            name: String::from_str(alloc, name)?,
            limit,
        })
    }

    /// To open the file of this name.
    pub fn begin(alloc: Global, name: &str) -> Result<Asked, AllocError>
        ensures { IfOk result (λ asked. request_of asked ≡ request.begin name.now) }
    {
        Ok(Asked::Begin {
            name: String::from_str(alloc, name)?,
        })
    }
}

/// The list with one more request behind, where there is memory for it; none where there isn't.
pub fn noted(list: Option<Vec<Asked>>, more: Result<Asked, AllocError>) -> Option<Vec<Asked>>
    ensures { (r : Request) → IfOk more (λ asked. request_of asked ≡ r)
        → Requested (r ∷ []) (told_of list) (told_of result) }
{
    let mut list = list?;
    let asked = more.ok()?;
    match list.push(asked) {
        Ok(()) => Some(list),
        Err(_) => None,
    }
}
